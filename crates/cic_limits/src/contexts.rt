//! Entries put inside a context, and taken away again.
ghost use Rattle.std.specs.Prelude.{◌≡◌, ◌∷◌, ◌-◌, length, OnOk, OnErr, IfOk, drop, take, true, false};
ghost use Rattle.cic_terms.specs.Denotes.{tree};
ghost use Rattle.cic_rules.specs.Environment.{assumed, defined, under_unknown, unknown};
ghost use Rattle.cic_rules.specs.Telescopes.{conclusion_of, domains_of, extend};
ghost use Rattle.cic_env.specs.Contexts.{context, local};
ghost use Rattle.cic_spines.specs.Lists.{shared_tree, shared_trees};

use cic_env::{Context, Local};
use cic_terms::Term;
use memory::NoMemory;
use std::rc::Rc;

/// Puts an entry of that type inside the others.
#[inline(never)]
pub fn push_assumed(ctx: &mut Context, ty: &Rc<Term>) -> Result<(), NoMemory>
    ensures pushed { OnOk result (context ctx.new ≡ assumed (shared_tree ty.now) ∷ context ctx.old) }
    ensures same { OnErr result (context ctx.new ≡ context ctx.old) }
{
    let ty = Some(ty.clone()?);
    ctx.push(Local { ty, body: None })
}

fn definition(body: &Rc<Term>, ty: &Rc<Term>) -> Result<Local, NoMemory>
    ensures { IfOk result (λ entry. local entry ≡ defined (shared_tree body.now) (shared_tree ty.now)) }
{
    let body = body.clone()?;
    let ty = ty.clone()?;
    Ok(Local {
        ty: Some(ty),
        body: Some(body),
    })
}

/// Puts an entry of that type with a body inside the others.
#[inline(never)]
pub fn push_defined(ctx: &mut Context, body: &Rc<Term>, ty: &Rc<Term>) -> Result<(), NoMemory>
    ensures pushed { OnOk result (context ctx.new ≡ defined (shared_tree body.now) (shared_tree ty.now) ∷ context ctx.old) }
    ensures same { OnErr result (context ctx.new ≡ context ctx.old) }
{
    let entry = definition(body, ty)?;
    ctx.push(entry)
}

/// `push_assumed`, with whether there was memory for it.
fn is_pushed(ctx: &mut Context, ty: &Rc<Term>) -> bool
    ensures pushed { result ≡ true → context ctx.new ≡ assumed (shared_tree ty.now) ∷ context ctx.old }
    ensures same { result ≡ false → context ctx.new ≡ context ctx.old }
{
    match push_assumed(ctx, ty) {
        Ok(()) => true,
        Err(_) => false,
    }
}

/// Puts entries of these types inside the others, each of which stands under the earlier ones.
#[inline(never)]
#[tactic(auto, using(crate::proofs::Telescopes::one_more, crate::proofs::Telescopes::drop_some))]
pub fn enter(ctx: &mut Context, types: &[Rc<Term>]) -> Result<(), NoMemory>
    ensures entered { OnOk result (context ctx.new ≡ extend (context ctx.old) (shared_trees types.now)) }
    ensures same { OnErr result (context ctx.new ≡ context ctx.old) }
{
    for entered in 0..types.len() {
        if !is_pushed(ctx, &types[entered]) {
            leave(ctx, entered as u64);
            return Err(NoMemory);
        }
    }
    Ok(())
}

/// Puts so many entries inside the others, of which neither type nor body is known.
#[inline(never)]
#[tactic(auto, using(crate::proofs::Telescopes::one_more_unknown, crate::proofs::Telescopes::drop_opened))]
pub fn enter_binders(ctx: &mut Context, count: u64) -> Result<(), NoMemory>
    ensures opened { OnOk result (context ctx.new ≡ under_unknown count (context ctx.old)) }
    ensures same { OnErr result (context ctx.new ≡ context ctx.old) }
{
    for opened in 0..count {
        if !push_unknown(ctx) {
            leave(ctx, opened);
            return Err(NoMemory);
        }
    }
    Ok(())
}

/// Puts one entry inside the others, of which neither type nor body is known, and tells whether there was memory for it.
fn push_unknown(ctx: &mut Context) -> bool
    ensures pushed { result ≡ true → context ctx.new ≡ unknown ∷ context ctx.old }
    ensures same { result ≡ false → context ctx.new ≡ context ctx.old }
{
    match ctx.push(Local {
        ty: None,
        body: None,
    }) {
        Ok(()) => true,
        Err(_) => false,
    }
}

/// Takes so many of the innermost entries away.
#[inline(never)]
#[tactic(auto, using(crate::proofs::Telescopes::one_less))]
pub fn leave(ctx: &mut Context, count: u64)
    ensures { context ctx.new ≡ drop count (context ctx.old) }
{
    for closed in 0..count {
        pop_one(ctx);
    }
}

/// Takes the innermost entries away, so that so many are left.
#[inline(never)]
pub fn leave_to(ctx: &mut Context, outside: usize)
    ensures { context ctx.new ≡ drop (length (context ctx.old) - outside) (context ctx.old) }
{
    let inside = ctx.len().saturating_sub(outside);
    leave(ctx, inside as u64);
}

/// Takes the innermost entry away.
#[inline(never)]
pub fn pop_one(ctx: &mut Context)
    ensures { context ctx.new ≡ drop 1 (context ctx.old) }
{
    let _entry = ctx.pop();
}

/// Puts entries inside the others for the first `count` products of a type, or for all where there are fewer, and gives what stands under them. Where there is no memory, some of them are there.
#[inline(never)]
pub fn enter_products<'t>(ctx: &mut Context, count: u32, t: &'t Term) -> Result<&'t Term, NoMemory>
    ensures entered { OnOk result (context ctx.new ≡ extend (context ctx.old) (take count (domains_of (tree t.now)))) }
    ensures rest { IfOk result (λ rest. domains_of (tree rest.now) ≡ drop count (domains_of (tree t.now))) }
    ensures conclusion { IfOk result (λ rest. conclusion_of (tree rest.now) ≡ conclusion_of (tree t.now)) }
{
    let mut at = t;
    for _passed in 0..count {
        let Term::Prod(domain, rest) = at else {
            return Ok(at);
        };
        push_assumed(ctx, domain)?;
        at = rest;
    }
    Ok(at)
}
