//! The binders of hypotheses, and terms under them.
ghost use Rattle.std.specs.Prelude.{◌≡◌, ◌≤◌, ◌<◌, ◌+◌, ◌++◌, ◌∷◌, [], Some, None, length, map, IfOk, IfErr, OnOk, OnErr, Err};
ghost use Rattle.std.specs.Option.{option_map};
ghost use Rattle.cic_terms.specs.Denotes.{tree};
ghost use Rattle.cic_terms.specs.calls.Answer.{Makes, MakesShared};
ghost use Rattle.cic_terms.specs.declared.term.TermFault.TheVariants.{Deep};
ghost use Rattle.section_terms.specs.calls.Standing.{put, nothing_passed, bound_of, bounds, under_binders};
ghost use Rattle.section_terms.specs.Discharge.{binding as binding_of};
ghost use Rattle.section_uses.specs.Kept.{hypothesis, list_of, shared_tree};
ghost use Rattle.section_discharge.specs.calls.Tables.{IsTable, IsNext, IsBound, arguments_of, state_of};
ghost use Rattle.section_discharge.specs.calls.Binders.{bound, bind_with, MakesBound, MakesBody, AreMade, MakesNext, IsReady, AreBinders, BoundsFit, under_all, hypotheses_of};

use crate::table::Table;
use cic_terms::{MOST_LEVELS, Term, TermFault};
use section_uses::{Hypothesis, Lists};
use section_walks::replace_names;
use std::alloc::Global;
use std::rc::Rc;

/// The binder of a hypothesis, with the type and the body under the earlier binders.
#[derive(Drop)]
pub(crate) struct Binder {
    pub(crate) ty: Rc<Term>,
    pub(crate) body: Option<Rc<Term>>,
}

/// How a variable is bound: in a type, or in a body.
#[derive(Clone, Copy)]
pub(crate) enum Binding {
    Product,
    Abstraction,
}

/// The binders of all hypotheses of a table.
#[derive(Drop)]
pub(crate) struct Binders<'a> {
    pub(crate) table: Table<'a>,
    pub(crate) bounds: Vec<Binder>,
}

fn share(t: &Rc<Term>) -> Result<Rc<Term>, TermFault>
    ensures ok { IfOk result (λ r. shared_tree r ≡ shared_tree t.now) }
    ensures err { OnErr result (result ≡ Err TermFault.NoMemory) }
{
    Ok(t.clone()?)
}

fn make(alloc: Global, t: Term) -> Result<Rc<Term>, TermFault>
    ensures ok { IfOk result (λ r. shared_tree r ≡ tree t) }
    ensures err { OnErr result (result ≡ Err TermFault.NoMemory) }
{
    Ok(Rc::new(alloc, t)?)
}

/// The term behind a pointer.
fn shared(alloc: Global, t: &Term) -> Result<Rc<Term>, TermFault>
    ensures ok { IfOk result (λ r. shared_tree r ≡ tree t.now) }
    ensures err { OnErr result (result ≡ Err TermFault.NoMemory) }
{
    Ok(Rc::new(alloc, t.clone()?)?)
}

/// The term without its pointer.
fn taken(t: &Rc<Term>) -> Result<Term, TermFault>
    ensures ok { IfOk result (λ r. tree r ≡ shared_tree t.now) }
    ensures err { OnErr result (result ≡ Err TermFault.NoMemory) }
{
    Ok(Term::clone(t)?)
}

/// The rest under one binder.
fn bind_one(
    alloc: Global,
    binding: Binding,
    binder: &Binder,
    rest: Rc<Term>,
) -> Result<Rc<Term>, TermFault>
    ensures ok { IfOk result (λ r. shared_tree r ≡ binding_of (bind_with binding) (bound binder.now).body (bound binder.now).type (shared_tree rest)) }
    ensures err { OnErr result (result ≡ Err TermFault.NoMemory) }
{
    let ty = share(&binder.ty)?;
    match (&binder.body, binding) {
        (Some(body), _) => {
            let body = share(body)?;
            make(alloc, Term::Let { body, ty, rest })
        }
        (None, Binding::Product) => make(alloc, Term::Prod(ty, rest)),
        (None, Binding::Abstraction) => make(alloc, Term::Lam(ty, rest)),
    }
}

/// The rest under all binders, the first outermost.
fn bind_all(
    alloc: Global,
    binding: Binding,
    binders: &[Binder],
    rest: Rc<Term>,
) -> Result<Rc<Term>, TermFault>
    ensures ok { IfOk result (λ r. shared_tree r ≡ under_binders (bind_with binding) (map bound binders.now) (shared_tree rest)) }
    ensures err { OnErr result (result ≡ Err TermFault.NoMemory) }
{
    let mut made = rest;
    for i in (0..binders.len()).rev() {
        made = bind_one(alloc, binding, &binders[i], made)?;
    }
    Ok(made)
}

impl<'a> Table<'a> {
    /// The body of a hypothesis under the binders, where it has one.
    fn bound_body(&self, body: &Option<Rc<Term>>, room: u32) -> Result<Option<Rc<Term>>, TermFault>
        requires table { IsTable self.now }
        requires room { room + self.now.binders + 1 ≡ 4000 }
        ensures { MakesBody (self.now.binders + 1) (option_map (put (arguments_of self.now) (state_of self.now) 0) (option_map shared_tree body.now)) result }
    {
        match body {
            None => Ok(None),
            Some(body) => Ok(Some(replace_names(self.alloc, body, self, room)?)),
        }
    }

    /// The binder of a hypothesis under the earlier binders.
    fn bound(&self, h: &Hypothesis) -> Result<Binder, TermFault>
        requires table { IsTable self.now }
        requires most { self.now.binders ≤ 4000 }
        ensures { MakesBound self.now.binders (bound_of (arguments_of self.now) (state_of self.now) (hypothesis h.now)) result }
    {
        if self.binders >= MOST_LEVELS {
            return Err(TermFault::Deep);
        }
        let room = MOST_LEVELS - self.binders - 1;
        let ty = replace_names(self.alloc, &h.ty, self, room)?;
        let body = self.bound_body(&h.body, room)?;
        Ok(Binder { ty, body })
    }

    /// Passes the next hypothesis, which is bound, and makes its binder.
    fn bind(&mut self, h: &Hypothesis, bounds: &mut Vec<Binder>) -> Result<(), TermFault>
        requires made { AreMade self.old (map bound bounds.old.items) }
        requires next { IsNext self.old h.now }
        requires bound { IsBound self.old.keeps (hypothesis h.now) }
        ensures { MakesNext self.old self.new (map bound bounds.new.items) result }
    {
        let binder = self.bound(h)?;
        bounds.push(binder)?;
        self.pass_bound(h)
    }

    /// Passes the next hypothesis, and makes its binder where it has one.
    fn pass(&mut self, h: &Hypothesis, bounds: &mut Vec<Binder>) -> Result<(), TermFault>
        requires made { AreMade self.old (map bound bounds.old.items) }
        requires next { IsNext self.old h.now }
        ensures { MakesNext self.old self.new (map bound bounds.new.items) result }
    {
        match &h.body {
            Some(body) if !self.keeps => self.pass_body(h, body),
            _ => self.bind(h, bounds),
        }
    }
}

impl<'a> Binders<'a> {
    /// The binders of all hypotheses. `Deep` where they alone pass the limits.
    pub(crate) fn new(
        alloc: Global,
        all: &'a [Hypothesis],
        arguments: &'a Lists,
        keeps: bool,
    ) -> Result<Binders<'a>, TermFault>
        ensures ok { IfOk result (λ b. AreBinders all.now arguments.now keeps b) }
        ensures deep { IfErr result (λ fault. fault ≡ Deep → ¬ BoundsFit 0 (bounds (list_of arguments.now) keeps (map hypothesis all.now) nothing_passed)) }
    {
        let mut table = Table::new(alloc, all, arguments, keeps);
        let mut bounds = Vec::new(alloc);
        for h in all {
            table.pass(h, &mut bounds)?;
        }
        Ok(Binders { table, bounds })
    }

    /// A term under all binders, with what stands for its names there.
    pub(crate) fn over(&self, alloc: Global, binding: Binding, t: &Term) -> Result<Term, TermFault>
        requires { IsReady self.now }
        ensures { Makes 4000 (under_all binding (arguments_of self.now.table) self.now.table.keeps (hypotheses_of self.now.table) (tree t.now)) result }
    {
        let old = shared(alloc, t)?;
        let room = MOST_LEVELS - self.table.binders;
        let inside = replace_names(alloc, &old, &self.table, room)?;
        let whole = bind_all(alloc, binding, self.bounds.as_slice(), inside)?;
        taken(&whole)
    }
}
