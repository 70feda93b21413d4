//! What stands around the parts of a match and of a fix.
ghost use Rattle.std.specs.Prelude.{◌≡◌, ◌+◌, ◌++◌, OnOk, Some, length, codes, drop};
ghost use Rattle.cic_names.specs.Texts.{id_text};
ghost use Rattle.cic_rules.specs.Environment.{element};
ghost use Rattle.cic_env.specs.Declarations.{block, type_declaration};
ghost use Rattle.cic_env.specs.Environments.{items};
ghost use Rattle.gal_print.specs.Heads.{heads, heads_of_type, unknown_heads};
ghost use Rattle.gal_print.specs.Printing.{name_text, names_text, parameters_text, head_text, which_text};
ghost use Rattle.gal_print.specs.calls.Output.{Puts};
ghost use Rattle.gal_print.specs.calls.Places.{heads_of as heads_seen, branch_head, struct_text};

use crate::output::{Output, Piece, put, put_names, put_parameters, word};
use cic_env::{Block, CtorDecl, Env, IndType};
use cic_names::GlobalId;
use memory::NoMemory;

/// What a match tells of its type: the number of parameters, and the constructors of the branches where they are known.
#[derive(Clone, Copy)]
pub(crate) struct Heads<'e> {
    pub(crate) params: u32,
    pub(crate) ctors: &'e [CtorDecl],
}

/// Nothing is told of a type that is not known.
fn unknown_heads<'e>() -> Heads<'e>
    ensures { heads_seen result ≡ unknown_heads }
{
    Heads {
        params: 0,
        ctors: &[],
    }
}

/// What a match with so many branches tells of a type.
fn heads_of_one(params: u32, ty: &IndType, branches: usize) -> Heads<'_>
    ensures { heads_seen result ≡ heads_of_type params branches (Some (type_declaration ty.now)) }
{
    if ty.ctors.len() == branches {
        Heads {
            params,
            ctors: ty.ctors.as_slice(),
        }
    } else {
        unknown_heads()
    }
}

/// What a match with so many branches tells of the type at a place of a block.
fn heads_in(b: &Block, index: u32, branches: usize) -> Heads<'_>
    ensures { heads_seen result ≡ heads_of_type (block b.now).parameters branches (element (block b.now).types index) }
{
    match b.types.get(index as usize) {
        Some(ty) => heads_of_one(b.params, ty, branches),
        None => unknown_heads(),
    }
}

/// What a match with so many branches tells of its type.
pub(crate) fn heads_of<'e>(env: &'e Env, id: &GlobalId, branches: usize) -> Heads<'e>
    ensures { heads_seen result ≡ heads (items env.now) id.now branches }
{
    match env.whole_block(id) {
        Some((block, index)) => heads_in(block, index, branches),
        None => unknown_heads(),
    }
}

/// Puts the constructor of a branch in front.
#[inline(never)]
fn put_constructor<'t>(out: &mut Output<'t>, heads: &Heads<'t>, i: usize) -> Result<(), NoMemory>
    ensures puts { OnOk result (Puts (head_text (drop i (heads_seen heads.now).constructors)) out.old out.new) }
    ensures length { OnOk result (length out.new.used.items ≡ length out.old.used.items) }
{
    match heads.ctors.get(i) {
        Some(ctor) => put(out, Piece::Id(&ctor.id)),
        None => word(out, "?"),
    }
}

/// Puts what stands before the body of a branch in front: its constructor and its binders.
#[inline(never)]
pub(crate) fn put_head<'t>(
    out: &mut Output<'t>,
    heads: &Heads<'t>,
    i: usize,
    binders: u32,
) -> Result<(), NoMemory>
    ensures puts { OnOk result (Puts (branch_head (heads_seen heads.now) i binders (length out.old.used.items)) out.old out.new) }
    ensures length { OnOk result (length out.new.used.items ≡ length out.old.used.items) }
{
    let first = out.used.len() as u64;
    word(out, " => ")?;
    put_names(out, first, u64::from(binders))?;
    put_parameters(out, heads.params)?;
    put_constructor(out, heads, i)?;
    word(out, " | ")
}

/// Puts what stands between the value of a match and its motive in front.
#[inline(never)]
pub(crate) fn put_pattern<'t>(
    out: &mut Output<'t>,
    env: &'t Env,
    ind: &'t GlobalId,
    arity: u32,
    branches: usize,
) -> Result<(), NoMemory>
    ensures puts { OnOk result (Puts (name_text (length out.old.used.items + arity) ++ codes " in " ++ id_text ind.now ++ parameters_text (heads (items env.now) ind.now branches).parameters ++ names_text (length out.old.used.items) arity) out.old out.new) }
    ensures length { OnOk result (length out.new.used.items ≡ length out.old.used.items) }
{
    let first = out.used.len() as u64;
    let value = first.checked_add(u64::from(arity)).ok_or(NoMemory)?;
    put_names(out, first, u64::from(arity))?;
    put_parameters(out, heads_of(env, ind, branches).params)?;
    put(out, Piece::Id(ind))?;
    word(out, " in ")?;
    put(out, Piece::Name(value))
}

/// Puts what stands behind the functions of a fix in front: which of them it is, where there are several.
#[inline(never)]
pub(crate) fn put_which(out: &mut Output<'_>, all: usize, which: u32) -> Result<(), NoMemory>
    ensures puts { OnOk result (Puts (which_text all (length out.old.used.items + which)) out.old out.new) }
    ensures length { OnOk result (length out.new.used.items ≡ length out.old.used.items) }
{
    if all < 2 {
        return Ok(());
    }
    let first = out.used.len() as u64;
    let number = first.checked_add(u64::from(which)).ok_or(NoMemory)?;
    put(out, Piece::Name(number))?;
    word(out, " for ")
}

/// Puts the domain that a function goes by in front.
#[inline(never)]
pub(crate) fn put_struct(out: &mut Output<'_>, first: u64, k: u32) -> Result<(), NoMemory>
    ensures puts { OnOk result (Puts (struct_text (first + k)) out.old out.new) }
    ensures length { OnOk result (length out.new.used.items ≡ length out.old.used.items) }
{
    let number = first.checked_add(u64::from(k)).ok_or(NoMemory)?;
    word(out, "} : ")?;
    put(out, Piece::Name(number))?;
    word(out, " {struct ")
}
