//! What is kept of the entries of a section.
ghost use Rattle.std.specs.Prelude.{◌≡◌, ◌<◌, ◌++◌, ◌∷◌, [], length, map, IfOk, IfErr, OnOk};
ghost use Rattle.cic_env.specs.Declarations.{declaration};
ghost use Rattle.section_terms.specs.Discharge.{DeclarationFits};
ghost use Rattle.section_uses.specs.Kept.{list_of, layers_of};
ghost use Rattle.section_core.specs.Sections.{added};
ghost use Rattle.section_core.specs.Answers.{declarations_of, AllFit, Declares};
ghost use Rattle.section_core.specs.calls.Names.{allowed};
ghost use Rattle.section_core.specs.calls.Stored.{kept_entry, DeclaresStored, AllDeclare, with_own, arguments_after, made_of, kept_of, kept_stored, IsNotMade, AreNotMade, IsRefused};

use crate::entry::{Added, Entry, Kept};
use crate::fault::LeaveFault;
use crate::keeping::put_all;
use crate::naming::{first_id, ids_declared, variable_ids};
use cic_env::Decl;
use cic_terms::TermFault;
use memory::NoMemory;
use section_discharge::generalise;
use section_uses::Lists;
use std::alloc::Global;
use std::rc::Rc;

/// Keeps the variables to which the constants of a declaration are applied from now on.
fn put_arguments(alloc: Global, a: &Added, arguments: &mut Lists) -> Result<(), NoMemory>
    requires { 0 < length (layers_of arguments.old) }
    ensures layer { OnOk result (0 < length (layers_of arguments.new)) }
    ensures applied { OnOk result (list_of arguments.new ≡ with_own a.now (list_of arguments.old)) }
{
    let ids = ids_declared(alloc, &a.decl)?;
    let variables = variable_ids(alloc, a.uses.as_slice())?;
    let variables = Rc::new(alloc, variables)?;
    put_all(arguments, ids.as_slice(), &variables)
}

/// Why a declaration is not generalised.
fn refused(alloc: Global, decl: &Decl, fault: TermFault) -> LeaveFault
    requires { Declares (declaration decl.now) }
    ensures { IsRefused (declaration decl.now) fault result }
{
    match fault {
        TermFault::NoMemory => LeaveFault::NoMemory,
        TermFault::Deep => match first_id(alloc, decl) {
            Ok(id) => LeaveFault::Deep { id },
            Err(_) => LeaveFault::NoMemory,
        },
    }
}

/// A declaration generalised over the hypotheses that it uses.
fn made(alloc: Global, a: &Added, arguments: &Lists) -> Result<Decl, LeaveFault>
    requires { Declares (declaration a.now.decl) }
    ensures ok { IfOk result (λ d. declaration d ≡ made_of a.now (list_of arguments.now)) }
    ensures fits { OnOk result (DeclarationFits (made_of a.now (list_of arguments.now))) }
    ensures err { IfErr result (IsNotMade (declaration a.now.decl) (made_of a.now (list_of arguments.now))) }
{
    match generalise(alloc, &a.decl, a.uses.as_slice(), arguments) {
        Ok(decl) => Ok(decl),
        Err(fault) => Err(refused(alloc, &a.decl, fault)),
    }
}

/// What is kept of a declaration.
fn kept(alloc: Global, a: &Added, arguments: &Lists) -> Result<Kept, LeaveFault>
    requires { Declares (declaration a.now.decl) }
    ensures ok { IfOk result (λ k. kept_entry k ≡ added (made_of a.now (list_of arguments.now)) (allowed a.now.usage)) }
    ensures fits { OnOk result (DeclarationFits (made_of a.now (list_of arguments.now))) }
    ensures err { IfErr result (IsNotMade (declaration a.now.decl) (made_of a.now (list_of arguments.now))) }
{
    let usage = a.usage.copy(alloc)?;
    let decl = made(alloc, a, arguments)?;
    Ok(Kept { decl, usage })
}

/// Puts what is kept of a declaration behind the rest.
fn discharge_added(
    alloc: Global,
    a: &Added,
    arguments: &mut Lists,
    all: &mut Vec<Kept>,
) -> Result<(), LeaveFault>
    requires layer { 0 < length (layers_of arguments.old) }
    requires declares { Declares (declaration a.now.decl) }
    ensures layer { OnOk result (0 < length (layers_of arguments.new)) }
    ensures applied { OnOk result (list_of arguments.new ≡ with_own a.now (list_of arguments.old)) }
    ensures kept { OnOk result (map kept_entry all.new.items ≡ map kept_entry all.old.items ++ added (made_of a.now (with_own a.now (list_of arguments.old))) (allowed a.now.usage) ∷ []) }
    ensures fits { OnOk result (DeclarationFits (made_of a.now (with_own a.now (list_of arguments.old)))) }
    ensures err { IfErr result (IsNotMade (declaration a.now.decl) (made_of a.now (with_own a.now (list_of arguments.old)))) }
{
    put_arguments(alloc, a, arguments)?;
    let one = kept(alloc, a, arguments)?;
    all.push(one)?;
    Ok(())
}

/// Puts what is kept of an entry behind the rest.
fn discharge_entry(
    alloc: Global,
    entry: &Entry,
    arguments: &mut Lists,
    all: &mut Vec<Kept>,
) -> Result<(), LeaveFault>
    requires layer { 0 < length (layers_of arguments.old) }
    requires declares { DeclaresStored entry.now }
    ensures layer { OnOk result (0 < length (layers_of arguments.new)) }
    ensures applied { OnOk result (list_of arguments.new ≡ arguments_after entry.now (list_of arguments.old)) }
    ensures kept { OnOk result (map kept_entry all.new.items ≡ map kept_entry all.old.items ++ kept_of entry.now (list_of arguments.old)) }
    ensures fits { OnOk result (AllFit (declarations_of (kept_of entry.now (list_of arguments.old)))) }
    ensures err { IfErr result (AreNotMade (declarations_of (kept_of entry.now (list_of arguments.old)))) }
{
    match entry {
        Entry::Assumed(_) => Ok(()),
        Entry::Added(a) => discharge_added(alloc, a, arguments, all),
    }
}

/// What is kept of the entries of a section. `Deep` with the first that passes the limits.
pub(crate) fn discharge(alloc: Global, entries: &[Entry]) -> Result<Vec<Kept>, LeaveFault>
    requires { AllDeclare entries.now }
    ensures ok { IfOk result (λ all. map kept_entry all.items ≡ kept_stored (λ c. []) entries.now) }
    ensures fits { OnOk result (AllFit (declarations_of (kept_stored (λ c. []) entries.now))) }
    ensures err { IfErr result (AreNotMade (declarations_of (kept_stored (λ c. []) entries.now))) }
{
    let mut arguments = Lists::new(alloc);
    arguments.enter(alloc)?;
    let mut all = Vec::new(alloc);
    for entry in entries {
        discharge_entry(alloc, entry, &mut arguments, &mut all)?;
    }
    Ok(all)
}
