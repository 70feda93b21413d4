ghost use Rattle.std.specs.Prelude.{◌≡◌, ◌++◌, [], IfOk, OnOk, Ok, string_bytes, decimal, codes};
ghost use Rattle.cic_names.specs.Texts.{id_text};
ghost use Rattle.cic_env.specs.Items.{as_item};
ghost use Rattle.cic_env.specs.Environments.{items};
ghost use Rattle.cic_rules.specs.Environment.{axiom_of, declared};
ghost use Rattle.cic_terms.specs.Denotes.{tree};
ghost use Rattle.gal_print.specs.Printing.{term_text};
ghost use Rattle.gal_print.specs.Appending.{Appends};
ghost use Rattle.cic_counted.specs.Outcome.{unbound};
ghost use Rattle.cic_work.specs.Verdicts.{cause_of, missing_of};
ghost use Rattle.cic_top.specs.Texts.{IsCauseText, AxiomLines, IsAxiomList, IsRefusalLine, word_line, line_text, lines_text};
ghost use Rattle.cic_top.specs.Refusals.{ill};
ghost use Rattle.cic_top.specs.Views.{refusal_of};
ghost use Rattle.cic_top.specs.calls.Lines.{IsAxiom, HasCauseText, HasAxiomLines, HasLine, AreSortedAxioms, lines_of};

use crate::answer::Refusal;
use cic_env::{Cause, Decl, Env, Item, Missing};
use cic_names::GlobalId;
use cic_terms::Term;
use gal_print::{print_term, push_number, push_part};
use memory::NoMemory;
use std::alloc::Global;
use std::collections::BTreeMap;

/// A closed term, printed over the environment.
fn printed_term(alloc: Global, env: &Env, t: &Term) -> Result<String, NoMemory>
    ensures { IfOk result (λ text. string_bytes text ≡ term_text (items env.now) 0 (tree t.now)) }
{
    let mut text = String::new(alloc);
    print_term(&mut text, env, 0, t)?;
    Ok(text)
}

/// The id and the type of an axiom, which is the one item of this language.
fn axiom_parts(item: &Item) -> (&GlobalId, &Term)
    requires { IsAxiom (as_item item.now) }
    ensures { as_item item.now ≡ declared (axiom_of result.0.now (tree result.1.now)) }
{
    match item {
        Item::Declared(Decl::Axiom { id, ty }) => (id, ty),
        Item::Declared(_) | Item::Bare(_) => unreachable!(),
    }
}

/// The axioms of the environment, each a printed id with its printed type, in the order of the ids.
fn sorted_axioms(alloc: Global, env: &Env) -> Result<BTreeMap<String, String>, NoMemory>
    requires { HasAxiomLines (items env.now) }
    ensures { IfOk result (λ sorted. AreSortedAxioms (items env.now) (lines_of sorted.entries)) }
{
    let mut sorted = BTreeMap::new(alloc);
    for item in env.items() {
        let (id, ty) = axiom_parts(item);
        let id = id.to_string(alloc)?;
        let ty = printed_term(alloc, env, ty)?;
        sorted.insert(id, ty)?;
    }
    Ok(sorted)
}

/// Adds a line of the list of axioms.
fn push_line(text: &mut String, id: &str, ty: &str) -> Result<(), NoMemory>
    ensures { OnOk result (string_bytes text.new ≡ string_bytes text.old ++ line_text (record { id = id.now; type = ty.now })) }
{
    push_part(text, id)?;
    push_part(text, " : ")?;
    push_part(text, ty)?;
    push_part(text, "\n")
}

/// Adds a line for each axiom, in the order of the ids.
fn push_lines(text: &mut String, sorted: &BTreeMap<String, String>) -> Result<(), NoMemory>
    ensures { OnOk result (string_bytes text.new ≡ string_bytes text.old ++ lines_text (lines_of sorted.now.entries)) }
{
    for (id, ty) in sorted.iter() {
        push_line(text, id.as_str(), ty.as_str())?;
    }
    Ok(())
}

/// The list of the axioms of an environment.
pub(crate) fn axiom_list(alloc: Global, env: &Env) -> Result<String, NoMemory>
    requires { HasAxiomLines (items env.now) }
    ensures { IfOk result (λ text. IsAxiomList (items env.now) (string_bytes text)) }
{
    let sorted = sorted_axioms(alloc, env)?;
    if sorted.is_empty() {
        return Ok(String::from_str(alloc, "Closed under the global context\n")?);
    }
    let mut text = String::from_str(alloc, "Axioms:\n")?;
    push_lines(&mut text, &sorted)?;
    Ok(text)
}

/// Adds that an id is not declared.
fn push_unbound_id(text: &mut String, id: &GlobalId) -> Result<(), NoMemory>
    ensures { OnOk result (string_bytes text.new ≡ string_bytes text.old ++ (id_text id.now ++ codes " is unbound.")) }
{
    write!(text, "{id} is unbound.").map_err(|_| NoMemory)
}

/// Adds that an id or a variable is not there.
fn push_unbound(text: &mut String, what: &Missing) -> Result<(), NoMemory>
    ensures { OnOk result (Appends (IsCauseText (unbound (missing_of what.now))) (string_bytes text.old) (string_bytes text.new)) }
{
    match what {
        Missing::Global(id) => push_unbound_id(text, id),
        Missing::Local(k) => {
            push_part(text, "variable ")?;
            push_number(text, u64::from(*k))?;
            push_part(text, " is unbound.")
        }
    }
}

/// Adds a term of the language, which has no match: nothing that is declared shows in its text.
fn push_form(text: &mut String, depth: u32, form: &Term) -> Result<(), NoMemory>
    ensures { OnOk result (string_bytes text.new ≡ string_bytes text.old ++ term_text [] depth (tree form.now)) }
{
    let nothing = Env::new(*text.allocator());
    print_term(text, &nothing, depth, form)
}

/// Adds why a declaration of the language is ill formed.
fn push_cause(text: &mut String, cause: &Cause) -> Result<(), NoMemory>
    requires { HasCauseText (cause_of cause.now) }
    ensures { OnOk result (Appends (IsCauseText (cause_of cause.now)) (string_bytes text.old) (string_bytes text.new)) }
{
    match cause {
        Cause::NotSort { depth, form } => {
            push_form(text, *depth, form)?;
            push_part(text, " is not a sort.")
        }
        Cause::Unbound { what } => push_unbound(text, what),
        _ => unreachable!(),
    }
}

/// The line of an ill-formed declaration.
fn ill_line(alloc: Global, id: &GlobalId, cause: &Cause) -> Result<String, NoMemory>
    requires { HasCauseText (cause_of cause.now) }
    ensures { IfOk result (λ text. IsRefusalLine (ill id.now (cause_of cause.now)) (string_bytes text)) }
{
    let mut text = format!(in alloc; "Error: In {id}: ")?;
    push_cause(&mut text, cause)?;
    push_part(&mut text, "\n")?;
    Ok(text)
}

/// The line of a refusal.
pub(crate) fn refusal_line(alloc: Global, refusal: &Refusal) -> Result<String, NoMemory>
    requires { HasLine (refusal_of refusal.now) }
    ensures { IfOk result (λ text. IsRefusalLine (refusal_of refusal.now) (string_bytes text)) }
{
    match refusal {
        Refusal::NoFile { name } => Ok(format!(in alloc; "Error: no file {}.\n", name.text())?),
        Refusal::NotYet { name, place } => {
            Ok(format!(in alloc; "Error: {}: not yet at byte {place}.\n", name.text())?)
        }
        Refusal::Duplicate { name } => {
            Ok(format!(in alloc; "Error: duplicate name {}.\n", name.text())?)
        }
        Refusal::Unknown { name } => {
            Ok(format!(in alloc; "Error: unknown name {}.\n", name.text())?)
        }
        Refusal::Ill { id, cause } => ill_line(alloc, id, cause),
        Refusal::Spent { id, budget } => {
            Ok(format!(in alloc; "Error: In {id}: the budget of {budget} steps is spent.\n")?)
        }
        Refusal::Deep { id } => { Ok(format!(in alloc; "Error: In {id}: too deep.\n")?) }
    }
}

/// The line of a word that is not understood.
pub(crate) fn word_line(alloc: Global, k: u32) -> Result<String, NoMemory>
    ensures { IfOk result (λ text. string_bytes text ≡ word_line k) }
{
    Ok(format!(in alloc; "Error: word {k} is not understood.\n")?)
}
