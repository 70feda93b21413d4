//! The type of a function of a `fix`, and its full body.
ghost use Rattle.std.specs.Prelude.{◌≡◌, IfOk, IfErr, OnOk, map};
ghost use Rattle.cic_terms.specs.calls.Answer.{Makes};
ghost use Rattle.cic_terms.specs.declared.term.TermFault.TheVariants.{Deep};
ghost use Rattle.cic_terms.specs.Denotes.{tree};
ghost use Rattle.cic_terms.specs.Lift.{lift_tree};
ghost use Rattle.cic_terms.specs.Tree.{prod};
ghost use Rattle.cic_rules.specs.Telescopes.{full_body, function_type, lift_domains, products};
ghost use Rattle.cic_spines.specs.Fixes.{function_of};
ghost use Rattle.cic_spines.specs.Lists.{shared_tree};
ghost use Rattle.cic_spines.specs.Several.{AllFit, MakesOver};

use crate::fixes::abstracted;
use cic_terms::{FixBody, Term, TermFault, lift};
use memory::NoMemory;
use std::alloc::Global;
use std::rc::Rc;

/// The type of a function: its codomain under products over its domains. Its depth is not judged.
pub fn function_type(alloc: Global, one: &FixBody) -> Result<Rc<Term>, NoMemory>
    ensures { IfOk result (λ r. shared_tree r ≡ function_type (function_of one.now)) }
{
    let codomain = Rc::new(alloc, one.codomain.clone()?)?;
    quantified(alloc, one.domains.as_slice(), codomain)
}

/// The term under products over the domains. Its depth is not judged.
fn quantified(alloc: Global, domains: &[Term], t: Rc<Term>) -> Result<Rc<Term>, NoMemory>
    ensures { IfOk result (λ r. shared_tree r ≡ products (map tree domains.now) (shared_tree t)) }
{
    let mut whole = t;
    for i in (0..domains.len()).rev() {
        whole = quantify_one(alloc, &domains[i], whole)?;
    }
    Ok(whole)
}

fn quantify_one(alloc: Global, domain: &Term, t: Rc<Term>) -> Result<Rc<Term>, NoMemory>
    ensures { IfOk result (λ r. shared_tree r ≡ prod (tree domain.now) (shared_tree t)) }
{
    let domain = Rc::new(alloc, domain.clone()?)?;
    Ok(Rc::new(alloc, Term::Prod(domain, t))?)
}

/// The full body of a function among `all` functions: its body under abstractions over its domains, each lifted past the functions. The lifted domains alone are judged by the limits. More domains than a number tells apart fit into no memory.
pub fn full_body(alloc: Global, all: u32, one: &FixBody) -> Result<Rc<Term>, TermFault>
    ensures { MakesOver (lift_domains 0 all (function_of one.now).domains) (full_body all (function_of one.now)) result }
{
    let domains = lifted_domains(alloc, all, one.domains.as_slice())?;
    let body = Rc::new(alloc, one.body.clone()?)?;
    Ok(abstracted(alloc, domains.as_slice(), body)?)
}

/// Each domain lifted past `all` binders that stand outside the domains, and judged by itself.
fn lifted_domains(alloc: Global, all: u32, domains: &[Term]) -> Result<Vec<Term>, TermFault>
    ensures ok { IfOk result (λ made. map tree made.items ≡ lift_domains 0 all (map tree domains.now)) }
    ensures fits { OnOk result (AllFit (lift_domains 0 all (map tree domains.now))) }
    ensures deep { IfErr result (λ fault. fault ≡ Deep → ¬ AllFit (lift_domains 0 all (map tree domains.now))) }
{
    let Ok(count) = u32::try_from(domains.len()) else {
        return Err(TermFault::NoMemory);
    };
    let mut made = Vec::new(alloc);
    for place in 0..count {
        made.push(lift(alloc, &domains[place as usize], place, all)?)?;
    }
    Ok(made)
}
