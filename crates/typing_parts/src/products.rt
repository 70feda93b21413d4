//! The products of a type as written.
ghost use Rattle.std.specs.Prelude.{◌≡◌, ◌-◌, ◌^◌, IfOk, length, min};
ghost use Rattle.cic_terms.specs.Denotes.{tree};
ghost use Rattle.cic_rules.specs.Telescopes.{domains_of};
ghost use Rattle.cic_counted.specs.BlockTests.{index_count};
ghost use Rattle.cic_env.specs.Declarations.{type_declaration};

use cic_env::IndType;
use cic_terms::Term;
use memory::NoMemory;

/// How many products there are, up to the greatest number of the type.
pub fn product_count(t: &Term) -> u64
    ensures { result ≡ min (length (domains_of (tree t.now))) (2 ^ 64 - 1) }
{
    let mut count: u64 = 0;
    let mut at = t;
    while let Term::Prod(_, rest) = at {
        count = count.saturating_add(1);
        at = rest;
    }
    count
}

/// How many indices a type has. More than a number tells apart fit into no memory.
pub fn index_count(parameters: u32, ty: &IndType) -> Result<u32, NoMemory>
    ensures { IfOk result (λ count. count ≡ index_count parameters (type_declaration ty.now)) }
{
    let count = product_count(&ty.arity).saturating_sub(u64::from(parameters));
    match u32::try_from(count) {
        Ok(count) => Ok(count),
        Err(_) => Err(NoMemory),
    }
}
