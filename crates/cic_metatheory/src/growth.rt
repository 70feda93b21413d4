//! Law: an environment with more declarations after its own shows all that it showed.
ghost use Rattle.std.specs.Prelude.{◌++◌};
ghost use Rattle.cic_rules.specs.Environment.{Environment};
ghost use Rattle.cic_metatheory.specs.Growth.{KnowsItsTypes, Grows};

/// What the rules can look up in an environment they find alike in a longer one, where what stands in the
/// types of its constructors stands for something.
pub fn more_declarations_grow()
    ensures { (E F : Environment) → KnowsItsTypes E → Grows E (E ++ F) }
{}
