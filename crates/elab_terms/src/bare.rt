//! Applications to no arguments.
ghost use Rattle.std.specs.Prelude.{◌≡◌};
ghost use Rattle.gal_raw.specs.Denotes.{tree};
ghost use Rattle.elab_terms.specs.calls.Sizes.{IsBare};

use gal_raw::Raw;

/// The same term without applications to no arguments around it.
#[tactic(auto, using(crate::proofs::Measures::bare_application, crate::proofs::Measures::empty_application))]
pub(crate) fn bare<'r, 'a>(raw: &'r Raw<'a>) -> &'r Raw<'a>
    ensures same { tree result.now ≡ tree raw.now }
    ensures bare { IsBare result.now }
{
    match raw {
        Raw::Application(x) => {
            if x.arguments().is_empty() {
                bare(&x.head)
            } else {
                raw
            }
        }
        _ => raw,
    }
}
