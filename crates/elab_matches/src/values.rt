//! The name of the value of a match.
ghost use Rattle.std.specs.Prelude.{◌≡◌, None};
ghost use Rattle.std.specs.Option.{option_copied, option_map};
ghost use Rattle.gal_raw.specs.Denotes.{tree, binder};
ghost use Rattle.gal_scoping.specs.Matches.{value_name};

use elab_parts::binder_text;
use gal_raw::{Binder, QualifiedName, Raw};

/// The name that a value is, if it is a single name.
fn single_name<'a>(value: &Raw<'a>) -> Option<&'a [u8]>
    ensures { option_copied result ≡ value_name (tree value.now) None }
{
    match value {
        Raw::Reference(QualifiedName::Short(name)) => Some(name.text),
        Raw::Application(applied) => {
            if applied.arguments().is_empty() {
                single_name(&applied.head)
            } else {
                None
            }
        }
        _ => None,
    }
}

/// The name of the value in the type behind `return`: that behind `as`, or the value itself where it is a single name.
pub fn value_name<'a>(value: &Raw<'a>, name: &Option<Binder<'a>>) -> Option<&'a [u8]>
    ensures { option_copied result ≡ value_name (tree value.now) (option_map binder name.now) }
{
    match name {
        Some(written) => binder_text(written),
        None => single_name(value),
    }
}
