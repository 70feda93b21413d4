//! Tables in which values are kept under texts.
ghost use Rattle.std.specs.Prelude.{◌≡◌};
ghost use Rattle.std.specs.Option.{option_copied};
ghost use Rattle.std.specs.Map.{lookup};
ghost use Rattle.name_scope.specs.Tables.{under};

use indexmap::IndexMap;
use std::rc::RcStr;

/// The value that is kept under these bytes.
pub(crate) fn kept<'t, V>(table: &'t IndexMap<RcStr, V>, text: &[u8]) -> Option<&'t V>
    ensures { option_copied result ≡ lookup (under text.now) table.now.entries }
{
    match str::from_utf8(text) {
        Ok(text) => table.get(text),
        Err(_) => None,
    }
}
