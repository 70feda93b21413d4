//! The parts of a term of the language that is read from what is written: names, levels, binders and fixpoints, each
//! within the limits of a term.
#![tactic(auto)]

mod around;
mod binding;
mod constraints;
mod fault;
mod fixes;
mod functions;
pub mod laws;
mod levels;
mod making;
mod names;
mod naming;
mod parts;
mod place;
mod sized;
mod telescopes;

pub use around::{Around, has_name};
pub use binding::Binding;
pub use constraints::read_constraints;
pub use fault::ScopingFault;
pub use fixes::fix_term;
pub use functions::ReadFunction;
pub use levels::{anonymous_level, level_term, sort};
pub use making::{Pair, leaf, lift, make_let, make_pair, share, variable};
pub use names::{binder_names, chosen_function, enter_all, structural_place};
pub use naming::{global_named, name_term, text};
pub use parts::Part;
pub use place::{Fresh, Place};
pub use telescopes::{add_group, binder_text, over};
