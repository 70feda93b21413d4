//! Environments and contexts as the program keeps them: declarations in order, each id found in one look-up.
//! Beside them what a check answers: what was found, or why a declaration is not accepted.
#![tactic(auto)]

mod context;
mod declaration;
mod entry;
mod environment;
mod item;
mod naming;
mod readers;
mod verdict;

pub use context::{Context, Local};
pub use declaration::{Block, CtorDecl, Decl, IndType};
pub use entry::Entry;
pub use environment::{Env, PushFault};
pub use item::Item;
pub use readers::{CtorOf, TypeOf};
pub use verdict::{Cause, Found, Missing, Verdict};
