//! The program's one public call: it reads a command line, runs it over a folder, and prints what it
//! says to a sink. Its contract is the theorem of the program.
#![tactic(auto)]

mod answer;
mod command_line;
mod compiling;
pub mod laws;
mod printing;
mod running;
mod source;

pub use answer::{Answer, Refusal};
pub use command_line::Words;
pub use running::run;
