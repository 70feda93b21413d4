//! The outside as the program sees it: a folder whose files are read, and a sink that takes its output.
//! Each has an implementation in memory, which tells what it holds and fails at the calls that it is told, and
//! one on the host, which tells nothing but how often it failed.
#![tactic(auto)]

mod call_count;
mod calls;
mod counting;
mod file_name;
mod folder;
mod host_folder;
mod host_sink;
mod mem_folder;
mod mem_sink;
mod named_files;
mod sink;
mod whole;

pub use calls::Calls;
pub use file_name::{FileName, FileNameFault};
pub use folder::{Folder, FolderFault};
pub use host_folder::HostFolder;
pub use host_sink::HostSink;
pub use mem_folder::MemFolder;
pub use mem_sink::MemSink;
pub use memory::NoMemory;
pub use named_files::NamedFiles;
pub use sink::{Sink, SinkFault};
pub use whole::read_whole;

#[cfg(test)]
mod tests;
