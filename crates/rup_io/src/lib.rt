//! The outside of the compiler: files that are fetched by name and sinks that take bytes, each with a
//! count of its faults. The layers above are written over the traits, so that their contracts can say
//! what a program answers for which files, and whom a failure is due to.
#![tactic(auto)]

mod calls;
mod disk;
mod fetch;
mod memory_files;
mod memory_sink;
mod output;
mod stream;

pub use disk::DiskFiles;
pub use fetch::{FetchFault, Files};
pub use memory_files::MemFiles;
pub use memory_sink::MemSink;
pub use output::{Sink, SinkFailed};
pub use stream::StdSink;

#[cfg(test)]
mod tests;
