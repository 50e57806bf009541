//! Files and the output in memory, for tests.
#![tactic(auto)]

mod calls;
mod mem_disk;
mod mem_files;
mod pile;
mod sinks;

pub use mem_files::MemFiles;
pub use sinks::{HonestSink, MemSink};
