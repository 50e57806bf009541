//! Files and the output of a system, with a log of what was read, written and put.
#![tactic(auto)]

mod faults;
mod opened;
mod real_files;
mod real_sink;
mod writing;

pub use real_files::RealFiles;
pub use real_sink::RealSink;
