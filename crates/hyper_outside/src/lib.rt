//! What stops a step of the solver, and a gate that workers pass.
#![tactic(auto)]

mod gate;
mod outside;

pub use gate::{Gate, OpenGate};
pub use outside::{BadWords, Failed, LookStop, NoMemory, PageFault, WordsKind};
