//! Tells on standard error how far a solve has come.
#![tactic(auto)]

mod gate;
mod line;
mod wiping;

pub use gate::ProgressGate;
pub use wiping::WipingWriter;
