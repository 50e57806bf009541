//! Values as decimal numbers of points.
#![tactic(auto)]

mod decimal;

pub use decimal::{print_down, print_units, print_up};
