//! Which states of a file of bounds meet a condition.
#![tactic(auto)]

mod condition;
mod found;
mod numbers;
mod reading;
mod scanning;
mod sides;
mod words;

pub use condition::{BadCondition, Comparison, Condition, Field, MOST_TESTS, Test};
pub use found::{Found, State};
pub use numbers::meets;
pub use reading::read_condition;
pub use scanning::scan;
