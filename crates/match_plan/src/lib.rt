//! A match's plan: take points and gammon prices, enclosed.
#![tactic(auto)]

mod millionths;
mod plan;
mod points;
mod values;

pub use millionths::Millionths;
pub use plan::write_plan;
pub use points::{gammon_price, take_point};
