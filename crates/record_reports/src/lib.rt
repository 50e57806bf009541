//! The exact texts of the reports on recorded games.
#![tactic(auto)]

mod analysis;
mod full;
mod laws;
mod worst;

pub use analysis::{write_analysis, write_made};
pub use full::write_full;
pub use laws::none_left_out_lost_more;
pub use worst::write_worst;
