//! Claims of blocks for rounds: each block is claimed at most once a round, by one atomic step.
#![tactic(auto)]

mod claims;
mod laws;
mod views;

pub use claims::{ClaimSeat, Claims};
pub use laws::{claims_are_kept, each_claim_has_one_seat, lost_blocks_are_claimed};
pub use views::{Claim, ClaimNote, ClaimView};
