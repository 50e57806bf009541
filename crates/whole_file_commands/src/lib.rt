//! The commands that load a file of bounds whole: they search, check, follow, plan by and renew it.
#![tactic(auto)]

mod migrate;
mod plan;
mod plan_laws;
mod reply;
mod reply_laws;
mod scan;
mod verify;

pub use migrate::run_migrate;
pub use plan::run_plan;
pub use plan_laws::{plans_hold_inside_their_pairs, plans_of_solved_matches_hold_in_the_end};
pub use reply::{FoundReply, LoadedFile, run_reply};
pub use reply_laws::replies_hold_for_any_words;
pub use scan::run_scan;
pub use verify::run_verify;
