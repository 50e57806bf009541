//! The rules of play: which plays a roll allows, and how a game is won.
#![tactic(auto)]

mod applied;
mod laws;
mod listing;
mod matched;
mod moves;
mod payoff;
mod play;
mod written;

pub use applied::{BadPlay, apply};
pub use laws::{
    legal_ends_are_exact, legal_ends_stay_live, legal_plays_have_no_fault, opening_plays_go_on,
    written_legal_plays_have_no_fault,
};
pub use listing::plays;
pub use matched::{hits, match_play};
pub use moves::after_move;
pub use payoff::{Won, points};
pub use play::{Entry, MOST_PLAYS, Move, Play, PlayList};
pub use written::{Step, Written};
