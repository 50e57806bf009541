//! Races, in which the sides have passed each other: how many turns they may still take, and their
//! bounds, found in one pass.
#![tactic(auto)]

mod fill;
mod free_plays;
mod laws;
mod order;
mod race;
mod race_table;

pub use laws::{
    each_roll_moves_in_a_race, highest_places_tell_races, pairs_of_races_are_true,
    races_stay_races, turns_left_are_one_more_than_may_follow,
};
pub use order::pips_of;
pub use race::{Race, is_race};
pub use race_table::RaceTable;
