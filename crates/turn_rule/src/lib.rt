//! One turn of the game, and the words after rounds of turns.
#![tactic(auto)]

mod bounds;
mod choice;
mod ends;
mod exact_laws;
mod following_laws;
mod from_sums;
mod game;
mod laws;
mod layouts;
mod look_laws;
mod pairs;
mod play_end;
mod sum;
mod value;
mod worth;

pub use bounds::{roll_bounds, turn_bounds};
pub use choice::Choice;
pub use ends::RollEnds;
pub use exact_laws::{
    consistent_words_enclose, each_sound_word_is_sound, exact_values_stay_within_the_bound,
    rounds_are_consistent, rounds_are_sound, rounds_enclose_longer_games,
    tighter_stakes_tighten_rounds, tighter_stakes_tighten_turns, turns_enclose_one_turn_more,
    words_no_tighter_than_a_round_are_sound, words_no_tighter_than_a_round_enclose_longer_games,
};
pub use following_laws::{
    bounds_that_follow_give_bounds, equal_words_that_follow_give_equal_values,
    tighter_words_that_follow_give_tighter_values, values_stay_within_the_bound,
    what_may_follow_is_a_state,
};
pub use from_sums::pair_from_sums;
pub use game::Game;
pub use laws::{
    rounds_stay_within_the_bound, rounds_tighten, tighter_words_tighten_turns,
    turns_look_at_states_alone, turns_stay_within_the_bound,
};
pub use layouts::all_layouts;
pub use look_laws::{one_list_gives_the_roll, one_list_gives_the_turn, sure_sources_answer};
pub use pairs::Pairs;
pub use worth::{end_of, other_end, win_of, word_of};
