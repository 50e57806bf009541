//! The scores of a match, solved from the last game backwards.
#![tactic(auto)]

mod keep;
mod ladder;
mod ladder_laws;
mod openings;
mod score_laws;
mod start_laws;

pub use keep::Keep;
pub use ladder::{LadderStop, solve_ladder};
pub use ladder_laws::solved_ladders_are_true_and_tight;
pub use openings::start_pair;
pub use score_laws::{
    each_match_has_exact_starts, enclosing_starts_bound_the_payoffs,
    sound_words_enclose_the_game_of_a_score, start_pairs_enclose_the_start_of_a_score,
};
pub use start_laws::{tighter_words_tighten_starts, words_that_enclose_give_starts_that_enclose};
