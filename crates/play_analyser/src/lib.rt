//! What plays and cube actions lose, bounded from the words of a game.
#![tactic(auto)]

mod advice;
mod among;
mod answers;
mod best;
mod laws;
mod look_laws;
mod losses;
mod play_pairs;
mod ranking;

pub use advice::{CubeAction, CubeAdvice, cube_advice, cube_advice_of};
pub use best::{Advised, Best, Moves};
pub use laws::{losses_enclose_regrets, tighter_words_give_tighter_losses};
pub use look_laws::{
    advised_actions_lose_at_most_their_bounds, best_plays_lose_at_most_their_bounds,
    looked_losses_enclose_regrets, one_list_gives_the_advice, one_list_gives_the_best,
    one_list_gives_the_loss, one_list_gives_the_play, one_list_gives_the_ranking,
    sure_sources_advise,
};
pub use losses::{Weighed, weigh};
pub use ranking::{PlayRow, Ranking, rank_plays};
