//! Examples worked by hand of what the rules say: no program stands on them.
#![tactic(auto)]

mod choices;
mod cubes;
mod exact;
mod moves;
mod starts;
mod tables;
mod turns;

pub use choices::{advice_examples, loss_examples};
pub use cubes::{
    bound_examples, cubeless_example, kind_count_examples, ladder_examples, match_examples,
    score_examples,
};
pub use exact::{
    bound_of_examples, exact_cube_examples, exact_doubled_examples, exact_examples,
    scoring_examples, sound_examples, tighter_examples,
};
pub use moves::{worked_moves, worked_payoffs, worked_plays, worked_texts};
pub use starts::{exact_start_examples, exact_win_examples, start_examples};
pub use tables::table_examples;
pub use turns::{doubled_examples, rounded_examples, worked_turns};
