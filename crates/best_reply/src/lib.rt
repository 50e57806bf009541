//! What following advice guarantees against the best reply.
#![tactic(auto)]

mod advice;
mod bank;
mod bank_reader;
mod columns;
mod laws;
mod left;
mod outcome;
mod position_lefts;
mod reply_table;
mod roll_lefts;
mod sweep;
mod turns;

pub use laws::{
    following_gives_no_more_and_replying_no_less, one_play_is_advised,
    reply_rounds_enclose_longer_games, reply_rounds_stay_within_the_bound, reply_rounds_tighten,
    the_first_row_is_advised,
};
pub use reply_table::ReplyTable;
