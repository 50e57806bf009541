//! The words that a user writes after the program's name.
#![tactic(auto)]

mod away;
mod command;
mod commands;
mod laws;
mod plain;
mod stop;
mod text;
mod values;
mod words;

pub use command::{
    Advise, AdviseList, Analyse, Board, Bound, Command, CommandName, Ladder, Make, Migrate, Plan,
    Race, Reply, Scan, Show, ShowList, Shown, Solve, Study, Verify,
};
pub use laws::commands_are_right;
pub use plain::{PlainPosition, plain_position};
pub use stop::{WordsFault, WordsStop};
pub use text::Text;
pub use values::{
    MOST_GAMES, MOST_POINTS, MOST_ROUNDS, MOST_WORKERS, USUAL_POINTS, USUAL_REPLY_ROUNDS,
    USUAL_ROUNDS, position_given, roll_named,
};
pub use words::read_words;
