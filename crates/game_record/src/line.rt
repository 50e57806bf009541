use crate::player::Player;
use crate::record::{Action, RecordStakes};

/// What a line of a record says.
#[derive(Drop)]
pub enum Line {
    Title,
    Checkers(u8),
    Stakes(RecordStakes),
    Game { number: u32, away: Option<(u8, u8)> },
    Acted(Action),
    Ended { winner: Player, points: u8 },
    Stopped,
    Closed,
}

/// What of a line decides whether it may come somewhere, and what may come after it.
#[derive(Clone, Copy)]
pub enum LineKind {
    OfTitle,
    OfCheckers,
    OfStakes,
    /// With `away` or without.
    OfGame(bool),
    OfRoll(Player),
    OfDouble(Player),
    /// A take or a beaver.
    OfTake(Player),
    OfPass(Player),
    OfEnd,
    OfStop,
    OfClose,
}
