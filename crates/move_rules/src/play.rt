use arrayvec::ArrayVec;
use position_rank::Position;

/// One checker's move by one die, from a place of 1 to 25.
#[derive(Clone, Copy, Default)]
pub struct Move {
    pub from: u8,
    pub die: u8,
}

/// The moves of a play in their order.
pub type Play = ArrayVec<Move, 4>;

/// A play and the position that it leaves, seen by the same mover.
#[derive(Default, Drop)]
pub struct Entry {
    pub play: Play,
    pub end: Position,
}

/// How many plays a roll has at most: four moves, each from one of at most three places.
pub const MOST_PLAYS: usize = 81;

/// The plays of a roll.
pub type PlayList = ArrayVec<Entry, MOST_PLAYS>;
