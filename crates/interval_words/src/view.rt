use directed_fixed::Fixed;
use std::collections::LinkedList;
use turn_rule::Game;

/// A word was seen to be at least as tight as this value.
#[derive(Drop)]
pub struct Note {
    pub word: u64,
    pub value: Fixed,
}

/// A word was brought a value, by a seat that had settled so many rounds.
#[derive(Drop)]
pub struct Work {
    pub word: u64,
    pub base: u64,
}

/// What a seat knows of the words of a game: that they are at least as tight as after `base`
/// rounds, and the notes; what was done with it, each word that it brought a value, the newest first;
/// and how many hands it has, without which it brings none. A view that another took in names no
/// game. No value of this type is made: contracts speak of it.
#[derive(Drop)]
pub struct View {
    pub game: Option<Game>,
    pub base: u64,
    pub notes: LinkedList<Note>,
    pub work: LinkedList<Work>,
    pub hands: u64,
}
