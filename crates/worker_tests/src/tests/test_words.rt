//! Positions in which the game goes on, and the words of their states.
ghost use Rattle.std.specs.Prelude.{◌≡◌, sum};
ghost use Rattle.position_rank.specs.Placement.{IsPosition, IsLive};

use interval_words::Words;
use position_rank::Position;
use position_text::read_position;
use std::process::Abort;

/// The live position of a text, with so many checkers a side.
pub fn live(rt: &impl Abort, text: &str, checkers: u8) -> Position
    ensures position { IsPosition result }
    ensures many { sum result.mover ≡ checkers }
    ensures live { IsLive result }
{
    let position = read_position(text).ok().expect(rt, "no position");
    assert!(rt; position.checkers() == checkers);
    position
}

/// Both words of a state, in units.
pub fn units(rt: &impl Abort, words: &Words, text: &str, kind: usize) -> (i64, i64) {
    let position = live(rt, text, words.checkers());
    assert!(rt; kind < words.stakes().kinds());
    let pair = words.pair(&position, kind);
    (pair.lower().units(), pair.upper().units())
}
