ghost use Rattle.std.specs.Prelude.{◌≡◌, ◌≤◌, IfOk, IfSome, length, option_map};
ghost use Rattle.cube_actions.specs.Scores.{IsScore};
ghost use Rattle.command_line.specs.Away.{phase_given, side_needing, away_of, away_read, away_given, owner_given, value_given, mover_of, file_at};

use crate::text::Text;
use arrayvec::ArrayString;
use cube_actions::{Phase, Score, Side};
use cube_text::print_score;
use hyper_outside::NoMemory;
use std::alloc::Global;

/// A score of a match, as a side sees it that asks.
#[derive(Clone, Copy)]
pub struct Away {
    pub score: Score,
    /// The side that asks.
    pub side: Side,
}

/// The phase where the sides still need so many points. `None` exactly where it has to be told and isn't, or is another one than is told.
fn phase_given(near: u8, far: u8, crawford: bool, post: bool) -> Option<Phase>
    ensures { result ≡ phase_given near far crawford post }
{
    if near > 1 {
        if crawford || post {
            None
        } else {
            Some(Phase::Normal)
        }
    } else if crawford {
        if post || far == 1 {
            None
        } else {
            Some(Phase::Crawford)
        }
    } else if post || far == 1 {
        Some(Phase::Post)
    } else {
        None
    }
}

fn side_needing(mine: u8, theirs: u8) -> Side
    ensures { result ≡ side_needing mine theirs }
{
    if mine <= theirs {
        Side::Near
    } else {
        Side::Far
    }
}

/// The score where the side that asks and the other one still need so many points.
fn away_of(mine: u8, theirs: u8, crawford: bool, post: bool) -> Option<Away>
    requires mine { (1 ≤ mine) × (mine ≤ 5) }
    requires theirs { (1 ≤ theirs) × (theirs ≤ 5) }
    ensures { result ≡ away_of mine theirs crawford post }
{
    let near = mine.min(theirs);
    let far = mine.max(theirs);
    let phase = phase_given(near, far, crawford, post)?;
    match Score::new(near, far, phase) {
        Ok(score) => Some(Away {
            score,
            side: side_needing(mine, theirs),
        }),
        Err(_) => None,
    }
}

fn away_read(word: &str, crawford: bool, post: bool) -> Option<Away>
    ensures { result ≡ away_read word.now crawford post }
{
    match *word.as_bytes() {
        [a @ b'1'..=b'5', b'-', b @ b'1'..=b'5'] => away_of(a - b'0', b - b'0', crawford, post),
        _ => None,
    }
}

/// The score that is given, as `2-3`: the points that the side which asks still needs, and those of the other.
pub(crate) fn away_given(word: Option<&str>, crawford: bool, post: bool) -> Option<Away>
    ensures { result ≡ away_given (option_map (λ w. w.now) word.entry) crawford post }
{
    away_read(word?, crawford, post)
}

/// Whose the cube is, as the side sees it that asks, `Some(None)` where it is in the middle or none is given.
pub(crate) fn owner_given(side: Side, word: Option<&str>) -> Option<Option<Side>>
    ensures { result ≡ owner_given side (option_map (λ w. w.now) word.entry) }
{
    match word {
        None => Some(None),
        Some("centred") => Some(None),
        Some("mine") => Some(Some(side)),
        Some("theirs") => Some(Some(side.other())),
        Some(_) => None,
    }
}

/// What the cube shows.
pub(crate) fn value_given(owner: Option<Side>, word: Option<&str>) -> Option<u8>
    ensures { result ≡ value_given owner (option_map (λ w. w.now) word.entry) }
{
    match (owner, word) {
        (None, None) => Some(1),
        (None, Some("1")) => Some(1),
        (Some(_), None) => Some(2),
        (Some(_), Some("2")) => Some(2),
        (Some(_), Some("4")) => Some(4),
        (Some(_), Some("8")) => Some(8),
        _ => None,
    }
}

/// The side that moves or doubles, where the one that asks was doubled or not.
pub(crate) fn mover_of(take: bool, side: Side) -> Side
    ensures { result ≡ mover_of take side }
{
    if take { side.other() } else { side }
}

/// The name of the score's file, as `m.2.3.n`.
pub(crate) fn file_at(alloc: Global, prefix: &str, score: Score) -> Result<Text, NoMemory>
    requires { length prefix.now ≤ 240 }
    ensures { IfOk result (λ file. file ≡ file_at prefix.now score) }
{
    let mut name: ArrayString<255> = ArrayString::new();
    name.push_str(prefix);
    name.push('.');
    name.push_str(print_score(score).as_str());
    Text::new(alloc, name.as_str())
}
