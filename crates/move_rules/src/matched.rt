ghost use Rattle.std.specs.Prelude.{◌≡◌, ◌≢◌, IsTrue, ℕ, ◌+◌, ◌-◌, ◌≤◌, ◌<◌, ◌⊎◌, ◌↔◌, [], ◌∷◌, sum, length, Some, All, Contains, IsOk, IfOk, IfErr, MatchOption, slice_index, remove};
ghost use Rattle.position_rank.specs.Placement.{Placement};
ghost use Rattle.roll_table.specs.Rolls.{IsRoll, dice_of};
ghost use Rattle.move_rules.specs.Moves.{IsMove};
ghost use Rattle.move_rules.specs.Sequences.{IsLegal};
ghost use Rattle.move_rules.specs.Written.{HasOneLeft, IsSmallest, IsGreatest, IsDieOf, IsHit, IsStep, IsWritten, Leaves, IsWrongStep, IsWrongWritten, IsWrittenFault};

use crate::applied::{BadPlay, all_dice, judge, make};
use crate::play::{Entry, Move, Play};
use crate::written::{Step, Written};
use arrayvec::ArrayVec;
use position_rank::Position;
use roll_table::Roll;

/// The moves for which a play is written and the position that they leave, seen by the same mover, exactly where the play is legal and its marks are right.
/// A step to a point is made by the die of its length. A step off is made by a die that is left and long enough: by the smallest, or for the last checker, as it has
/// to be played, by the greatest.
pub fn match_play(position: &Position, roll: Roll, written: &Written) -> Result<Entry, BadPlay>
    ensures right { IfOk result (λ entry. Leaves position.now roll written.now.items entry.end) }
    ensures written { IfOk result (λ entry.
        IsWritten position.now (dice_of roll) written.now.items entry.play.items entry.end) }
    ensures legal { IfOk result (λ entry. IsLegal position.now roll entry.play.items entry.end) }
    ensures err { IfErr result (IsWrittenFault position.now roll written.now.items) }
    ensures complete { (end : Placement)
        → Leaves position.now roll written.now.items end → IsOk result }
{
    let entry = match_steps(position, roll, written)?;
    judge(position, roll, &entry.play)?;
    Ok(entry)
}

/// The moves of all steps, each of which has to be right.
fn match_steps(position: &Position, roll: Roll, written: &Written) -> Result<Entry, BadPlay>
    ensures ok { IfOk result (λ entry.
        IsWritten position.now (dice_of roll) written.now.items entry.play.items entry.end) }
    ensures err { IfErr result (IsWrongWritten position.now (dice_of roll) written.now.items) }
    ensures valid { IsRoll roll }
{
    let mut dice = all_dice(roll);
    let mut play = Play::new();
    let mut now = *position;
    for step in written.iter() {
        let (made, next) = match_step(&now, &mut dice, *step)?;
        play.push(made);
        now = next;
    }
    Ok(Entry { play, end: now })
}

/// The move of one step, by a die that is taken from those left, and the position after it.
fn match_step(
    position: &Position,
    dice: &mut ArrayVec<u8, 4>,
    step: Step,
) -> Result<(Move, Position), BadPlay>
    requires { All (λ die. 1 ≤ die) dice.old.items }
    ensures ok { IfOk result (λ made.
        (i : ℕ) × (dice.new.items ≡ remove dice.old.items i)
        × IsStep position.now dice.old.items step made.0 i made.1) }
    ensures err { IfErr result (IsWrongStep position.now dice.old.items step) }
{
    let Some(die) = die_of(position, dice, step) else {
        return Err(BadPlay::WrongDice);
    };
    let made = Move {
        from: step.from,
        die,
    };
    match make(position, dice, made) {
        Ok(next) => {
            if hits(position, made) == step.hit {
                Ok((made, next))
            } else {
                Err(BadPlay::HitMark)
            }
        }
        Err(fault) => Err(fault),
    }
}

/// Whether a move comes to a point that one checker of the other side holds.
pub fn hits(position: &Position, made: Move) -> bool
    requires { made.from ≤ 25 }
    ensures { IsTrue result ↔ IsHit position.now made }
{
    made.die < made.from && position.other_at(25 - (made.from - made.die)) == 1
}

/// The die of a step, if there is one.
fn die_of(position: &Position, dice: &ArrayVec<u8, 4>, step: Step) -> Option<u8>
    ensures { MatchOption result
        ((die : ℕ) → IsDieOf position.now dice.now.items step die → ⊥)
        (IsDieOf position.now dice.now.items step) }
{
    if step.to > 0 {
        return Some(step.from - step.to);
    }
    if has_one_left(position) {
        greatest(dice, step.from)
    } else {
        smallest(dice, step.from)
    }
}

/// Whether one checker of the mover isn't off.
fn has_one_left(position: &Position) -> bool
    ensures { IsTrue result ↔ HasOneLeft position.now }
{
    position.mover_at(0) == position.checkers() - 1
}

/// The greatest die that is left, if it takes a checker off from here.
fn greatest(dice: &ArrayVec<u8, 4>, from: u8) -> Option<u8>
    ensures { MatchOption result
        (All (λ die. die < from) dice.now.items)
        (IsGreatest dice.now.items from) }
{
    let best = dice.iter().copied().max()?;
    (best >= from).then_some(best)
}

/// The smallest die that is left and takes a checker off from here.
fn smallest(dice: &ArrayVec<u8, 4>, from: u8) -> Option<u8>
    ensures { MatchOption result
        (All (λ die. die < from) dice.now.items)
        (IsSmallest dice.now.items from) }
{
    let mut best = None;
    for die in dice.iter() {
        if *die >= from && is_below(*die, best) {
            best = Some(*die);
        }
    }
    best
}

fn is_below(die: u8, best: Option<u8>) -> bool
    ensures { IsTrue result ↔ MatchOption best (Unit {0}) (λ other. die < other) }
{
    match best {
        Some(other) => die < other,
        None => true,
    }
}
