ghost use Rattle.std.specs.Prelude.{◌≡◌, ◌≢◌, IsTrue, ℕ, ◌+◌, ◌-◌, ◌≤◌, ◌<◌, ◌⊎◌, ◌↔◌, List, [], ◌∷◌, length, Some, All, Contains, IfOk, IfErr, IsOk, OnOk, MatchOption, slice_get, slice_index, remove};
ghost use Rattle.position_rank.specs.Placement.{Placement, above};
ghost use Rattle.roll_table.specs.Rolls.{IsRoll, dice_of};
ghost use Rattle.move_rules.specs.Moves.{IsMove};
ghost use Rattle.move_rules.specs.Sequences.{IsSequence, IsLegal};
ghost use Rattle.move_rules.specs.Faults.{IsFirstFault, IsFirstWrong, IsWholeFault, IsFault, DiffersBy, first_die};

use crate::listing::plays;
use crate::moves::after_move;
use crate::play::{Move, Play, PlayList};
use arrayvec::ArrayVec;
use position_rank::Position;
use roll_table::Roll;

/// What is wrong with a play: of its first wrong move the first of these that holds, up to `HitMark`; where all moves are right, one of the last two.
#[derive(Clone, Copy)]
pub enum BadPlay {
    /// The die doesn't remain.
    WrongDice,
    /// The place isn't 1 to 25, or the mover has no checker on it.
    NoChecker,
    /// The mover has a checker on the bar, and moves another.
    BarFirst,
    /// A checker may not be borne off: one stands above point 6, or one above this place, which isn't the die's number.
    NotHome,
    /// Two or more checkers of the other side hold the point reached.
    Closed,
    /// The mark of a hit differs from whether the move hits.
    HitMark,
    /// More moves can be made.
    TooFew,
    /// The one move was made by the lower die, though the higher can be played.
    HigherDie,
}

/// The position that a play leaves, seen by the same mover, exactly where the play is legal.
pub fn apply(position: &Position, roll: Roll, play: &Play) -> Result<Position, BadPlay>
    ensures ok { IfOk result (IsLegal position.now roll play.now.items) }
    ensures err { IfErr result (IsFault position.now roll play.now.items) }
    ensures legal { (end : Placement) → IsLegal position.now roll play.now.items end → IsOk result }
{
    let end = follow(position, roll, play)?;
    judge(position, roll, play)?;
    Ok(end)
}

/// The position after all moves, each of which has to be right.
fn follow(position: &Position, roll: Roll, play: &Play) -> Result<Position, BadPlay>
    ensures ok { IfOk result (IsSequence position.now (dice_of roll) play.now.items) }
    ensures err { IfErr result (IsFirstWrong position.now (dice_of roll) play.now.items) }
    ensures valid { IsRoll roll }
{
    let mut dice = all_dice(roll);
    let mut now = *position;
    for step in play.iter() {
        now = make(&now, &mut dice, *step)?;
    }
    Ok(now)
}

pub(crate) fn all_dice(roll: Roll) -> ArrayVec<u8, 4>
    ensures dice { result.items ≡ dice_of roll }
    ensures valid { IsRoll roll }
{
    let mut dice = ArrayVec::new();
    dice.push(roll.high());
    dice.push(roll.low());
    if roll.high() == roll.low() {
        dice.push(roll.high());
        dice.push(roll.high());
    }
    dice
}

/// The position after one move, by a die that is taken from those left.
pub(crate) fn make(
    position: &Position,
    dice: &mut ArrayVec<u8, 4>,
    step: Move,
) -> Result<Position, BadPlay>
    requires { All (λ die. 1 ≤ die) dice.old.items }
    ensures ok { IfOk result (λ next.
        (i : ℕ) × (slice_get dice.old.items i ≡ Some step.die)
        × (dice.new.items ≡ remove dice.old.items i)
        × IsMove position.now step.die step.from next) }
    ensures err { IfErr result (IsFirstFault position.now dice.old.items step) }
{
    let Some(at) = find(dice, step.die) else {
        return Err(BadPlay::WrongDice);
    };
    match make_by(position, step) {
        Ok(next) => {
            dice.remove(at);
            Ok(next)
        }
        Err(fault) => Err(fault),
    }
}

fn find(dice: &ArrayVec<u8, 4>, die: u8) -> Option<usize>
    ensures { MatchOption result
        (Contains dice.now.items die → ⊥)
        (λ i. (i < length dice.now.items) × (slice_index dice.now.items i ≡ die)) }
{
    dice.iter().position(|left| *left == die)
}

/// The position after one move by a die that is left.
fn make_by(position: &Position, step: Move) -> Result<Position, BadPlay>
    requires { 1 ≤ step.die }
    ensures ok { IfOk result (IsMove position.now step.die step.from) }
    ensures err { IfErr result (λ fault. (dice : List ℕ)
        → Contains dice step.die → IsFirstFault position.now dice step fault) }
{
    if step.from < 1 || step.from > 25 || position.mover_at(step.from) == 0 {
        return Err(BadPlay::NoChecker);
    }
    if step.from != 25 && position.mover_at(25) > 0 {
        return Err(BadPlay::BarFirst);
    }
    if step.from <= step.die && !may_bear_off(position, step) {
        return Err(BadPlay::NotHome);
    }
    after_move(position, step.die, step.from).ok_or(BadPlay::Closed)
}

/// Whether all checkers are at home, and this place is the die's number or the highest place held.
fn may_bear_off(position: &Position, step: Move) -> bool
    requires { step.from ≤ 25 }
    ensures { IsTrue result
        ↔ ((above position.now.mover 6 ≡ 0)
        × ((step.from ≡ step.die) ⊎ (above position.now.mover step.from ≡ 0))) }
{
    position.mover_above(6) == 0 && (step.from == step.die || position.mover_above(step.from) == 0)
}

/// Whether a sequence uses as many dice as can be, and where it can be the higher.
pub(crate) fn judge(position: &Position, roll: Roll, play: &Play) -> Result<(), BadPlay>
    requires valid { IsRoll roll }
    requires sequence { (end : Placement)
        × IsSequence position.now (dice_of roll) play.now.items end }
    ensures ok { OnOk result ((end : Placement)
        → IsSequence position.now (dice_of roll) play.now.items end
        → IsLegal position.now roll play.now.items end) }
    ensures err { IfErr result (IsWholeFault position.now roll play.now.items) }
{
    let mut list = PlayList::new();
    plays(position, roll, &mut list);
    compare(play, &list[0].play)
}

/// Whether a sequence has as many moves as a legal one, and no lower die where it has but one.
fn compare(play: &Play, legal: &Play) -> Result<(), BadPlay>
    ensures ok { OnOk result (
        (length legal.now.items ≤ length play.now.items)
        × (length play.now.items ≡ 1 → first_die legal.now.items ≤ first_die play.now.items)) }
    ensures err { IfErr result (DiffersBy play.now.items legal.now.items) }
{
    if play.len() < legal.len() {
        return Err(BadPlay::TooFew);
    }
    if play.len() == 1 && first_die(play) < first_die(legal) {
        return Err(BadPlay::HigherDie);
    }
    Ok(())
}

/// The first move's die, or 0 for the play of no moves.
fn first_die(play: &Play) -> u8
    ensures { result ≡ first_die play.now.items }
{
    match play.first() {
        Some(step) => step.die,
        None => 0,
    }
}
