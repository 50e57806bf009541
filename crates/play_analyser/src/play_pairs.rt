ghost use Rattle.std.specs.Prelude.{◌≡◌, ◌↔◌, ◌≤◌, IsTrue, All, length};
ghost use Rattle.std.specs.Int.{int_max, int_min};
ghost use Rattle.position_rank.specs.Placement.{Placement};
ghost use Rattle.move_rules.specs.Order.{ends_of};
ghost use Rattle.move_rules.specs.declared.play.TheConstants.{MOST_PLAYS};
ghost use Rattle.move_rules.specs.declared.payoff.Won.{Won};
ghost use Rattle.directed_fixed.specs.Bounds.{IsWithin};
ghost use Rattle.turn_rule.specs.Turn.{win};
ghost use Rattle.turn_rule.specs.Looks.{FindsPair, LooksUp};
ghost use Rattle.turn_rule.specs.Found.{Finds, LeavesState, of_play};
ghost use Rattle.play_analyser.specs.Choices.{same_position};
ghost use Rattle.play_analyser.specs.Sought.{ArePairsFor, MeetsSome};

use arrayvec::ArrayVec;
use cube_actions::Kind;
use directed_fixed::{End, Fixed, Pair};
use hyper_outside::LookStop;
use move_rules::{Entry, MOST_PLAYS, points};
use position_rank::Position;
use turn_rule::{Pairs, end_of, other_end, win_of, word_of};

/// What the mover has after a play that leaves this, at one end: his win, or what the other side
/// hasn't. A lower bound of the one side is an upper bound of the other.
fn worth_at<P: Pairs>(
    end: End,
    left: &Position,
    kind: &Kind,
    pairs: &mut P,
) -> Result<Fixed, LookStop>
    requires state { LeavesState (P.seen pairs.old).source kind.now.next left.now }
    requires wins { (won : Won) → IsWithin (P.seen pairs.old).source.bound (win kind.now won) }
    ensures found { Finds end (of_play kind.now left.now)
        (P.seen pairs.old) (P.seen pairs.new) result }
    ensures source { (P.seen pairs.new).source ≡ (P.seen pairs.old).source }
    ensures stays { P.stays pairs.new ≡ P.stays pairs.old }
{
    match points(left) {
        Some(won) => Ok(end_of(end, win_of(kind, won))),
        None => {
            let theirs = left.swap();
            let square = theirs.square_rank();
            let word = word_of(other_end(end), &theirs, square, kind.next, pairs)?;
            Ok(word.neg())
        }
    }
}

/// The pair of two ends. Where they are crossed, as only ends of untold words can be, they are
/// exchanged.
#[inline]
fn pair_of(lower: Fixed, upper: Fixed) -> Pair
    ensures lower { result.lower ≡ int_min lower upper }
    ensures upper { result.upper ≡ int_max lower upper }
{
    Pair::new(lower.min(upper), lower.max(upper))
}

/// What the mover has after a play that leaves this.
pub(crate) fn play_pair<P: Pairs>(
    left: &Position,
    kind: &Kind,
    pairs: &mut P,
) -> Result<Pair, LookStop>
    requires state { LeavesState (P.seen pairs.old).source kind.now.next left.now }
    requires wins { (won : Won) → IsWithin (P.seen pairs.old).source.bound (win kind.now won) }
    ensures looked { FindsPair (of_play kind.now left.now)
        (P.seen pairs.old) (P.seen pairs.new) result }
    ensures source { (P.seen pairs.new).source ≡ (P.seen pairs.old).source }
    ensures stays { P.stays pairs.new ≡ P.stays pairs.old }
{
    let lower = worth_at(End::Lower, left, kind, pairs)?;
    let upper = worth_at(End::Upper, left, kind, pairs)?;
    Ok(pair_of(lower, upper))
}

/// What the mover has after each of some plays.
pub(crate) fn play_pairs<P: Pairs>(
    ends: &[Position],
    kind: &Kind,
    pairs: &mut P,
) -> Result<ArrayVec<Pair, MOST_PLAYS>, LookStop>
    requires few { length ends.now ≤ MOST_PLAYS }
    requires states { All (LeavesState (P.seen pairs.old).source kind.now.next) ends.now }
    requires wins { (won : Won) → IsWithin (P.seen pairs.old).source.bound (win kind.now won) }
    ensures looked { LooksUp (P.seen pairs.old) (P.seen pairs.new)
        (MeetsSome (of_play kind.now) ends.now (P.seen pairs.old).source)
        (λ found. ArePairsFor (of_play kind.now) ends.now
        (P.seen pairs.old).source (P.seen pairs.new).notes found.items) result }
    ensures source { (P.seen pairs.new).source ≡ (P.seen pairs.old).source }
    ensures stays { P.stays pairs.new ≡ P.stays pairs.old }
{
    let mut found = ArrayVec::new();
    for left in ends {
        let pair = play_pair(left, kind, pairs)?;
        found.push(pair);
    }
    Ok(found)
}

/// What the plays of a list leave.
pub(crate) fn ends_of_plays(list: &[Entry]) -> ArrayVec<Position, MOST_PLAYS>
    requires { length list.now ≤ MOST_PLAYS }
    ensures { result.items ≡ ends_of list.now }
{
    let mut ends = ArrayVec::new();
    for entry in list {
        ends.push(entry.end);
    }
    ends
}

pub(crate) fn same(one: &Position, another: &Position) -> bool
    ensures { result ≡ same_position one.now another.now }
{
    *one == *another
}
