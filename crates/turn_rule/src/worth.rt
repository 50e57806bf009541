ghost use Rattle.std.specs.Prelude.{◌≡◌, ◌<◌, ℕ, None, All, length};
ghost use Rattle.std.specs.List.{Contains};
ghost use Rattle.position_rank.specs.Placement.{Placement, swap};
ghost use Rattle.position_rank.specs.Ranks.{square_rank_of};
ghost use Rattle.move_rules.specs.declared.payoff.Won.{Won};
ghost use Rattle.move_rules.specs.Payoff.{points};
ghost use Rattle.directed_fixed.specs.Bounds.{Bounds, IsWithin, at, other};
ghost use Rattle.turn_rule.specs.Turn.{win};
ghost use Rattle.turn_rule.specs.Looks.{IsSourceState};
ghost use Rattle.turn_rule.specs.Found.{Finds, LeavesState, of_word, of_play, of_plays};

use crate::pairs::Pairs;
use crate::play_end::PlayEnd;
use cube_actions::Kind;
use directed_fixed::{End, Fixed, Pair};
use hyper_outside::LookStop;
use move_rules::Won;
use position_rank::Position;

/// The other end of a pair.
#[inline]
pub fn other_end(end: End) -> End
    ensures { result ≡ other end }
{
    match end {
        End::Lower => End::Upper,
        End::Upper => End::Lower,
    }
}

/// One end of a pair.
#[inline]
pub fn end_of(end: End, pair: Pair) -> Fixed
    ensures { result ≡ at end pair }
{
    match end {
        End::Lower => pair.lower(),
        End::Upper => pair.upper(),
    }
}

/// What a win is worth in a kind.
#[inline]
pub fn win_of(kind: &Kind, won: Won) -> Pair
    ensures { result ≡ win kind.now won }
{
    match won {
        Won::Single => kind.win[0],
        Won::Gammon => kind.win[1],
        Won::Backgammon => kind.win[2],
    }
}

/// The word of a state at one end, whose position has this square rank.
#[inline]
pub fn word_of<P: Pairs>(
    end: End,
    position: &Position,
    square: u64,
    kind: usize,
    pairs: &mut P,
) -> Result<Fixed, LookStop>
    requires state { IsSourceState (P.seen pairs.old).source position.now kind }
    requires square { square ≡ square_rank_of position.now }
    ensures found { Finds end (of_word position.now kind)
        (P.seen pairs.old) (P.seen pairs.new) result }
    ensures source { (P.seen pairs.new).source ≡ (P.seen pairs.old).source }
    ensures stays { P.stays pairs.new ≡ P.stays pairs.old }
{
    match end {
        End::Lower => pairs.lower_at(position, square, kind),
        End::Upper => pairs.upper_at(position, square, kind),
    }
}

/// What the mover has after his play, at one end: his win, or what the other side hasn't.
/// A lower bound of the one side is an upper bound of the other.
#[inline]
fn worth_at<P: Pairs>(
    end: End,
    left: &PlayEnd,
    kind: &Kind,
    pairs: &mut P,
) -> Result<Fixed, LookStop>
    requires state { LeavesState (P.seen pairs.old).source kind.now.next left.now }
    requires wins { (won : Won) → IsWithin (P.seen pairs.old).source.bound (win kind.now won) }
    ensures found { Finds end (of_play kind.now left.now)
        (P.seen pairs.old) (P.seen pairs.new) result }
    ensures source { (P.seen pairs.new).source ≡ (P.seen pairs.old).source }
    ensures stays { P.stays pairs.new ≡ P.stays pairs.old }
{
    match left.won() {
        Some(won) => Ok(end_of(end, win_of(kind, won))),
        None => {
            let theirs = word_of(
                other_end(end),
                left.theirs(),
                left.square(),
                kind.next,
                pairs,
            )?;
            Ok(theirs.neg())
        }
    }
}

/// What the best of some plays is worth, at one end.
pub(crate) fn best_at<P: Pairs>(
    end: End,
    ends: &[PlayEnd],
    kind: &Kind,
    pairs: &mut P,
) -> Result<Fixed, LookStop>
    requires some { 0 < length ends.now }
    requires states { All (LeavesState (P.seen pairs.old).source kind.now.next) ends.now }
    requires wins { (won : Won) → IsWithin (P.seen pairs.old).source.bound (win kind.now won) }
    ensures found { Finds end (of_plays kind.now ends.now)
        (P.seen pairs.old) (P.seen pairs.new) result }
    ensures source { (P.seen pairs.new).source ≡ (P.seen pairs.old).source }
    ensures stays { P.stays pairs.new ≡ P.stays pairs.old }
{
    let mut best = worth_at(end, &ends[0], kind, pairs)?;
    for i in 1..ends.len() {
        best = best.max(worth_at(end, &ends[i], kind, pairs)?);
    }
    Ok(best)
}
