ghost use Rattle.std.specs.Prelude.{◌≡◌};
ghost use Rattle.directed_fixed.specs.Bounds.{IsWithin};
ghost use Rattle.cube_actions.specs.Matches.{value_of_win};
ghost use Rattle.cube_actions.specs.Stakes.{point_units};
ghost use Rattle.cube_actions.specs.Starts.{Covers};
ghost use Rattle.match_plan.specs.Plans.{centred_kind, gammon_price_at, take_point_at, value_of_loss};

use crate::millionths::Millionths;
use crate::points::{gammon_price, take_point};
use cube_actions::{Score, Side, Stakes, Starts};
use directed_fixed::Pair;

/// The values of a side by the points that it wins, or loses.
#[derive(Clone, Copy)]
struct ByPoints {
    one: Pair,
    two: Pair,
}

/// The number of the kind in which a side is to roll with the cube centred. These kinds are a score's first, near before far.
fn centred(side: Side) -> usize
    ensures { result ≡ centred_kind side }
{
    match side {
        Side::Near => 0,
        Side::Far => 1,
    }
}

/// What a side has of a game at a score after it has won one point, or two.
fn wins_of(side: Side, score: Score, starts: &Starts) -> ByPoints
    requires { Covers starts.now score }
    ensures one { result.one ≡ value_of_win starts.now score side 1 }
    ensures two { result.two ≡ value_of_win starts.now score side 2 }
    ensures one_within { IsWithin (point_units 1) result.one }
    ensures two_within { IsWithin (point_units 1) result.two }
{
    let stakes = Stakes::of_score(score, starts);
    let kind = stakes.kind(centred(side));
    ByPoints {
        one: kind.win[0],
        two: kind.win[1],
    }
}

/// What a side has of it after it has lost one point, or two.
fn losses_of(side: Side, score: Score, starts: &Starts) -> ByPoints
    requires { Covers starts.now score }
    ensures one { result.one ≡ value_of_loss starts.now score side 1 }
    ensures two { result.two ≡ value_of_loss starts.now score side 2 }
    ensures one_within { IsWithin (point_units 1) result.one }
    ensures two_within { IsWithin (point_units 1) result.two }
{
    let wins = wins_of(side.other(), score, starts);
    ByPoints {
        one: wins.one.neg(),
        two: wins.two.neg(),
    }
}

/// The take point of a side that is doubled from 1 to 2 at a score.
pub(crate) fn take_point_at(score: Score, side: Side, starts: &Starts) -> Option<Millionths>
    requires { Covers starts.now score }
    ensures { result ≡ take_point_at starts.now score side }
{
    let losses = losses_of(side, score, starts);
    let wins = wins_of(side, score, starts);
    take_point(losses.two, losses.one, wins.two)
}

/// The gammon price of a side with the cube at 1 at a score.
pub(crate) fn gammon_price_at(score: Score, side: Side, starts: &Starts) -> Option<Millionths>
    requires { Covers starts.now score }
    ensures { result ≡ gammon_price_at starts.now score side }
{
    let losses = losses_of(side, score, starts);
    let wins = wins_of(side, score, starts);
    gammon_price(losses.one, wins.one, wins.two)
}
