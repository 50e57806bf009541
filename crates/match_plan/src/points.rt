ghost use Rattle.std.specs.Prelude.{◌≡◌, ◌<◌, ◌≤◌, ◌^◌, ◌↔◌, ◌≤ℤ◌, ◌<ℤ◌, int_le, IsSome, IfSome};
ghost use Rattle.directed_fixed.specs.Bounds.{IsWithin, IsWithinUnits};
ghost use Rattle.cube_actions.specs.Stakes.{point_units};
ghost use Rattle.match_plan.specs.Points.{rise, is_take_point_known, is_gammon_price_known, take_bounds, price_bounds, take_point, gammon_price, IsTakePointKnown, IsGammonPriceKnown, EnclosesTakePoints, EnclosesGammonPrices};

use crate::millionths::{Millionths, millionths_down, millionths_up};
use directed_fixed::{Fixed, Pair};

/// How many units the second value is above the first, both within a match.
fn rise(from: Fixed, to: Fixed) -> u64
    requires from { IsWithinUnits (point_units 1) from }
    requires to { IsWithinUnits (point_units 1) to }
    ensures rise { result ≡ rise from to }
    ensures small { result ≤ 2 ^ 33 }
    ensures some { from <ℤ to → 0 < result }
{
    (to.units() - from.units()).unsigned_abs()
}

/// Whether no value inside the first pair is above one inside the second.
fn lies_below(a: Pair, b: Pair) -> bool
    ensures { result ≡ int_le a.upper b.lower }
{
    a.upper().units() <= b.lower().units()
}

/// Whether a pass lies between a loss and a win after a take, and these differ, whichever values inside the pairs they are.
fn is_take_point_known(lose: Pair, pass: Pair, win: Pair) -> bool
    ensures { result ≡ is_take_point_known lose pass win }
{
    lies_below(lose, pass) && lies_below(pass, win) && lose.upper().units() < win.lower().units()
}

/// Both ends of a take point that is known.
fn take_bounds(lose: Pair, pass: Pair, win: Pair) -> Millionths
    requires lose { IsWithin (point_units 1) lose }
    requires pass { IsWithin (point_units 1) pass }
    requires win { IsWithin (point_units 1) win }
    requires known { IsTakePointKnown lose pass win }
    ensures { result ≡ take_bounds lose pass win }
{
    Millionths {
        low: millionths_down(
            rise(lose.upper(), pass.lower()),
            rise(lose.upper(), win.upper()),
        ),
        high: millionths_up(
            rise(lose.lower(), pass.upper()),
            rise(lose.lower(), win.lower()),
        ),
    }
}

/// The take point of a side that is doubled: the chance of winning, in millionths, at which a take is worth as much as a pass. Of a take
/// it has the value `lose` where it then loses and `win` where it then wins, of a pass the value `pass`, all within one point, as a match
/// counts as one. The two ends enclose (pass - lose) / (win - lose) for all values inside the pairs.
///
/// `None` comes exactly where the pairs leave open whether a pass lies between the other two, or whether they differ.
pub fn take_point(lose: Pair, pass: Pair, win: Pair) -> Option<Millionths>
    requires lose { IsWithin (point_units 1) lose }
    requires pass { IsWithin (point_units 1) pass }
    requires win { IsWithin (point_units 1) win }
    ensures known { IsSome result ↔ IsTakePointKnown lose pass win }
    ensures value { result ≡ take_point lose pass win }
    ensures chance { IfSome result (λ found. found.high ≤ 1000000) }
    ensures encloses { IfSome result (EnclosesTakePoints lose pass win) }
{
    if is_take_point_known(lose, pass, win) {
        Some(take_bounds(lose, pass, win))
    } else {
        None
    }
}

/// Whether a gammon is worth at least a single win, and that more than a loss, whichever values inside the pairs they are.
fn is_gammon_price_known(lose: Pair, win: Pair, gammon: Pair) -> bool
    ensures { result ≡ is_gammon_price_known lose win gammon }
{
    lies_below(win, gammon) && lose.upper().units() < win.lower().units()
}

/// Both ends of a gammon price that is known.
fn price_bounds(lose: Pair, win: Pair, gammon: Pair) -> Millionths
    requires lose { IsWithin (point_units 1) lose }
    requires win { IsWithin (point_units 1) win }
    requires gammon { IsWithin (point_units 1) gammon }
    requires known { IsGammonPriceKnown lose win gammon }
    ensures { result ≡ price_bounds lose win gammon }
{
    Millionths {
        low: millionths_down(
            rise(win.upper(), gammon.lower()),
            rise(lose.lower(), win.upper()),
        ),
        high: millionths_up(
            rise(win.lower(), gammon.upper()),
            rise(lose.upper(), win.lower()),
        ),
    }
}

/// The gammon price of a side: how many millionths of what a single win is worth more than a loss a gammon is worth more than a single
/// win. The pairs of the three values are within one point, as a match counts as one. The two ends enclose (gammon - win) / (win - lose)
/// for all values inside the pairs.
///
/// `None` comes exactly where the pairs leave open whether a gammon is worth at least a single win, or whether that is worth more than a
/// loss.
pub fn gammon_price(lose: Pair, win: Pair, gammon: Pair) -> Option<Millionths>
    requires lose { IsWithin (point_units 1) lose }
    requires win { IsWithin (point_units 1) win }
    requires gammon { IsWithin (point_units 1) gammon }
    ensures known { IsSome result ↔ IsGammonPriceKnown lose win gammon }
    ensures value { result ≡ gammon_price lose win gammon }
    ensures encloses { IfSome result (EnclosesGammonPrices lose win gammon) }
{
    if is_gammon_price_known(lose, win, gammon) {
        Some(price_bounds(lose, win, gammon))
    } else {
        None
    }
}
