ghost use Rattle.std.specs.Prelude.{◌≡◌, ◌<◌, ◌≤◌, ◌^◌, ◌⊎◌, ℕ, ℤ, pos, ◌*ℤ◌, ◌≤ℤ◌, IfOk, length};
ghost use Rattle.std.specs.Int.{int_max, int_min};
ghost use Rattle.directed_fixed.specs.Bounds.{IsWithinUnits};
ghost use Rattle.directed_fixed.specs.Rounding.{floor_36, ceil_36, outwards};
ghost use Rattle.cube_actions.specs.Stakes.{IsRightDouble, IsValid};
ghost use Rattle.turn_rule.specs.Looks.{AreStakesOf, IsSourceState, of_roll, of_turn};
ghost use Rattle.turn_rule.specs.Found.{Finds, of_double};

use crate::ends::RollEnds;
use crate::pairs::Pairs;
use crate::worth::end_of;
use cube_actions::{Double, Stakes};
use directed_fixed::{End, Fixed, ceil_div, floor_div};
use hyper_outside::LookStop;

#[inline]
fn product(factor: u8, sum: Fixed) -> i64
    requires factor { factor ≤ 4 }
    requires sum { IsWithinUnits (pos (2 ^ 42)) sum }
    ensures product { result ≡ (pos factor *ℤ sum) }
    ensures small { IsWithinUnits (pos (2 ^ 44)) result }
{
    i64::from(factor) * sum.units()
}

/// A 36th of a sum that counts so many times, rounded down.
#[inline]
fn mean_down(factor: u8, sum: Fixed) -> Fixed
    requires factor { factor ≤ 4 }
    requires sum { IsWithinUnits (pos (2 ^ 42)) sum }
    ensures { result ≡ floor_36 (pos factor *ℤ sum) }
{
    Fixed::new(floor_div(product(factor, sum), 36)).unwrap()
}

/// A 36th of a sum that counts so many times, rounded up.
#[inline]
fn mean_up(factor: u8, sum: Fixed) -> Fixed
    requires factor { factor ≤ 4 }
    requires sum { IsWithinUnits (pos (2 ^ 42)) sum }
    ensures { result ≡ ceil_36 (pos factor *ℤ sum) }
{
    Fixed::new(ceil_div(product(factor, sum), 36)).unwrap()
}

/// A 36th of a sum that counts so many times, rounded to one end of a pair.
#[inline]
pub(crate) fn mean_of(end: End, factor: u8, sum: Fixed) -> Fixed
    requires factor { factor ≤ 4 }
    requires sum { IsWithinUnits (pos (2 ^ 42)) sum }
    ensures { result ≡ outwards end (pos factor *ℤ sum) }
{
    match end {
        End::Lower => mean_down(factor, sum),
        End::Upper => mean_up(factor, sum),
    }
}

/// What rolling in a kind is worth that counts so many times, at one end.
pub(crate) fn roll_at<P: Pairs>(
    end: End,
    ends: &RollEnds,
    stakes: &Stakes,
    number: usize,
    factor: u8,
    pairs: &mut P,
) -> Result<Fixed, LookStop>
    requires stakes { AreStakesOf (P.seen pairs.old).source stakes.now }
    requires state { IsSourceState (P.seen pairs.old).source ends.now number }
    requires factor { factor ≤ 4 }
    ensures found { Finds end (of_roll stakes.now ends.now number factor)
        (P.seen pairs.old) (P.seen pairs.new) result }
    ensures source { (P.seen pairs.new).source ≡ (P.seen pairs.old).source }
    ensures stays { P.stays pairs.new ≡ P.stays pairs.old }
    ensures valid { IsValid stakes.now }
{
    let sum = ends.sum_at(end, stakes, number, pairs)?;
    Ok(mean_of(end, factor, sum))
}

/// What a double is worth at one end: the least of a pass and of the other answers.
fn doubled_at<P: Pairs>(
    end: End,
    ends: &RollEnds,
    stakes: &Stakes,
    double: &Double,
    pairs: &mut P,
) -> Result<Fixed, LookStop>
    requires stakes { AreStakesOf (P.seen pairs.old).source stakes.now }
    requires states { (k : ℕ) → k < (P.seen pairs.old).source.kinds
        → IsSourceState (P.seen pairs.old).source ends.now k }
    requires right { IsRightDouble stakes.now double.now }
    ensures found { Finds end (of_double stakes.now ends.now double.now)
        (P.seen pairs.old) (P.seen pairs.new) result }
    ensures most { IfOk result (λ value. value ≤ℤ (P.seen pairs.old).source.bound) }
    ensures source { (P.seen pairs.new).source ≡ (P.seen pairs.old).source }
    ensures stays { P.stays pairs.new ≡ P.stays pairs.old }
{
    let mut least = end_of(end, double.pass);
    for taken in double.answers.as_slice() {
        let value = roll_at(end, ends, stakes, taken.kind, taken.factor, pairs)?;
        least = least.min(value);
    }
    Ok(least)
}

/// What a state is worth before its turn, at one end.
pub(crate) fn turn_at<P: Pairs>(
    end: End,
    ends: &RollEnds,
    stakes: &Stakes,
    number: usize,
    pairs: &mut P,
) -> Result<Fixed, LookStop>
    requires stakes { AreStakesOf (P.seen pairs.old).source stakes.now }
    requires state { IsSourceState (P.seen pairs.old).source ends.now number }
    ensures found { Finds end (of_turn stakes.now ends.now number)
        (P.seen pairs.old) (P.seen pairs.new) result }
    ensures source { (P.seen pairs.new).source ≡ (P.seen pairs.old).source }
    ensures stays { P.stays pairs.new ≡ P.stays pairs.old }
    ensures valid { IsValid stakes.now }
{
    let plain = roll_at(end, ends, stakes, number, 1, pairs)?;
    match &stakes.kind(number).double {
        None => Ok(plain),
        Some(double) => {
            let doubled = doubled_at(end, ends, stakes, double, pairs)?;
            Ok(plain.max(doubled))
        }
    }
}
