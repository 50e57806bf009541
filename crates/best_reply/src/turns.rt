ghost use Rattle.std.specs.Prelude.{◌≡◌, ◌<◌, ◌≤◌, ◌^◌, pos, ◌*ℤ◌, All, length};
ghost use Rattle.std.specs.Int.{int_max, int_min};
ghost use Rattle.directed_fixed.specs.declared.bounds.End.TheVariants.{Lower, Upper};
ghost use Rattle.directed_fixed.specs.Bounds.{IsWithinUnits};
ghost use Rattle.best_reply.specs.Tables.{IsAnswerIn, IsSmallSum, doubled_from, mean_pair, sums_in, turn_from};

use cube_actions::{Double, Stakes};
use directed_fixed::{Fixed, Pair, ceil_div, floor_div};

fn product(factor: u8, sum: Fixed) -> i64
    requires factor { factor ≤ 4 }
    requires sum { IsWithinUnits (pos (2 ^ 42)) sum }
    ensures product { result ≡ (pos factor *ℤ sum) }
    ensures small { IsWithinUnits (pos (2 ^ 44)) result }
{
    i64::from(factor) * sum.units()
}

/// A 36th of a sum that counts so many times, rounded outwards.
fn mean(factor: u8, sum: Pair) -> Pair
    requires factor { factor ≤ 4 }
    requires sum { IsSmallSum sum }
    ensures { result ≡ mean_pair factor sum }
{
    let lower = floor_div(product(factor, sum.lower()), 36);
    let upper = ceil_div(product(factor, sum.upper()), 36);
    Pair::new(Fixed::new(lower).unwrap(), Fixed::new(upper).unwrap())
}

/// At each end the better of two.
#[inline]
fn better(one: Pair, another: Pair) -> Pair
    ensures lower { result.lower ≡ int_max one.lower another.lower }
    ensures upper { result.upper ≡ int_max one.upper another.upper }
{
    Pair::new(
        one.lower().max(another.lower()),
        one.upper().max(another.upper()),
    )
}

/// At each end the worse of two.
#[inline]
fn worse(one: Pair, another: Pair) -> Pair
    ensures lower { result.lower ≡ int_min one.lower another.lower }
    ensures upper { result.upper ≡ int_min one.upper another.upper }
{
    Pair::new(
        one.lower().min(another.lower()),
        one.upper().min(another.upper()),
    )
}

/// What a double is worth: at each end the least of a pass and of the other answers.
fn doubled(double: &Double, sums: &[Pair]) -> Pair
    requires answers { All (IsAnswerIn (length sums.now)) double.now.answers.items }
    requires small { All IsSmallSum sums.now }
    ensures lower { result.lower ≡ doubled_from Lower (sums_in sums.now) double.now }
    ensures upper { result.upper ≡ doubled_from Upper (sums_in sums.now) double.now }
{
    let mut least = double.pass;
    for taken in double.answers.as_slice() {
        least = worse(least, mean(taken.factor, sums[taken.kind]));
    }
    least
}

/// What a state of this kind is worth before its turn, from the sums of all kinds over the 36 ways
/// of two dice.
pub(crate) fn turn(stakes: &Stakes, number: usize, sums: &[Pair]) -> Pair
    requires number { number < length stakes.now.kinds }
    requires many { length sums.now ≡ length stakes.now.kinds }
    requires small { All IsSmallSum sums.now }
    ensures { result ≡ turn_from stakes.now (sums_in sums.now) number }
{
    let plain = mean(1, sums[number]);
    match &stakes.kind(number).double {
        None => plain,
        Some(double) => better(plain, doubled(double, sums)),
    }
}
