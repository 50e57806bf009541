ghost use Rattle.std.specs.Prelude.{◌≡◌, ◌<◌, ◌^◌, pos, ◌≤ℤ◌, All, IsTrue, length};
ghost use Rattle.position_rank.specs.Placement.{Placement};
ghost use Rattle.directed_fixed.specs.declared.bounds.End.TheVariants.{Lower, Upper};
ghost use Rattle.directed_fixed.specs.Bounds.{IsWithinUnits};
ghost use Rattle.cube_actions.specs.Stakes.{IsRightDouble};
ghost use Rattle.turn_rule.specs.Looks.{
  Notes,
  Source,
  AreStakesOf,
  IsSourceState,
  AreSourceWords,
  IsTurnPair,
  of_turn,
};
ghost use Rattle.turn_rule.specs.Found.{IsFoundOf, AreFoundSums, of_double};

use crate::bounds::pair_of;
use crate::value::mean_of;
use crate::worth::end_of;
use cube_actions::{Double, Stakes};
use directed_fixed::{End, Fixed, Pair};

/// What a double is worth at one end, from the sums of all kinds.
fn doubled_from(end: End, sums: &[Fixed], stakes: &Stakes, double: &Double) -> Fixed
    requires many { length sums.now ≡ length stakes.now.kinds }
    requires small { All (IsWithinUnits (pos (2 ^ 42))) sums.now }
    requires right { IsRightDouble stakes.now double.now }
    ensures found { (source : Source) (noted : Notes) (p : Placement)
        → AreStakesOf source stakes.now
        → AreFoundSums end source noted stakes.now p sums.now
        → IsFoundOf end (of_double stakes.now p double.now) source noted result }
    ensures most { result ≤ℤ stakes.now.bound }
{
    let mut least = end_of(end, double.pass);
    for taken in double.answers.as_slice() {
        least = least.min(mean_of(end, taken.factor, sums[taken.kind]));
    }
    least
}

/// What a state is worth before its turn, at one end, from the sums of all kinds over the 36 ways
/// of two dice.
fn turn_from_sums(end: End, sums: &[Fixed], stakes: &Stakes, kind: usize) -> Fixed
    requires many { length sums.now ≡ length stakes.now.kinds }
    requires small { All (IsWithinUnits (pos (2 ^ 42))) sums.now }
    requires kind { kind < length stakes.now.kinds }
    ensures found { (source : Source) (noted : Notes) (p : Placement)
        → AreStakesOf source stakes.now
        → AreFoundSums end source noted stakes.now p sums.now
        → IsFoundOf end (of_turn stakes.now p kind) source noted result }
{
    let plain = mean_of(end, 1, sums[kind]);
    match &stakes.kind(kind).double {
        None => plain,
        Some(double) => plain.max(doubled_from(end, sums, stakes, double)),
    }
}

/// The pair of what a state is worth before its turn, from both ends of the sums of all kinds.
pub fn pair_from_sums(lower: &[Fixed], upper: &[Fixed], stakes: &Stakes, kind: usize) -> Pair
    requires many_lower { length lower.now ≡ length stakes.now.kinds }
    requires many_upper { length upper.now ≡ length stakes.now.kinds }
    requires small_lower { All (IsWithinUnits (pos (2 ^ 42))) lower.now }
    requires small_upper { All (IsWithinUnits (pos (2 ^ 42))) upper.now }
    requires kind { kind < length stakes.now.kinds }
    ensures turn { (source : Source) (noted : Notes) (p : Placement) → AreStakesOf source stakes.now
        → IsSourceState source p kind → (IsTrue noted.told → AreSourceWords source noted.words)
        → AreFoundSums Lower source noted stakes.now p lower.now
        → AreFoundSums Upper source noted stakes.now p upper.now
        → IsTurnPair stakes.now p kind source noted result }
{
    // What `bound` ensures says that the stakes are valid.
    let _bound = stakes.bound();
    pair_of(
        turn_from_sums(End::Lower, lower, stakes, kind),
        turn_from_sums(End::Upper, upper, stakes, kind),
    )
}
