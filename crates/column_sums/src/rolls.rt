ghost use Rattle.std.specs.Prelude.{◌≡◌, ◌<◌, pos, IsFalse, length};
ghost use Rattle.directed_fixed.specs.declared.bounds.End.{End};
ghost use Rattle.column_sums.specs.Rolls.{pair_found, double_found, fewer_of_pair, fewer_of_double};
ghost use Rattle.column_sums.specs.Tables.{AreTable, HasNoThird, IsReachWithin};
ghost use Rattle.column_sums.specs.Worths.{AreSmallWorths, cells_at, worth_at};

use crate::best::{Bests, Worths};
use crate::cells::Reach;
use crate::tables::best_after;
use directed_fixed::Fixed;

/// 0 at both ends.
#[inline]
pub(crate) fn zeros() -> Worths
    ensures { result ≡ record { lower = pos 0; upper = pos 0 } }
{
    Worths {
        lower: Fixed::whole(0),
        upper: Fixed::whole(0),
    }
}

/// Where not both dice can be played: the higher one, else the lower one, else none.
#[cold]
fn fewer_of_pair(cell: u16, row: &[Bests], after_high: &[Bests], after_low: &[Bests]) -> Worths
    requires cell { cell < 32768 }
    requires row { length row.now ≡ 32768 }
    requires after_high { length after_high.now ≡ 32768 }
    requires after_low { length after_low.now ≡ 32768 }
    ensures best { (end : End) → worth_at end result ≡ fewer_of_pair cell
        (cells_at end row.now) (cells_at end after_high.now) (cells_at end after_low.now) }
    ensures small { AreSmallWorths result }
{
    let cell = usize::from(cell);
    let none = row[cell].or(zeros());
    let lower = after_low[cell].or(none);
    after_high[cell].or(lower)
}

/// What the best play of two unequal dice is worth: both of them in either order, else the higher one, else the lower one, else none.
#[inline]
pub(crate) fn best_pair<const THIRD: bool>(
    high: &Reach,
    low: &Reach,
    row: &[Bests],
    after_high: &[Bests],
    after_low: &[Bests],
) -> Worths
    requires high { IsReachWithin high.now }
    requires low { IsReachWithin low.now }
    requires row { length row.now ≡ 32768 }
    requires after_high { AreTable after_high.now }
    requires after_low { AreTable after_low.now }
    requires third { IsFalse THIRD → HasNoThird high.now × HasNoThird low.now }
    ensures best { (end : End) → worth_at end result ≡ pair_found high.now low.now
        (cells_at end row.now) (cells_at end after_high.now) (cells_at end after_low.now) }
    ensures small { AreSmallWorths result }
{
    let high_first = best_after::<THIRD>(after_low, high);
    let low_first = best_after::<THIRD>(after_high, low);
    let both = high_first.max(low_first);
    if both.lower.is_missing() || both.upper.is_missing() {
        both.or(fewer_of_pair(high.cell, row, after_high, after_low))
    } else {
        both.or(zeros())
    }
}

/// Where not all four dice can be played: as many as can.
#[cold]
fn fewer_of_double(
    cell: u16,
    row: &[Bests],
    one: &[Bests],
    two: &[Bests],
    three: &[Bests],
) -> Worths
    requires cell { cell < 32768 }
    requires row { length row.now ≡ 32768 }
    requires one { length one.now ≡ 32768 }
    requires two { length two.now ≡ 32768 }
    requires three { length three.now ≡ 32768 }
    ensures best { (end : End) → worth_at end result ≡ fewer_of_double cell (cells_at end row.now)
        (cells_at end one.now) (cells_at end two.now) (cells_at end three.now) }
    ensures small { AreSmallWorths result }
{
    let cell = usize::from(cell);
    let none = row[cell].or(zeros());
    let once = one[cell].or(none);
    let twice = two[cell].or(once);
    three[cell].or(twice)
}

/// What the best play of a double is worth: as many of its four dice as can be played.
#[inline]
pub(crate) fn best_double<const THIRD: bool>(
    reach: &Reach,
    row: &[Bests],
    one: &[Bests],
    two: &[Bests],
    three: &[Bests],
) -> Worths
    requires reach { IsReachWithin reach.now }
    requires row { length row.now ≡ 32768 }
    requires one { length one.now ≡ 32768 }
    requires two { length two.now ≡ 32768 }
    requires three { AreTable three.now }
    requires third { IsFalse THIRD → HasNoThird reach.now }
    ensures best { (end : End) → worth_at end result ≡ double_found reach.now (cells_at end row.now)
        (cells_at end one.now) (cells_at end two.now) (cells_at end three.now) }
    ensures small { AreSmallWorths result }
{
    let four = best_after::<THIRD>(three, reach);
    if four.lower.is_missing() || four.upper.is_missing() {
        four.or(fewer_of_double(reach.cell, row, one, two, three))
    } else {
        four.or(zeros())
    }
}
