ghost use Rattle.std.specs.Prelude.{IsFalse, ◌≡◌, ◌<◌, ◌≤◌, ◌^◌, ◌-◌, ℕ, ℤ, pos, ◌+ℤ◌, ◌*ℤ◌, List, [], ◌∷◌, length, slice_index_or};
ghost use Rattle.roll_table.specs.Rolls.{Dice, all_rolls};
ghost use Rattle.position_rank.specs.Placement.{Placement};
ghost use Rattle.directed_fixed.specs.declared.bounds.End.{End};
ghost use Rattle.directed_fixed.specs.Bounds.{IsWithinUnits};
ghost use Rattle.column_sums.specs.Cascade.{best_pair, best_double, best_of_roll};
ghost use Rattle.column_sums.specs.MoveLists.{AreReady};
ghost use Rattle.column_sums.specs.Sums.{AreOnes, AreTwoAndThree, AreRightEach, AreSmall, AreSums, DoubleTables, PairTables, RollTables, IsRollAdded, sum_at, ways};
ghost use Rattle.column_sums.specs.Tables.{AreRow, AreTable, IsNeededRow};
ghost use Rattle.column_sums.specs.Worths.{AreSmallWorths, cells_at, worths_at};

use crate::best::{Bests, Worths};
use crate::moves::Moves;
use crate::rolls::{best_double, best_pair, zeros};
use crate::tables::{Row, Table};
use directed_fixed::Fixed;
use roll_table::{Roll, rolls};

/// Makes the first few sums 0.
fn clear(sums: &mut [Worths], many: usize)
    requires { many ≤ length sums.old }
    ensures { (end : End) (i : ℕ) → i < many → sum_at (worths_at end sums.new) i ≡ pos 0 }
{
    for i in 0..many {
        sums[i] = zeros();
    }
}

/// One value more, so many times.
#[inline]
fn add_one(sum: Fixed, times: u32, best: Fixed) -> Fixed
    requires sum { IsWithinUnits (pos (2 ^ 42)) sum }
    requires times { times ≤ 2 }
    requires best { IsWithinUnits (pos (2 ^ 36)) best }
    ensures { result ≡ (sum +ℤ pos times *ℤ best) }
{
    sum.add(best.times(times))
}

/// One value more at each end, so many times.
#[inline]
fn add_times(sum: Worths, times: u32, best: Worths) -> Worths
    requires lower { IsWithinUnits (pos (2 ^ 42)) sum.lower }
    requires upper { IsWithinUnits (pos (2 ^ 42)) sum.upper }
    requires times { times ≤ 2 }
    requires best { AreSmallWorths best }
    ensures lower { result.lower ≡ (sum.lower +ℤ pos times *ℤ best.lower) }
    ensures upper { result.upper ≡ (sum.upper +ℤ pos times *ℤ best.upper) }
{
    Worths {
        lower: add_one(sum.lower, times, best.lower),
        upper: add_one(sum.upper, times, best.upper),
    }
}

/// The best with one die to play, for each die.
fn fill_ones(moves: &Moves, row: &[Bests], ones: &mut [Table; 6])
    requires ready { AreReady moves.now }
    requires row { AreRow row.now }
    ensures { (end : End) (value : Placement → ℤ)
        → IsNeededRow value moves.now.steps moves.now.layers moves.now.needed.items
        (cells_at end row.now)
        → AreOnes end value moves.now ones.new }
{
    for d in 0..6 {
        let list = &moves.lists[d];
        let table = &mut ones[d];
        table.fill(&list.reaches, row, moves.has_third);
    }
}

/// The best with two and with three dice of one number to play.
fn fill_two_and_three(moves: &Moves, die: u8, one: &[Bests], two: &mut Table, three: &mut Table)
    requires ready { AreReady moves.now }
    requires low { 1 ≤ die }
    requires high { die ≤ 6 }
    requires one { AreTable one.now }
    ensures { (end : End) (value : Placement → ℤ)
        → AreRightEach value moves.now die (cells_at end one.now)
        → AreTwoAndThree value moves.now die (cells_at end two.new) (cells_at end three.new) }
{
    let list = &moves.lists[usize::from(die) - 1];
    let near = moves.listing.cells().len();
    two.fill(&list.reaches[..list.second], one, moves.has_third);
    three.fill(&list.reaches[..near], two.cells(), moves.has_third);
}

/// Adds what the best play of a double is worth to the sum of each mover, once.
fn add_double<const THIRD: bool>(
    moves: &Moves,
    die: u8,
    row: &[Bests],
    one: &[Bests],
    two: &[Bests],
    three: &[Bests],
    sums: &mut [Worths],
)
    requires ready { AreReady moves.now }
    requires third { IsFalse THIRD → IsFalse moves.now.has_third }
    requires low { 1 ≤ die }
    requires high { die ≤ 6 }
    requires row { AreRow row.now }
    requires one { AreTable one.now }
    requires two { AreTable two.now }
    requires three { AreTable three.now }
    requires sums { moves.now.movers ≤ length sums.old }
    requires small { (end : End) → AreSmall (worths_at end sums.old) moves.now.movers }
    ensures { (end : End) → IsRollAdded moves.now 1
        (λ value. DoubleTables value moves.now die (cells_at end row.now) (cells_at end one.now)
        (cells_at end two.now) (cells_at end three.now))
        (λ value. best_double value die) (worths_at end sums.old) (worths_at end sums.new) }
{
    let reaches = moves.lists[usize::from(die) - 1].reaches.as_slice();
    for i in 0..moves.movers {
        let best = best_double::<THIRD>(&reaches[i], row, one, two, three);
        sums[i] = add_times(sums[i], 1, best);
    }
}

/// Adds what the best play of two unequal dice is worth to the sum of each mover, twice.
fn add_pair<const THIRD: bool>(
    moves: &Moves,
    high: u8,
    low: u8,
    row: &[Bests],
    after_high: &[Bests],
    after_low: &[Bests],
    sums: &mut [Worths],
)
    requires ready { AreReady moves.now }
    requires third { IsFalse THIRD → IsFalse moves.now.has_third }
    requires high { (1 ≤ high) × (high ≤ 6) }
    requires low { (1 ≤ low) × (low ≤ 6) }
    requires row { AreRow row.now }
    requires after_high { AreTable after_high.now }
    requires after_low { AreTable after_low.now }
    requires sums { moves.now.movers ≤ length sums.old }
    requires small { (end : End) → AreSmall (worths_at end sums.old) moves.now.movers }
    ensures { (end : End) → IsRollAdded moves.now 2
        (λ value. PairTables value moves.now high low (cells_at end row.now)
        (cells_at end after_high.now) (cells_at end after_low.now))
        (λ value. best_pair value high low) (worths_at end sums.old) (worths_at end sums.new) }
{
    let by_high = moves.lists[usize::from(high) - 1].reaches.as_slice();
    let by_low = moves.lists[usize::from(low) - 1].reaches.as_slice();
    for i in 0..moves.movers {
        let best = best_pair::<THIRD>(&by_high[i], &by_low[i], row, after_high, after_low);
        sums[i] = add_times(sums[i], 2, best);
    }
}

/// Adds what the best play of a roll is worth to the sum of each mover, as often as it comes.
fn add_roll_by<const THIRD: bool>(
    moves: &Moves,
    roll: Roll,
    row: &[Bests],
    ones: &[Table; 6],
    two: &mut Table,
    three: &mut Table,
    sums: &mut [Worths],
)
    requires ready { AreReady moves.now }
    requires third { IsFalse THIRD → IsFalse moves.now.has_third }
    requires row { AreRow row.now }
    requires sums { moves.now.movers ≤ length sums.old }
    requires small { (end : End) → AreSmall (worths_at end sums.old) moves.now.movers }
    ensures { (end : End) → IsRollAdded moves.now (ways roll)
        (λ value. RollTables end value moves.now row.now ones.now)
        (λ value p. best_of_roll value p roll) (worths_at end sums.old) (worths_at end sums.new) }
{
    let high = roll.high();
    let low = roll.low();
    let after_high = ones[usize::from(high) - 1].cells();
    if high == low {
        fill_two_and_three(moves, high, after_high, two, three);
        add_double::<THIRD>(
            moves,
            high,
            row,
            after_high,
            two.cells(),
            three.cells(),
            sums,
        );
    } else {
        let after_low = ones[usize::from(low) - 1].cells();
        add_pair::<THIRD>(moves, high, low, row, after_high, after_low, sums);
    }
}

/// The same, where it isn't known yet whether some cell leads to a third.
fn add_roll(
    moves: &Moves,
    roll: Roll,
    row: &[Bests],
    ones: &[Table; 6],
    two: &mut Table,
    three: &mut Table,
    sums: &mut [Worths],
)
    requires ready { AreReady moves.now }
    requires row { AreRow row.now }
    requires sums { moves.now.movers ≤ length sums.old }
    requires small { (end : End) → AreSmall (worths_at end sums.old) moves.now.movers }
    ensures { (end : End) → IsRollAdded moves.now (ways roll)
        (λ value. RollTables end value moves.now row.now ones.now)
        (λ value p. best_of_roll value p roll) (worths_at end sums.old) (worths_at end sums.new) }
{
    if moves.has_third {
        add_roll_by::<true>(moves, roll, row, ones, two, three, sums);
    } else {
        add_roll_by::<false>(moves, roll, row, ones, two, three, sums);
    }
}

/// For each mover, the sum over the 36 ways of two dice of the best play's value.
pub(crate) fn sum_rolls(
    moves: &Moves,
    row: &[Bests],
    ones: &mut [Table; 6],
    two: &mut Table,
    three: &mut Table,
    sums: &mut [Worths],
)
    requires ready { AreReady moves.now }
    requires row { AreRow row.now }
    requires sums { moves.now.movers ≤ length sums.old }
    ensures small { (end : End) → AreSmall (worths_at end sums.new) moves.now.movers }
    ensures sums { (end : End) (value : Placement → ℤ)
        → IsNeededRow value moves.now.steps moves.now.layers moves.now.needed.items
        (cells_at end row.now)
        → AreSums value moves.now all_rolls (worths_at end sums.new) }
{
    clear(sums, moves.movers);
    fill_ones(moves, row, ones);
    for i in 0..21 {
        add_roll(moves, nth_roll(i), row, ones, two, three, sums);
    }
}

/// One of the 21 rolls.
fn nth_roll(i: usize) -> Roll
    requires { i < 21 }
    ensures { (none : Dice × ℕ) → result ≡ (slice_index_or all_rolls i none).0 }
{
    let all = rolls();
    let weighted = all[i];
    weighted.0
}
