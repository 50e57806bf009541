ghost use Rattle.std.specs.Prelude.{◌≡◌, ◌≢◌, ◌<◌, ◌≤◌, ◌+◌, ◌*◌, ◌^◌, ℕ, pos, All, IsTrue, length, slice_index_or};
ghost use Rattle.position_rank.specs.Placement.{Placement};
ghost use Rattle.directed_fixed.specs.Bounds.{IsWithinUnits};
ghost use Rattle.cube_actions.specs.Stakes.{nothing};
ghost use Rattle.turn_rule.specs.Looks.{Source, Notes, AreStakesOf, IsTurnPair};
ghost use Rattle.column_sums.specs.Leaps.{layout_at};
ghost use Rattle.column_turns.specs.Moments.{IsLater};
ghost use Rattle.column_turns.specs.Rows.{AreRows};
ghost use Rattle.column_turns.specs.Turns.{
  place_in,
  mover_at,
  ArePointsOf,
  AreSummed,
  AreTurnsOf,
  IsColumnOf,
};

use crate::rows::fill_rows;
use crate::sums::sum_kinds;
use column_sums::{Column, Row, Worths};
use cube_actions::Stakes;
use directed_fixed::{Fixed, Pair};
use position_rank::OtherPoints;
use turn_rule::{Pairs, pair_from_sums};

/// Works out the pair of the turn in each kind of one position.
fn pair_position(i: usize, stakes: &Stakes, lower: &[Fixed], upper: &[Fixed], pairs: &mut [Pair])
    requires few { i < 3276 }
    requires lower { (i + 1) * length stakes.now.kinds ≤ length lower.now }
    requires upper { (i + 1) * length stakes.now.kinds ≤ length upper.now }
    requires pairs { (i + 1) * length stakes.now.kinds ≤ length pairs.old }
    requires small_lower { All (IsWithinUnits (pos (2 ^ 42))) lower.now }
    requires small_upper { All (IsWithinUnits (pos (2 ^ 42))) upper.now }
    ensures room { length pairs.new ≡ length pairs.old }
    ensures turns { (source : Source) (noted : Notes) (place : ℕ → Placement) (many : ℕ) → i < many
        → AreSummed source noted stakes.now place many lower.now upper.now
        → (k : ℕ) → k < length stakes.now.kinds
        → IsTurnPair stakes.now (place i) k source noted
        (slice_index_or pairs.new (place_in (length stakes.now.kinds) i k) nothing) }
    ensures same { (a k : ℕ) → k < length stakes.now.kinds → a ≢ i
        → slice_index_or pairs.new (place_in (length stakes.now.kinds) a k) nothing
        ≡ slice_index_or pairs.old (place_in (length stakes.now.kinds) a k) nothing }
{
    let kinds = stakes.kinds();
    let first = i * kinds;
    let low = &lower[first..first + kinds];
    let high = &upper[first..first + kinds];
    for kind in 0..kinds {
        pairs[first + kind] = pair_from_sums(low, high, stakes, kind);
    }
}

/// Works out the pair of the turn in each kind of so many positions.
pub(crate) fn pair_positions(
    many: usize,
    stakes: &Stakes,
    lower: &[Fixed],
    upper: &[Fixed],
    pairs: &mut [Pair],
)
    requires few { many ≤ 3276 }
    requires lower { many * length stakes.now.kinds ≤ length lower.now }
    requires upper { many * length stakes.now.kinds ≤ length upper.now }
    requires pairs { many * length stakes.now.kinds ≤ length pairs.old }
    requires small_lower { All (IsWithinUnits (pos (2 ^ 42))) lower.now }
    requires small_upper { All (IsWithinUnits (pos (2 ^ 42))) upper.now }
    ensures room { length pairs.new ≡ length pairs.old }
    ensures turns { (source : Source) (noted : Notes) (place : ℕ → Placement)
        → AreSummed source noted stakes.now place many lower.now upper.now
        → AreTurnsOf source noted stakes.now place many pairs.new }
{
    for i in 0..many {
        pair_position(i, stakes, lower, upper, pairs);
    }
}

/// Works out the pairs of a column's turns.
pub(crate) fn turn_column<P: Pairs>(
    stakes: &Stakes,
    column: &mut Column,
    points: &[OtherPoints],
    rows: &mut [Row],
    one: &mut [Worths],
    lower: &mut [Fixed],
    upper: &mut [Fixed],
    turns: &mut [Pair],
    pairs: &mut P,
)
    requires sure { IsTrue (P.seen pairs.old).source.sure }
    requires stakes { AreStakesOf (P.seen pairs.old).source stakes.now }
    requires column { IsColumnOf (P.seen pairs.old).source column.old.layouts
        column.old.others column.old.movers }
    requires points { ArePointsOf column.old.layouts points.now }
    requires one { length column.old.movers ≤ length one.old }
    requires rows { AreRows (length stakes.now.kinds) rows.old }
    requires lower { length column.old.movers * length stakes.now.kinds ≤ length lower.old }
    requires upper { length column.old.movers * length stakes.now.kinds ≤ length upper.old }
    requires turns { length column.old.movers * length stakes.now.kinds ≤ length turns.old }
    requires small_lower { All (IsWithinUnits (pos (2 ^ 42))) lower.old }
    requires small_upper { All (IsWithinUnits (pos (2 ^ 42))) upper.old }
    ensures column { column.new ≡ column.old }
    ensures rows { AreRows (length stakes.now.kinds) rows.new }
    ensures one { length one.new ≡ length one.old }
    ensures lower { length lower.new ≡ length lower.old }
    ensures upper { length upper.new ≡ length upper.old }
    ensures room { length turns.new ≡ length turns.old }
    ensures small_lower { All (IsWithinUnits (pos (2 ^ 42))) lower.new }
    ensures small_upper { All (IsWithinUnits (pos (2 ^ 42))) upper.new }
    ensures turns { AreTurnsOf (P.seen pairs.old).source (P.seen pairs.new).notes stakes.now
        (mover_at column.old.layouts (layout_at column.old.others 0) column.old.movers)
        (length column.old.movers) turns.new }
    ensures later { IsLater (P.seen pairs.old) (P.seen pairs.new) }
    ensures stays { P.stays pairs.new ≡ P.stays pairs.old }
{
    fill_rows(stakes, column, points, rows, pairs);
    sum_kinds(stakes, column, rows, one, lower, upper);
    pair_positions(column.movers().len(), stakes, lower, upper, turns);
}
