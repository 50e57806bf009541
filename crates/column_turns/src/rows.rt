ghost use Rattle.std.specs.Prelude.{◌≡◌, ◌<◌, ◌≤◌, ◌↔◌, ℕ, IfSome, IsTrue, None, length, sum};
ghost use Rattle.directed_fixed.specs.declared.bounds.End.{End as EndData};
ghost use Rattle.position_rank.specs.Placement.{IsLive, IsPosition, swap};
ghost use Rattle.position_rank.specs.Ranks.{square_rank_of};
ghost use Rattle.turn_rule.specs.Looks.{AreStakesOf};
ghost use Rattle.turn_rule.specs.Layouts.{AreLayouts};
ghost use Rattle.column_sums.specs.Cells.{cell_of};
ghost use Rattle.column_sums.specs.Leaps.{layout_at};
ghost use Rattle.column_sums.specs.Needed.{IsNeeded};
ghost use Rattle.column_turns.specs.Moments.{IsLater};
ghost use Rattle.move_rules.specs.Payoff.{points as points_won};
ghost use Rattle.column_turns.specs.Rows.{AreFoundRows, AreFoundRowsTo, ArePut, AreRows, AreWorthsPut};
ghost use Rattle.column_sums.specs.Worths.{AreSmallWorths};
ghost use Rattle.column_turns.specs.Turns.{ArePointsOf, at_rank};

use crate::play_worth::play_worth;
use column_sums::{Column, Row, Worths};
use cube_actions::Stakes;
use directed_fixed::End;
use move_rules::{Won, points as points_won};
use position_rank::{MoverPoints, OtherPoints, Position};
use turn_rule::Pairs;

/// Puts what a cell is worth in the row of one kind.
#[inline]
fn put_worth(rows: &mut [Row], number: usize, layer: usize, rank: usize, worths: Worths)
    requires number { number < length rows.old }
    requires layer { layer < 8 }
    requires rank { rank < 4095 }
    requires small { AreSmallWorths worths }
    ensures put { AreWorthsPut number layer rank worths rows.old rows.new }
    ensures rows { (kinds : ℕ) → AreRows kinds rows.old → AreRows kinds rows.new }
{
    let row = &mut rows[number];
    row.set(layer, rank, worths);
}

/// How the mover has won, where it is at hand whether the other side's position is live.
#[inline]
fn won_after(left: &Position, live: bool) -> Option<Won>
    requires { IsTrue live → IsLive (swap left.now) }
    ensures { result ≡ points_won left.now }
{
    // A position has as many checkers on either side.
    let _checkers = left.checkers();
    if live { None } else { points_won(left) }
}

/// Finds what the mover has after a play that leaves these checkers, in each kind and at both ends. Where no play leaves them the rows stay.
/// Whether the other side's position is live is at hand.
#[inline]
fn fill_cell<P: Pairs>(
    stakes: &Stakes,
    left: &Position,
    live: bool,
    square: u64,
    layer: usize,
    rank: usize,
    rows: &mut [Row],
    pairs: &mut P,
)
    requires sure { IsTrue (P.seen pairs.old).source.sure }
    requires stakes { AreStakesOf (P.seen pairs.old).source stakes.now }
    requires many { sum left.now.mover ≡ (P.seen pairs.old).source.checkers }
    requires live { IsTrue live ↔ IsLive (swap left.now) }
    requires square { square ≡ square_rank_of (swap left.now) }
    requires layer { layer < 8 }
    requires rank { rank < 4095 }
    requires rows { AreRows (length stakes.now.kinds) rows.old }
    ensures rows { AreRows (length stakes.now.kinds) rows.new }
    ensures put { (end : EndData) → ArePut end (P.seen pairs.old).source (P.seen pairs.new).notes
        stakes.now left.now layer rank rows.old rows.new (length stakes.now.kinds) }
    ensures later { IsLater (P.seen pairs.old) (P.seen pairs.new) }
    ensures stays { P.stays pairs.new ≡ P.stays pairs.old }
{
    // What `bound` ensures says that the stakes are valid.
    let _bound = stakes.bound();
    let won = won_after(left, live);
    if !live && won.is_none() {
        return;
    }
    for number in 0..stakes.kinds() {
        let kind = stakes.kind(number);
        let lower = play_worth(End::Lower, left, won, live, square, kind, pairs);
        let upper = play_worth(End::Upper, left, won, live, square, kind, pairs);
        put_worth(rows, number, layer, rank, Worths { lower, upper });
    }
}

/// The position of a cell, unless there is none or its value isn't needed.
#[inline]
fn needed_position(column: &Column, layer: usize, rank: usize) -> Option<Position>
    requires layer { layer < length column.now.others }
    requires eight { layer < 8 }
    requires rank { rank < length column.now.layouts }
    requires few { rank < 4096 }
    ensures position { IfSome result (λ left.
        left ≡ at_rank column.now.layouts (layout_at column.now.others layer) rank) }
    ensures none { result ≡ None → IsNeeded column.now.needed (cell_of layer rank)
        → ¬ IsPosition (at_rank column.now.layouts (layout_at column.now.others layer) rank) }
{
    if !column.needs(layer, rank) {
        return None;
    }
    Position::new(*column.layout(rank), *column.layer(layer))
}

/// Finds what the mover has after each play that leaves the other side with the layout of one layer, in each kind and at both ends.
fn fill_layer<P: Pairs>(
    stakes: &Stakes,
    column: &Column,
    points: &[OtherPoints],
    layer: usize,
    rows: &mut [Row],
    pairs: &mut P,
)
    requires sure { IsTrue (P.seen pairs.old).source.sure }
    requires stakes { AreStakesOf (P.seen pairs.old).source stakes.now }
    requires layouts { AreLayouts (P.seen pairs.old).source.checkers column.now.layouts }
    requires points { ArePointsOf column.now.layouts points.now }
    requires layer { layer < length column.now.others }
    requires eight { layer < 8 }
    requires rows { AreRows (length stakes.now.kinds) rows.old }
    ensures rows { AreRows (length stakes.now.kinds) rows.new }
    ensures found { (end : EndData) → AreFoundRowsTo end (P.seen pairs.old).source
        (P.seen pairs.new).notes stakes.now column.now.layouts
        (layout_at column.now.others layer) column.now.needed rows.old rows.new layer
        (length column.now.layouts) }
    ensures few { length column.now.layouts ≤ 3276 }
    ensures later { IsLater (P.seen pairs.old) (P.seen pairs.new) }
    ensures stays { P.stays pairs.new ≡ P.stays pairs.old }
{
    let other = *column.layer(layer);
    let theirs = MoverPoints::of(&other);
    let first = u64::from(other.rank()) * column.many() as u64;
    for rank in 0..column.many() {
        match needed_position(column, layer, rank) {
            None => {}
            Some(left) => {
                let live = theirs.are_live(points[rank]);
                let square = first + rank as u64;
                fill_cell(stakes, &left, live, square, layer, rank, rows, pairs);
            }
        }
    }
}

/// Finds what the mover has after each play that may be made in a column: a row for each kind, with both ends
/// of a pair. What is asked of a play's end is the same for all of them.
pub(crate) fn fill_rows<P: Pairs>(
    stakes: &Stakes,
    column: &Column,
    points: &[OtherPoints],
    rows: &mut [Row],
    pairs: &mut P,
)
    requires sure { IsTrue (P.seen pairs.old).source.sure }
    requires stakes { AreStakesOf (P.seen pairs.old).source stakes.now }
    requires layouts { AreLayouts (P.seen pairs.old).source.checkers column.now.layouts }
    requires points { ArePointsOf column.now.layouts points.now }
    requires rows { AreRows (length stakes.now.kinds) rows.old }
    ensures rows { AreRows (length stakes.now.kinds) rows.new }
    ensures found { (end : EndData) → AreFoundRows end (P.seen pairs.old).source
        (P.seen pairs.new).notes stakes.now column.now.layouts column.now.others
        column.now.needed rows.new (length column.now.others) }
    ensures later { IsLater (P.seen pairs.old) (P.seen pairs.new) }
    ensures stays { P.stays pairs.new ≡ P.stays pairs.old }
{
    for layer in 0..column.layers() {
        fill_layer(stakes, column, points, layer, rows, pairs);
    }
}
