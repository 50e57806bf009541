ghost use Rattle.std.specs.Prelude.{◌≡◌, ◌≤◌, IfOk, length, vec_capacity};
ghost use Rattle.column_turns.specs.Turns.{AreLiveMovers, ArePointsOf};

use column_sums::Column;
use hyper_outside::NoMemory;
use position_rank::{Layout, MoverPoints, OtherPoints};
use std::alloc::Global;

/// The points of all layouts of a column, where the side that doesn't move has them.
pub(crate) fn points_of(alloc: Global, column: &Column) -> Result<Vec<OtherPoints>, NoMemory>
    ensures { IfOk result (λ points. ArePointsOf column.now.layouts points.items) }
{
    let mut points = Vec::with_capacity(alloc, column.many())?;
    for rank in 0..column.many() {
        points.push(OtherPoints::of(column.layout(rank)))?;
    }
    Ok(points)
}

/// Puts the ranks of the layouts whose positions are live in the column of a layout in place of those that stand there. A position is live as
/// either side sees it.
pub(crate) fn list_movers(
    column: &Column,
    points: &[OtherPoints],
    other: &Layout,
    movers: &mut Vec<u16>,
)
    requires points { ArePointsOf column.now.layouts points.now }
    requires room { length column.now.layouts ≤ vec_capacity movers.old }
    ensures movers { AreLiveMovers column.now.layouts other.now movers.new.items }
    ensures few { length movers.new.items ≤ length column.now.layouts }
    ensures room { vec_capacity movers.new ≡ vec_capacity movers.old }
{
    movers.clear();
    let theirs = MoverPoints::of(other);
    for rank in 0..column.many() {
        if theirs.are_live(points[rank]) {
            movers.push_reserved(rank as u16);
        }
    }
}
