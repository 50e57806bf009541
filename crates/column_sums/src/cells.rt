ghost use Rattle.std.specs.Prelude.{◌≡◌, ◌<◌, ◌≤◌, All, length};
ghost use Rattle.column_sums.specs.Cells.{IsCell, IsReach, IsShort, leap_cell, nth_cell};

use crate::layers::Layers;
use crate::leaps::Leap;
use crate::steps::Steps;

/// How many cells there are: eight layers of 4,096 each.
pub(crate) const CELLS: usize = 1 << 15;

/// Stands for the cell after a move that can't be made.
pub(crate) const NO_CELL: u16 = 4095;

/// A cell, and the cells after a move of one checker by a die.
#[derive(Clone, Copy)]
pub(crate) struct Reach {
    pub(crate) cell: u16,
    pub(crate) first: u16,
    pub(crate) second: u16,
    pub(crate) third: u16,
}

/// The cell after a leap.
#[inline]
fn leap_cell(leap: &Leap, next: &[u8], layers: usize) -> u16
    requires short { IsShort (length next.now) leap.now }
    requires layers { layers ≤ 8 }
    ensures { result ≡ leap_cell layers next.now leap.now }
{
    let layer = next[leap.lands as usize];
    if usize::from(layer) < layers {
        u16::from(layer) * 4096 + leap.to
    } else {
        NO_CELL
    }
}

/// The cell after the leap with this number, if there is one.
#[inline]
fn nth_cell(leaps: &[Leap], i: usize, next: &[u8], layers: usize) -> u16
    requires short { All (IsShort (length next.now)) leaps.now }
    requires layers { layers ≤ 8 }
    ensures { result ≡ nth_cell layers next.now leaps.now i }
{
    if i < leaps.len() {
        leap_cell(&leaps[i], next, layers)
    } else {
        NO_CELL
    }
}

/// A cell with those that a die leads to from it.
#[inline]
pub(crate) fn reach_of(steps: &Steps, layers: &Layers, die: u8, cell: u16) -> Reach
    requires low { 1 ≤ die }
    requires high { die ≤ 6 }
    requires cell { IsCell (length steps.now) (length layers.now) cell }
    ensures cell { result.cell ≡ cell }
    ensures reach { IsReach steps.now layers.now die result }
{
    let next = layers.next(usize::from(cell / 4096));
    let leaps = steps.leaps(usize::from(cell % 4096), die);
    let count = layers.count();
    Reach {
        cell,
        first: nth_cell(leaps, 0, next, count),
        second: nth_cell(leaps, 1, next, count),
        third: nth_cell(leaps, 2, next, count),
    }
}
