ghost use Rattle.std.specs.Prelude.{◌≡◌, ◌<◌, ◌≤◌, ℕ, ℤ, All, IfOk, IsFalse, List, ◌∷◌, Some, length, replicate, slice_set};
ghost use Rattle.position_rank.specs.Placement.{Placement};
ghost use Rattle.directed_fixed.specs.declared.bounds.End.{End};
ghost use Rattle.column_sums.specs.Cells.{IsReach, cell_of};
ghost use Rattle.column_sums.specs.Tables.{AreRow, AreTable, HasNoThird, IsReachWithin, IsRightAfter, AreRightIn, best_after};
ghost use Rattle.column_sums.specs.Worths.{AreSmallWorths, best_at, cells_at, worth_at};

use crate::best::{Bests, Worths};
use crate::cells::{CELLS, NO_CELL, Reach};
use directed_fixed::Fixed;
use hyper_outside::NoMemory;
use std::alloc::Global;
use std::marker::Model;

/// For each cell of a column, what ending the turn there is worth.
#[derive(Drop)]
pub struct Row {
    cells: Vec<Bests>,
}

impl Model for Row {
    ghost use Rattle.std.specs.Prelude.{List};
    ghost use Rattle.column_sums.specs.Tables.{AreRow};
    ghost use Rattle.column_sums.specs.declared.best.Bests.{Bests};

    ghost Value = { List Bests };

    ghost view = { λ a. a.cells.items };

    ghost invariant = { λ a. AreRow a.cells.items };
}

impl Row {
    /// 0 in each cell. It asks for memory, and may answer `NoMemory`.
    pub fn new(alloc: Global) -> Result<Row, NoMemory>
        ensures { IfOk result AreRow }
    {
        let zero = Worths {
            lower: Fixed::whole(0),
            upper: Fixed::whole(0),
        };
        let mut cells = cells_of(alloc, Bests::of(zero), CELLS)?;
        cells[usize::from(NO_CELL)] = Bests::missing();
        Ok(Row { cells })
    }

    /// Puts what the cell with this layer and this rank of the mover is worth at both ends, at most 2 ^ 36 units on either side of 0.
    #[inline]
    pub fn set(&mut self, layer: usize, rank: usize, worths: Worths)
        requires layer { layer < 8 }
        requires rank { rank < 4095 }
        requires small { AreSmallWorths worths }
        ensures set { (end : End) → cells_at end self.new
            ≡ slice_set (cells_at end self.old) (cell_of layer rank) (Some (worth_at end worths)) }
        ensures row { AreRow self.new }
    {
        self.cells[layer * 4096 + rank] = Bests::of(worths);
    }

    /// The cells.
    #[inline]
    pub(crate) fn cells(&self) -> &[Bests]
        ensures cells { result.now ≡ self.now }
        ensures row { AreRow self.now }
    {
        self.cells.as_slice()
    }
}

/// For each cell of a column that is needed, the best of playing some more dice.
#[derive(Drop)]
pub(crate) struct Table {
    cells: Vec<Bests>,
}

impl Model for Table {
    ghost use Rattle.std.specs.Prelude.{List};
    ghost use Rattle.column_sums.specs.Tables.{AreTable};
    ghost use Rattle.column_sums.specs.declared.best.Bests.{Bests};

    ghost Value = { List Bests };

    ghost view = { λ a. a.cells.items };

    ghost invariant = { λ a. AreTable a.cells.items };
}

impl Table {
    /// No value in any cell.
    pub(crate) fn new(alloc: Global) -> Result<Table, NoMemory>
        ensures { IfOk result AreTable }
    {
        let cells = cells_of(alloc, Bests::missing(), CELLS)?;
        Ok(Table { cells })
    }

    /// The cells.
    #[inline]
    pub(crate) fn cells(&self) -> &[Bests]
        ensures cells { result.now ≡ self.now }
        ensures table { AreTable self.now }
    {
        self.cells.as_slice()
    }

    /// One die more: in each of these cells, the best of the cells that it leads to in a table of the dice after it.
    pub(crate) fn fill(&mut self, reaches: &[Reach], from: &[Bests], third: bool)
        requires from { AreTable from.now }
        requires third { IsFalse third → All HasNoThird reaches.now }
        requires reaches { All IsReachWithin reaches.now }
        ensures filled { (end : End) (value : Placement
            → ℤ) (dice : List ℕ) (layouts others : List (List ℕ)) (die : ℕ)
            → length layouts ≤ 3276 → All (IsReach layouts others die) reaches.now
            → All (IsRightAfter value dice layouts others (cells_at end from.now)) reaches.now
            → AreRightIn value (die ∷ dice) layouts others (cells_at end self.new) reaches.now }
    {
        if third {
            fill_cells::<true>(reaches, from, &mut self.cells);
        } else {
            fill_cells::<false>(reaches, from, &mut self.cells);
        }
    }
}

/// So many cells of one value.
fn cells_of(alloc: Global, value: Bests, count: usize) -> Result<Vec<Bests>, NoMemory>
    ensures { IfOk result (λ cells. cells.items ≡ replicate count value) }
{
    let cells = vec![in alloc; value; count]?;
    Ok(cells)
}

/// The greatest value of the cells that this leads to. `THIRD` may be false where there is no third: that spares a look.
#[inline]
pub(crate) fn best_after<const THIRD: bool>(table: &[Bests], reach: &Reach) -> Bests
    requires table { AreTable table.now }
    requires reach { IsReachWithin reach.now }
    requires third { IsFalse THIRD → HasNoThird reach.now }
    ensures { (end : End) → best_at end result ≡ best_after (cells_at end table.now) reach.now }
{
    let first = table[usize::from(reach.first)];
    let second = table[usize::from(reach.second)];
    let both = first.max(second);
    if THIRD {
        both.max(table[usize::from(reach.third)])
    } else {
        both
    }
}

/// One die more in each of these cells.
fn fill_cells<const THIRD: bool>(reaches: &[Reach], from: &[Bests], to: &mut [Bests])
    requires from { AreTable from.now }
    requires third { IsFalse THIRD → All HasNoThird reaches.now }
    requires to { AreTable to.old }
    requires reaches { All IsReachWithin reaches.now }
    ensures table { AreTable to.new }
    ensures filled { (end : End) (value : Placement
        → ℤ) (dice : List ℕ) (layouts others : List (List ℕ)) (die : ℕ)
        → length layouts ≤ 3276 → All (IsReach layouts others die) reaches.now
        → All (IsRightAfter value dice layouts others (cells_at end from.now)) reaches.now
        → AreRightIn value (die ∷ dice) layouts others (cells_at end to.new) reaches.now }
{
    for reach in reaches {
        to[usize::from(reach.cell)] = best_after::<THIRD>(from, reach);
    }
}
