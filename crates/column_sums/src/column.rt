ghost use Rattle.std.specs.Prelude.{◌≡◌, ◌<◌, ◌≤◌, ℕ, ℤ, false, All, IfOk, length, slice_index, slice_index_or};
ghost use Rattle.position_rank.specs.Placement.{Placement};
ghost use Rattle.roll_table.specs.Rolls.{all_rolls};
ghost use Rattle.turn_rule.specs.Layouts.{AreLayouts};
ghost use Rattle.column_sums.specs.AfterHits.{AreDistinct, AreClosedByHits};
ghost use Rattle.column_sums.specs.Cells.{cell_of};
ghost use Rattle.column_sums.specs.ColumnOf.{AreColumnSums};
ghost use Rattle.column_sums.specs.Leaps.{layout_at};
ghost use Rattle.column_sums.specs.Listings.{IsListed};
ghost use Rattle.column_sums.specs.Sums.{AreSmall};
ghost use Rattle.column_sums.specs.Tables.{IsNeededRow};
ghost use Rattle.column_sums.specs.Worths.{cells_at, worths_at};
ghost use Rattle.directed_fixed.specs.declared.bounds.End.{End};

use crate::best::Worths;
use crate::moves::Moves;
use crate::sums::sum_rolls;
use crate::tables::{Row, Table};
use hyper_outside::NoMemory;
use position_rank::Layout;
use std::alloc::Global;
use std::marker::Model;

/// The column of a layout of the other side, and one worker's room to take its sums.
#[derive(Drop)]
pub struct Column {
    moves: Moves,
    ones: [Table; 6],
    two: Table,
    three: Table,
}

impl Model for Column {
    ghost use Rattle.std.specs.Prelude.{take};
    ghost use Rattle.column_sums.specs.ColumnOf.{ColumnOf};

    ghost Value = { ColumnOf };

    ghost use Rattle.column_sums.specs.MoveLists.{AreReady};

    ghost view = { λ a. record {
      layouts = a.moves.steps;
      others = a.moves.layers;
      movers = take a.moves.movers a.moves.listing;
      needed = a.moves.needed.items;
    } };

    ghost invariant = { λ a. AreReady a.moves };
}

impl Column {
    /// No column yet, in a game of one to three checkers a side. It asks for all memory that any column needs, and may answer `NoMemory`.
    pub fn new(alloc: Global, checkers: u8) -> Result<Column, NoMemory>
        requires low { 1 ≤ checkers }
        requires high { checkers ≤ 3 }
        ensures { IfOk result (λ column. AreLayouts checkers column.layouts) }
    {
        Ok(Column {
            moves: Moves::new(alloc, checkers)?,
            ones: six_tables(alloc)?,
            two: Table::new(alloc)?,
            three: Table::new(alloc)?,
        })
    }

    /// Goes to the column of a layout of the other side, for turns that begin with the mover's layouts of these ranks, in any order.
    pub fn begin(&mut self, other: &Layout, movers: &[u16])
        requires { All (λ rank. rank < length self.old.layouts) movers.now }
        ensures layouts { self.new.layouts ≡ self.old.layouts }
        ensures some { 0 < length self.new.others }
        ensures first { layout_at self.new.others 0 ≡ other.now }
        ensures movers { (i : ℕ) → i < length movers.now
            → IsListed self.new.movers (slice_index movers.now i) }
        ensures only { (i : ℕ) → i < length self.new.movers
            → IsListed movers.now (slice_index self.new.movers i) }
    {
        self.moves.begin(other, movers);
    }

    /// How many layouts there are of as many checkers.
    #[inline]
    pub fn many(&self) -> usize
        ensures many { result ≡ length self.now.layouts }
        ensures few { result ≤ 3276 }
    {
        self.moves.steps.many()
    }

    /// The layout with this rank.
    #[inline]
    pub fn layout(&self, rank: usize) -> &Layout
        requires { rank < length self.now.layouts }
        ensures { result.now ≡ layout_at self.now.layouts rank }
    {
        self.moves.steps.layout(rank)
    }

    /// How many layouts of the other side, from the column's own on, hits may lead to. A row needs values for these.
    #[inline]
    pub fn layers(&self) -> usize
        ensures count { result ≡ length self.now.others }
        ensures few { result ≤ 8 }
        ensures distinct { AreDistinct self.now.others }
        ensures closed { AreClosedByHits self.now.others }
    {
        self.moves.layers.count()
    }

    /// One of these layouts. The column's own comes first.
    #[inline]
    pub fn layer(&self, layer: usize) -> &Layout
        requires { layer < length self.now.others }
        ensures { result.now ≡ layout_at self.now.others layer }
    {
        self.moves.layers.layout(layer)
    }

    /// The ranks of the mover's layouts with which a turn may begin, each once.
    pub fn movers(&self) -> &[u16]
        ensures movers { result.now ≡ self.now.movers }
        ensures within { All (λ rank. rank < length self.now.layouts) result.now }
        ensures few { length result.now ≤ length self.now.layouts }
    {
        &self.moves.listing.cells()[..self.moves.movers]
    }

    /// Whether the sums may need the value of a cell: of this layer, and of the mover's layout with this rank.
    #[inline]
    pub fn needs(&self, layer: usize, rank: usize) -> bool
        requires layer { layer < 8 }
        requires rank { rank < 4096 }
        ensures { result ≡ slice_index_or self.now.needed (cell_of layer rank) false }
    {
        self.moves.needed[layer * 4096 + rank]
    }

    /// For each mover, by its place among the movers, the sum over the 36 ways of two dice of what the best play is worth, by what the row
    /// has for its end. The row may have any values where none is needed.
    pub fn sum(&mut self, row: &Row, sums: &mut [Worths])
        requires { length self.old.movers ≤ length sums.old }
        ensures column { self.new ≡ self.old }
        ensures many { length sums.new ≡ length sums.old }
        ensures small { (end : End) → AreSmall (worths_at end sums.new) (length self.old.movers) }
        ensures sums { (end : End) (value : Placement → ℤ)
            → IsNeededRow value self.old.layouts self.old.others self.old.needed
            (cells_at end row.now)
            → AreColumnSums value self.old all_rolls (worths_at end sums.new) }
    {
        sum_rolls(
            &self.moves,
            row.cells(),
            &mut self.ones,
            &mut self.two,
            &mut self.three,
            sums,
        );
    }
}

/// A table for each die.
fn six_tables(alloc: Global) -> Result<[Table; 6], NoMemory> {
    let one = Table::new(alloc)?;
    let two = Table::new(alloc)?;
    let three = Table::new(alloc)?;
    let four = Table::new(alloc)?;
    let five = Table::new(alloc)?;
    let six = Table::new(alloc)?;
    Ok([one, two, three, four, five, six])
}
