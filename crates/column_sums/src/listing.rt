ghost use Rattle.std.specs.Prelude.{◌≡◌, ◌≢◌, ◌⊎◌, ◌<◌, ◌≤◌, ℕ, All, [], IfOk, length, replicate, take, slice_index, false};
ghost use Rattle.column_sums.specs.Cells.{IsCellOrNone};
ghost use Rattle.column_sums.specs.Listings.{AreListedStill, AreCells, AreUnmarked, IsListed, IsListedOrNone, LeadsInto, LeadsToCells};

use crate::cells::{CELLS, NO_CELL, Reach};
use hyper_outside::NoMemory;
use std::alloc::Global;
use std::marker::Model;

/// Cells in the order in which they were listed, each once.
#[derive(Drop)]
pub(crate) struct Listing {
    cells: Vec<u16>,
    marks: Vec<bool>,
}

impl Model for Listing {
    ghost use Rattle.std.specs.Prelude.{ℕ, List, vec_capacity};
    ghost use Rattle.column_sums.specs.Listings.{IsListing};

    ghost Value = { List ℕ };

    ghost view = { λ a. a.cells.items };

    ghost invariant = { λ a. IsListing a.cells.items (vec_capacity a.cells) a.marks.items };
}

impl Listing {
    /// No cell, with room for all.
    pub(crate) fn new(alloc: Global) -> Result<Listing, NoMemory>
        ensures { IfOk result (λ listing. listing ≡ []) }
    {
        Ok(Listing {
            cells: Vec::with_capacity(alloc, CELLS)?,
            marks: no_marks(alloc, CELLS)?,
        })
    }

    /// The cells.
    #[inline]
    pub(crate) fn cells(&self) -> &[u16]
        ensures cells { result.now ≡ self.now }
        ensures few { length self.now ≤ 32768 }
        ensures apart { (i j : ℕ) → i < j → j < length self.now
            → slice_index self.now i ≢ slice_index self.now j }
    {
        self.cells.as_slice()
    }

    /// Only the first few cells stay.
    pub(crate) fn rewind(&mut self, count: usize)
        requires { count ≤ length self.old }
        ensures { self.new ≡ take count self.old }
    {
        unmark(&self.cells, count, &mut self.marks);
        self.cells.truncate(count);
    }

    /// Lists a cell, unless it is listed or none.
    #[inline]
    pub(crate) fn add(&mut self, cell: u16)
        requires { cell < 32768 }
        ensures kept { AreListedStill self.old self.new }
        ensures listed { IsListedOrNone self.new cell }
        ensures only { (i : ℕ) → i < length self.new
            → IsListed self.old (slice_index self.new i) ⊎ (slice_index self.new i ≡ cell) }
        ensures cells { (many layers : ℕ) → AreCells many layers self.old
            → IsCellOrNone many layers cell → AreCells many layers self.new }
    {
        if cell == NO_CELL || self.marks[usize::from(cell)] {
            return;
        }
        self.cells.push_reserved(cell);
        self.marks[usize::from(cell)] = true;
    }

    /// Lists the cells that these lead to, unless they are listed.
    pub(crate) fn add_after(&mut self, reaches: &[Reach])
        requires { All (LeadsToCells 4095 8) reaches.now }
        ensures kept { AreListedStill self.old self.new }
        ensures listed { All (LeadsInto self.new) reaches.now }
        ensures cells { (many layers : ℕ) → AreCells many layers self.old
            → All (LeadsToCells many layers) reaches.now → AreCells many layers self.new }
    {
        for reach in reaches {
            self.add(reach.first);
            self.add(reach.second);
            self.add(reach.third);
        }
    }
}

/// So many marks, none of them set.
pub(crate) fn no_marks(alloc: Global, count: usize) -> Result<Vec<bool>, NoMemory>
    ensures { IfOk result (λ marks. marks.items ≡ replicate count false) }
{
    let marks = vec![in alloc; false; count]?;
    Ok(marks)
}

/// Takes the marks off all cells but the first few.
fn unmark(cells: &[u16], count: usize, marks: &mut [bool])
    requires count { count ≤ length cells.now }
    requires within { (i : ℕ) → i < length cells.now → slice_index cells.now i < length marks.old }
    ensures unmarked { AreUnmarked cells.now count (length cells.now) marks.old marks.new }
{
    for i in count..cells.len() {
        marks[usize::from(cells[i])] = false;
    }
}
