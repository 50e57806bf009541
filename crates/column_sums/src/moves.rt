ghost use Rattle.std.specs.Prelude.{◌≡◌, ◌+◌, ◌-◌, ◌<◌, ◌≤◌, ℕ, All, IfOk, IsFalse, [], length, slice_index, slice_index_or, vec_capacity};
ghost use Rattle.turn_rule.specs.Layouts.{AreLayouts};
ghost use Rattle.column_sums.specs.Leaps.{layout_at};
ghost use Rattle.column_sums.specs.Listings.{IsListed, AreListedStill, AreCells, LeadsInto, LeadsToCells};
ghost use Rattle.column_sums.specs.MoveLists.{AreReaches, AreReady, AreRooms, AreBegun, AreDieLists, IsEmpty, IsMover, HasListRoom, IsDieList, LeadToTwo};
ghost use Rattle.column_sums.specs.Tables.{HasNoThird};
ghost use Rattle.column_sums.specs.declared.cells.Reach.{Reach as ReachData};
ghost use Rattle.column_sums.specs.declared.moves.DieList.{DieList as DieListData};

use crate::cells::{CELLS, NO_CELL, Reach, reach_of};
use crate::layers::Layers;
use crate::listing::{Listing, no_marks};
use crate::needed::mark_needed;
use crate::steps::Steps;
use hyper_outside::NoMemory;
use position_rank::Layout;
use std::alloc::Global;

/// What a die leads to from the cells of a column that are needed.
#[derive(Drop)]
pub(crate) struct DieList {
    pub(crate) reaches: Vec<Reach>,
    /// How many there are without those that take two dice more to come to.
    pub(crate) second: usize,
}

/// What the dice lead to from the cells of a column that are needed.
#[derive(Drop)]
pub(crate) struct Moves {
    pub(crate) steps: Steps,
    pub(crate) layers: Layers,
    /// The cells where a turn begins, and those that one die may lead to.
    pub(crate) listing: Listing,
    /// In how many cells a turn begins.
    pub(crate) movers: usize,
    /// For each die.
    pub(crate) lists: [DieList; 6],
    /// The cells where a turn begins, and those that some die leads to, are marked.
    pub(crate) needed: Vec<bool>,
    /// Where this is false no die leads from a cell to a third, as with one or two checkers.
    pub(crate) has_third: bool,
}

/// Adds what a die leads to from the cells past those that are done.
fn add_reaches(steps: &Steps, layers: &Layers, die: u8, cells: &[u16], reaches: &mut Vec<Reach>)
    requires low { 1 ≤ die }
    requires high { die ≤ 6 }
    requires cells { AreCells (length steps.now) (length layers.now) cells.now }
    requires few { length cells.now ≤ vec_capacity reaches.old }
    requires done { AreReaches steps.now layers.now die cells.now reaches.old.items }
    ensures done { AreReaches steps.now layers.now die cells.now reaches.new.items }
    ensures all { length reaches.new.items ≡ length cells.now }
    ensures kept { (i : ℕ) (none : ReachData) → i < length reaches.old.items
        → slice_index_or reaches.new.items i none ≡ slice_index_or reaches.old.items i none }
    ensures capacity { vec_capacity reaches.new ≡ vec_capacity reaches.old }
{
    for i in reaches.len()..cells.len() {
        reaches.push_reserved(reach_of(steps, layers, die, cells[i]));
    }
}

/// Lists the cells where a turn begins.
fn list_movers(listing: &mut Listing, movers: &[u16])
    requires { All (λ rank. rank < 4095) movers.now }
    ensures listed { (i : ℕ) → i < length movers.now
        → IsListed listing.new (slice_index movers.now i) }
    ensures only { (i : ℕ) → i < length listing.new
        → IsListed movers.now (slice_index listing.new i) }
    ensures cells { (many : ℕ) → many ≤ 4095 → All (λ rank. rank < many) movers.now
        → AreCells many 1 listing.new }
{
    listing.rewind(0);
    for mover in movers {
        listing.add(*mover);
    }
}

/// For each die, what it leads to from the cells that are listed.
fn begin_lists(steps: &Steps, layers: &Layers, listing: &Listing, lists: &mut [DieList; 6])
    requires cells { AreCells (length steps.now) (length layers.now) listing.now }
    requires rooms { AreRooms lists.old }
    ensures rooms { AreRooms lists.new }
    ensures begun { AreBegun steps.now layers.now listing.now (length listing.now) lists.new }
{
    for d in 0..6 {
        let list = &mut lists[d];
        list.reaches.clear();
        add_reaches(
            steps,
            layers,
            d as u8 + 1,
            listing.cells(),
            &mut list.reaches,
        );
    }
}

/// Lists the cells that any one die leads to.
fn list_one_die(listing: &mut Listing, lists: &[DieList; 6])
    requires six { length lists.now ≡ 6 }
    requires cells { (i : ℕ) (none : DieListData) → i < 6
        → All (LeadsToCells 4095 8) (slice_index_or lists.now i none).reaches.items }
    ensures kept { AreListedStill listing.old listing.new }
    ensures listed { (i : ℕ) (none : DieListData) → i < 6
        → All (LeadsInto listing.new) (slice_index_or lists.now i none).reaches.items }
    ensures cells { (many layers : ℕ) → AreCells many layers listing.old
        → ((i : ℕ) (none : DieListData) → i < 6
        → All (LeadsToCells many layers) (slice_index_or lists.now i none).reaches.items)
        → AreCells many layers listing.new }
{
    for list in lists {
        listing.add_after(&list.reaches);
    }
}

/// Where this is false none of these leads to a third cell.
fn has_third(reaches: &[Reach]) -> bool
    ensures { IsFalse result → All HasNoThird reaches.now }
{
    for reach in reaches {
        if reach.third != NO_CELL {
            return true;
        }
    }
    false
}

/// Where this is false no cell of these lists leads to a third.
fn have_third(lists: &[DieList; 6]) -> bool
    requires { length lists.now ≡ 6 }
    ensures { IsFalse result → LeadToTwo lists.now }
{
    for list in lists {
        if has_third(&list.reaches) {
            return true;
        }
    }
    false
}

/// The whole list of a die. The listing stays as it is.
fn finish(steps: &Steps, layers: &Layers, die: u8, listing: &mut Listing, list: &mut DieList)
    requires low { 1 ≤ die }
    requires high { die ≤ 6 }
    requires few { length steps.now ≤ 3276 }
    requires layers { length layers.now ≤ 8 }
    requires cells { AreCells (length steps.now) (length layers.now) listing.old }
    requires room { HasListRoom list.old }
    requires begun { AreReaches steps.now layers.now die listing.old list.old.reaches.items }
    requires listed { All (LeadsInto listing.old) list.old.reaches.items }
    ensures same { listing.new ≡ listing.old }
    ensures room { HasListRoom list.new }
    ensures list { IsDieList steps.now layers.now listing.old
        (length list.old.reaches.items) die list.new }
{
    let begun = list.reaches.len();
    let near = listing.cells().len();
    add_reaches(steps, layers, die, listing.cells(), &mut list.reaches);
    listing.add_after(&list.reaches[begun..]);
    let second = listing.cells().len();
    add_reaches(steps, layers, die, listing.cells(), &mut list.reaches);
    listing.add_after(&list.reaches[near..]);
    add_reaches(steps, layers, die, listing.cells(), &mut list.reaches);
    list.second = second;
    listing.rewind(near);
}

/// The whole list of each die.
fn finish_lists(
    steps: &Steps,
    layers: &Layers,
    listing: &mut Listing,
    movers: usize,
    lists: &mut [DieList; 6],
)
    requires few { length steps.now ≤ 3276 }
    requires layers { length layers.now ≤ 8 }
    requires cells { AreCells (length steps.now) (length layers.now) listing.old }
    requires rooms { AreRooms lists.old }
    requires begun { AreBegun steps.now layers.now listing.old movers lists.old }
    requires listed { (i : ℕ) (none : DieListData) → i < 6
        → All (LeadsInto listing.old) (slice_index_or lists.old i none).reaches.items }
    ensures same { listing.new ≡ listing.old }
    ensures rooms { AreRooms lists.new }
    ensures lists { AreDieLists steps.now layers.now listing.old movers lists.new }
{
    for d in 0..6 {
        finish(steps, layers, d as u8 + 1, listing, &mut lists[d]);
    }
}

impl Moves {
    /// No moves yet, with room for those of any column.
    pub(crate) fn new(alloc: Global, checkers: u8) -> Result<Moves, NoMemory>
        requires low { 1 ≤ checkers }
        requires high { checkers ≤ 3 }
        ensures layouts { IfOk result (λ moves. AreLayouts checkers moves.steps) }
        ensures ready { IfOk result AreReady }
    {
        Ok(Moves {
            steps: Steps::new(alloc, checkers)?,
            layers: Layers::new(alloc)?,
            listing: Listing::new(alloc)?,
            movers: 0,
            lists: six_lists(alloc)?,
            needed: no_marks(alloc, CELLS)?,
            has_third: false,
        })
    }

    /// The moves of the column of a layout of the other side, for turns that begin with these layouts of the mover.
    pub(crate) fn begin(&mut self, other: &Layout, movers: &[u16])
        requires ready { AreReady self.old }
        requires movers { All (λ rank. rank < length self.old.steps) movers.now }
        ensures ready { AreReady self.new }
        ensures steps { self.new.steps ≡ self.old.steps }
        ensures some { 0 < length self.new.layers }
        ensures first { layout_at self.new.layers 0 ≡ other.now }
        ensures movers { (i : ℕ) → i < length movers.now
            → IsMover self.new.listing self.new.movers (slice_index movers.now i) }
        ensures only { (i : ℕ) → i < self.new.movers
            → IsListed movers.now (slice_index self.new.listing i) }
    {
        self.layers.set(other);
        list_movers(&mut self.listing, movers);
        self.movers = self.listing.cells().len();
        begin_lists(&self.steps, &self.layers, &self.listing, &mut self.lists);
        list_one_die(&mut self.listing, &self.lists);
        finish_lists(
            &self.steps,
            &self.layers,
            &mut self.listing,
            self.movers,
            &mut self.lists,
        );
        mark_needed(self.listing.cells(), &self.lists, &mut self.needed);
        self.has_third = have_third(&self.lists);
    }
}

/// A list with nothing in it, and room for all cells.
fn empty_list(alloc: Global) -> Result<DieList, NoMemory>
    ensures room { IfOk result HasListRoom }
    ensures empty { IfOk result IsEmpty }
{
    let reaches = Vec::with_capacity(alloc, CELLS)?;
    Ok(DieList { reaches, second: 0 })
}

/// An empty list for each die.
fn six_lists(alloc: Global) -> Result<[DieList; 6], NoMemory>
    ensures rooms { IfOk result AreRooms }
    ensures empty { IfOk result (All IsEmpty) }
{
    let one = empty_list(alloc)?;
    let two = empty_list(alloc)?;
    let three = empty_list(alloc)?;
    let four = empty_list(alloc)?;
    let five = empty_list(alloc)?;
    let six = empty_list(alloc)?;
    Ok([one, two, three, four, five, six])
}
