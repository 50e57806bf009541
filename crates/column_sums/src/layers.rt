ghost use Rattle.std.specs.Prelude.{◌≡◌, ◌≢◌, ◌<◌, ◌≤◌, ◌↔◌, ◌+◌, ℕ, IsTrue, IfOk, [], length, slice_index, vec_capacity};
ghost use Rattle.position_rank.specs.Placement.{IsLayout, moved};
ghost use Rattle.column_sums.specs.Leaps.{layout_at, IsNext, AreNext, AreNextTo};
ghost use Rattle.column_sums.specs.AfterHits.{AreLayers, AreDistinct, AreClosedByHits, AreHits, AreHitOn, AreHitBelow, AreMore, IsLayer};

use hyper_outside::NoMemory;
use position_rank::Layout;
use std::alloc::Global;
use std::marker::Model;

/// How many layers there are at most: each of three single checkers on the bar or not.
const MOST: usize = 8;

/// Stands for the layer after a move to a closed point.
const CLOSED: u8 = 255;

/// The layouts that the other side may be left with, and which of them is left where a checker comes to a point.
#[derive(Drop)]
pub(crate) struct Layers {
    others: Vec<Layout>,
    next: [[u8; 25]; 8],
}

impl Model for Layers {
    ghost use Rattle.std.specs.Prelude.{ℕ, List, vec_capacity};
    ghost use Rattle.column_sums.specs.AfterHits.{AreFewLayers};

    ghost Value = { List (List ℕ) };

    ghost view = { λ a. a.others.items };

    ghost invariant = { λ a. AreFewLayers a.others.items (vec_capacity a.others) a.next };
}

impl Layers {
    /// No layer, with room for all.
    pub(crate) fn new(alloc: Global) -> Result<Layers, NoMemory>
        ensures { IfOk result (λ layers. layers ≡ []) }
    {
        Ok(Layers {
            others: Vec::with_capacity(alloc, MOST)?,
            next: [[0; 25]; 8],
        })
    }

    /// The layouts that hits may leave the other side with, from this one on.
    pub(crate) fn set(&mut self, other: &Layout)
        ensures some { 0 < length self.new }
        ensures first { layout_at self.new 0 ≡ other.now }
        ensures few { length self.new ≤ 8 }
    {
        // A layout has 26 places.
        let _checkers = other.checkers();
        self.others.clear();
        self.others.push_reserved(*other);
        add_hits(&mut self.others, other);
        fill_next(&self.others, &mut self.next);
    }

    /// How many layouts there are.
    #[inline]
    pub(crate) fn count(&self) -> usize
        ensures count { result ≡ length self.now }
        ensures few { result ≤ 8 }
        ensures distinct { AreDistinct self.now }
        ensures closed { AreClosedByHits self.now }
    {
        self.others.len()
    }

    /// One of the layouts.
    #[inline]
    pub(crate) fn layout(&self, layer: usize) -> &Layout
        requires { layer < length self.now }
        ensures { result.now ≡ layout_at self.now layer }
    {
        &self.others[layer]
    }

    /// What is left where a checker of the mover comes to a point.
    #[inline]
    pub(crate) fn next(&self, layer: usize) -> &[u8]
        requires { layer < length self.now }
        ensures next { AreNext self.now layer result.now }
        ensures points { length result.now ≡ 25 }
    {
        // The invariant has the number of layers.
        let _few = self.others.len();
        let next = &self.next[layer];
        next
    }
}

/// Whether two layouts are the same.
fn same(one: &Layout, another: &Layout) -> bool
    ensures { IsTrue result ↔ (one.now ≡ another.now) }
{
    *one == *another
}

/// The number of a layout among some, or how many there are where it isn't among them.
fn find(others: &[Layout], wanted: &Layout) -> usize
    ensures within { result ≤ length others.now }
    ensures found { result < length others.now → layout_at others.now result ≡ wanted.now }
    ensures none { result ≡ length others.now → (i : ℕ) → i < length others.now
        → layout_at others.now i ≢ wanted.now }
{
    for i in 0..others.len() {
        let other = &others[i];
        if same(other, wanted) {
            return i;
        }
    }
    others.len()
}

/// Adds a layout, unless it is there.
fn push_new(others: &mut Vec<Layout>, layout: Layout)
    requires room { length others.old.items < vec_capacity others.old }
    requires distinct { AreDistinct others.old.items }
    ensures more { AreMore others.old.items others.new.items }
    ensures few { length others.new.items ≤ length others.old.items + 1 }
    ensures distinct { AreDistinct others.new.items }
    ensures there { IsLayer others.new.items layout }
    ensures only { (layer : ℕ) → length others.old.items ≤ layer → layer < length others.new.items
        → layout_at others.new.items layer ≡ layout }
    ensures capacity { vec_capacity others.new ≡ vec_capacity others.old }
{
    if find(others.as_slice(), &layout) == others.len() {
        others.push_reserved(layout);
    }
}

/// Adds the layouts in which a single checker on this point is on the bar as well.
fn add_hit(others: &mut Vec<Layout>, point: u8)
    requires low { 1 ≤ point }
    requires high { point ≤ 24 }
    requires room { length others.old.items + length others.old.items ≤ vec_capacity others.old }
    requires single { (layer : ℕ) → layer < length others.old.items
        → slice_index (layout_at others.old.items layer) point ≡ 1 }
    requires distinct { AreDistinct others.old.items }
    ensures hit { AreHitOn point (length others.old.items) others.old.items others.new.items }
    ensures capacity { vec_capacity others.new ≡ vec_capacity others.old }
{
    for layer in 0..others.len() {
        let other = others[layer];
        push_new(others, other.moved(point, 25));
    }
}

/// Adds the layouts in which any single checkers are on the bar as well.
fn add_hits(others: &mut Vec<Layout>, other: &Layout)
    requires room { 8 ≤ vec_capacity others.old }
    requires first { AreHits other.now others.old.items 1 }
    ensures hits { AreHits other.now others.new.items 25 }
    ensures few { length others.new.items ≤ 8 }
    ensures capacity { vec_capacity others.new ≡ vec_capacity others.old }
{
    // At most three checkers.
    let _checkers = other.checkers();
    for point in 1..25 {
        if other.count(point) == 1 {
            add_hit(others, point);
        }
    }
}

/// What is left where a checker comes to this point.
fn next_of(others: &[Layout], layer: usize, point: u8) -> u8
    requires layer { layer < length others.now }
    requires few { length others.now ≤ 8 }
    requires point { point ≤ 24 }
    requires hits { AreHitBelow others.now 25 }
    ensures { IsNext others.now layer point result }
{
    let other = &others[layer];
    if point == 0 || other.count(point) == 0 {
        return layer as u8;
    }
    if other.count(point) > 1 {
        return CLOSED;
    }
    find(others, &other.moved(point, 25)) as u8
}

/// What is left where a checker comes to each point.
fn row_of(others: &[Layout], layer: usize) -> [u8; 25]
    requires layer { layer < length others.now }
    requires few { length others.now ≤ 8 }
    requires hits { AreHitBelow others.now 25 }
    ensures { AreNext others.now layer result }
{
    let mut next = [0; 25];
    for point in 0..25 {
        next[point] = next_of(others, layer, point as u8);
    }
    next
}

/// What is left for each layer and each point.
fn fill_next(others: &[Layout], next: &mut [[u8; 25]; 8])
    requires few { length others.now ≤ 8 }
    requires hits { AreHitBelow others.now 25 }
    ensures { AreLayers others.now next.new }
{
    for layer in 0..others.len() {
        next[layer] = row_of(others, layer);
    }
}
