ghost use Rattle.std.specs.Prelude.{◌≡◌, ℕ, ◌+◌, ◌-◌, ◌*◌, ◌<◌, ◌≤◌, ◌↔◌, IsTrue, IsSome, IsNone, IfSome, List, [], ◌∷◌, length, sum, slice_index};
ghost use Rattle.position_rank.specs.Examples.{placed};
ghost use Rattle.position_rank.specs.Packed.{start_placement};
ghost use Rattle.position_rank.specs.Ranks.{layouts, square_rank_of};
ghost use Rattle.position_rank.specs.Placement.{Placement, IsLayout, IsPosition, IsLive, swap, moved, above, hit};

use crate::layout::Layout;
use crate::rank::layout_count;
use std::marker::Model;

/// Where all the checkers stand, seen by the side that moves.
#[derive(Clone, Copy, PartialEq, Eq)]
pub struct Position {
    mover: Layout,
    other: Layout,
}

impl Model for Position {
    ghost Value = { Placement };

    ghost view = { λ a. record { mover = a.mover; other = a.other } };

    ghost invariant = { λ a. IsPosition (record { mover = a.mover; other = a.other }) };

    ghost inverse = { λ p. record { mover = p.mover; other = p.other } };
}

impl Position {
    /// `None` exactly where the sides have different numbers of checkers.
    pub fn new(mover: Layout, other: Layout) -> Option<Position>
        ensures same { IsSome result ↔ (sum mover ≡ sum other) }
        ensures value { IfSome result (λ p.
            (p ≡ record { mover = mover; other = other }) × IsPosition p) }
    {
        if mover.checkers() == other.checkers() {
            Some(Position { mover, other })
        } else {
            None
        }
    }

    /// One to three checkers of each side, one on each of its points from 24 down.
    pub fn start(checkers: u8) -> Position
        requires low { 1 ≤ checkers }
        requires high { checkers ≤ 3 }
        ensures start { result ≡ start_placement checkers }
        ensures valid { IsPosition result }
        ensures live { IsLive result }
        ensures checkers { sum result.mover ≡ checkers }
    {
        let side = Layout::start(checkers);
        Position {
            mover: side,
            other: side,
        }
    }

    /// The position's number among all pairs of layouts of as many checkers, from 0.
    #[inline]
    pub fn square_rank(&self) -> u64
        ensures rank { result ≡ square_rank_of self.now }
        ensures below { result < layouts (sum self.now.mover) * layouts (sum self.now.mover) }
        ensures valid { IsPosition self.now }
    {
        let layouts = u64::from(layout_count(self.checkers()));
        u64::from(self.mover.rank()) * layouts + u64::from(self.other.rank())
    }

    /// The position of one to three checkers a side with this square rank.
    pub fn square_unrank(checkers: u8, square: u64) -> Position
        requires low { 1 ≤ checkers }
        requires high { checkers ≤ 3 }
        requires square { square < layouts checkers * layouts checkers }
        ensures rank { square_rank_of result ≡ square }
        ensures checkers { sum result.mover ≡ checkers }
        ensures valid { IsPosition result }
    {
        let layouts = u64::from(layout_count(checkers));
        Position {
            mover: Layout::unrank(checkers, (square / layouts) as u32),
            other: Layout::unrank(checkers, (square % layouts) as u32),
        }
    }

    /// The checkers of the side that moves.
    pub fn mover(&self) -> Layout
        ensures mover { result ≡ self.now.mover }
        ensures valid { IsPosition self.now }
    {
        self.mover
    }

    /// The checkers of the side that doesn't move, in that side's numbering.
    pub fn other(&self) -> Layout
        ensures other { result ≡ self.now.other }
        ensures valid { IsPosition self.now }
    {
        self.other
    }

    /// The same position, seen by the other side.
    pub fn swap(&self) -> Position
        ensures swap { result ≡ swap self.now }
        ensures valid { IsPosition result }
    {
        Position {
            mover: self.other,
            other: self.mover,
        }
    }

    /// Whether no point is held by both sides, and both have checkers in play.
    pub fn is_live(&self) -> bool
        ensures { IsTrue result ↔ IsLive self.now }
    {
        self.mover.is_in_play() && self.other.is_in_play() && self.mover.is_apart(&self.other)
    }

    /// How many of the mover's checkers stand on a place.
    pub fn mover_at(&self, place: u8) -> u8
        requires { place ≤ 25 }
        ensures { result ≡ slice_index self.now.mover place }
    {
        self.mover.count(place)
    }

    /// How many of the other side's checkers stand on a place of that side.
    pub fn other_at(&self, place: u8) -> u8
        requires { place ≤ 25 }
        ensures { result ≡ slice_index self.now.other place }
    {
        self.other.count(place)
    }

    /// How many of the mover's checkers stand above a place.
    pub fn mover_above(&self, place: u8) -> u8
        requires { place ≤ 25 }
        ensures { result ≡ above self.now.mover place }
    {
        self.mover.above(place)
    }

    /// How many of the other side's checkers stand above a place of that side.
    pub fn other_above(&self, place: u8) -> u8
        requires { place ≤ 25 }
        ensures { result ≡ above self.now.other place }
    {
        self.other.above(place)
    }

    /// The highest place below this one with a checker of the mover, or 0 where there is none.
    pub fn highest_below(&self, place: u8) -> u8
        requires low { 1 ≤ place }
        requires high { place ≤ 26 }
        ensures below { result < place }
        ensures held { 0 < result → 0 < slice_index self.now.mover result }
        ensures empty { (between : ℕ) → result < between → between < place
            → slice_index self.now.mover between ≡ 0 }
    {
        self.mover.highest_below(place)
    }

    /// After a checker of the mover went to another point, where it hits a single checker of the other side.
    pub fn run(&self, from: u8, to: u8) -> Position
        requires from { from ≤ 25 }
        requires point { 1 ≤ to }
        requires to { to ≤ 24 }
        requires checker { 0 < slice_index self.now.mover from }
        ensures { result ≡ record {
          mover = moved self.now.mover from to;
          other = hit self.now.other (25 - to);
        } }
    {
        let mover = self.mover.moved(from, to);
        if self.other.count(25 - to) == 1 {
            let other = self.other.moved(25 - to, 25);
            Position { mover, other }
        } else {
            let other = self.other;
            Position { mover, other }
        }
    }

    /// After a checker of the mover went off.
    pub fn bear_off(&self, from: u8) -> Position
        requires from { from ≤ 25 }
        requires checker { 0 < slice_index self.now.mover from }
        ensures { result ≡ record { mover = moved self.now.mover from 0; other = self.now.other } }
    {
        Position {
            mover: self.mover.moved(from, 0),
            other: self.other,
        }
    }

    /// How many checkers each side has.
    pub fn checkers(&self) -> u8
        ensures checkers { result ≡ sum self.now.mover }
        ensures valid { IsPosition self.now }
    {
        self.mover.checkers()
    }
}

impl Default for Position {
    ghost is_default = { λ position. position ≡ placed (1 ∷ []) (1 ∷ []) };

    /// One checker of each side, on its first point.
    fn default() -> Self {
        Position {
            mover: Layout::on_first(),
            other: Layout::on_first(),
        }
    }
}
