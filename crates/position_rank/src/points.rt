ghost use Rattle.std.specs.Prelude.{◌≡◌, ◌≢◌, ℕ, ◌+◌, ◌*◌, ◌<◌, ◌≤◌, ◌^◌, ◌↔◌, IsTrue, max, length};
ghost use Rattle.std.specs.Int.{bit_at, from_bool};
ghost use Rattle.position_rank.specs.Placement.{Placement, IsLive};
ghost use Rattle.position_rank.specs.Points.{AreMoverPoints, AreOtherPoints, AreFirstPoints};
ghost use Rattle.position_rank.specs.Ranks.{layouts};

use crate::layout::Layout;
use crate::rank::layout_count;
use arrayvec::ArrayVec;
use std::marker::Model;

/// The points where the mover stands, in the numbering of the other side, to be tested against
/// those of many layouts of that side.
#[derive(Clone, Copy)]
pub struct MoverPoints {
    bits: u32,
}

impl Model for MoverPoints {
    ghost use Rattle.std.specs.Prelude.{ℕ};

    ghost Value = { ℕ };

    ghost view = { λ a. a.bits };

    ghost inverse = { λ bits. record { bits = bits } };
}

/// The points where the side that doesn't move stands, in its own numbering.
#[derive(Clone, Copy, Default)]
pub struct OtherPoints {
    bits: u32,
}

impl Model for OtherPoints {
    ghost use Rattle.std.specs.Prelude.{ℕ};

    ghost Value = { ℕ };

    ghost view = { λ a. a.bits };

    ghost inverse = { λ bits. record { bits = bits } };
}

impl MoverPoints {
    /// The points of a layout of the mover.
    pub fn of(layout: &Layout) -> MoverPoints
        ensures { AreMoverPoints result layout.now }
    {
        let mut bits = marked(1, 25, !layout.is_in_play());
        for point in 1..25 {
            bits = marked(bits, point, layout.count(25 - point) > 0);
        }
        MoverPoints { bits }
    }

    /// Whether a position of these points of the mover and those of the other side is live.
    #[inline]
    pub fn are_live(self, other: OtherPoints) -> bool
        ensures { (p : Placement) → AreMoverPoints self p.mover → AreOtherPoints other p.other
            → (IsTrue result ↔ IsLive p) }
    {
        self.bits & other.bits == 0
    }
}

impl OtherPoints {
    /// The points of a layout of the side that doesn't move.
    pub fn of(layout: &Layout) -> OtherPoints
        ensures { AreOtherPoints result layout.now }
    {
        let mut bits = marked(1 << 25, 0, !layout.is_in_play());
        for point in 1..25 {
            bits = marked(bits, point, layout.count(point) > 0);
        }
        OtherPoints { bits }
    }
}

/// The bits, with that of this place set too where it is to be marked.
fn marked(bits: u32, place: u8, mark: bool) -> u32
    requires within { bits < 2 ^ 26 }
    requires place { place ≤ 25 }
    ensures within { result < 2 ^ 26 }
    ensures at { bit_at result place ≡ max (bit_at bits place) (from_bool mark) }
    ensures same { (other : ℕ) → other ≢ place → bit_at result other ≡ bit_at bits other }
{
    if mark { bits | 1 << place } else { bits }
}

/// The points of all layouts of one to three checkers of the side that doesn't move, by rising
/// rank.
pub fn all_other_points(checkers: u8) -> ArrayVec<OtherPoints, 3276>
    requires low { 1 ≤ checkers }
    requires high { checkers ≤ 3 }
    ensures points { AreFirstPoints checkers result.items }
    ensures many { length result.items ≡ layouts checkers }
{
    let mut all = ArrayVec::new();
    for rank in 0..layout_count(checkers) {
        all.push(OtherPoints::of(&Layout::unrank(checkers, rank)));
    }
    all
}
