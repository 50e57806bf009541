ghost use Rattle.std.specs.Prelude.{◌≡◌, ℕ, ◌+◌, ◌-◌, ◌*◌, ◌<◌, ◌≤◌, ◌↔◌, IsTrue, length, sum};
ghost use Rattle.position_rank.specs.Placement.{Placement, IsPosition, IsLive};
ghost use Rattle.position_rank.specs.Points.{AreFirstPoints};
ghost use Rattle.position_rank.specs.Ranks.{layouts, square_rank_of};
ghost use Rattle.position_rank.specs.LiveRanks.{is_live, placement_at, live_below, live_positions, live_rank_of};

use crate::layout::Layout;
use crate::points::{MoverPoints, OtherPoints, all_other_points};
use crate::position::Position;
use crate::rank::layout_count;

/// How many live positions there are of one to three checkers a side. It walks over all positions.
pub fn live_count(checkers: u8) -> u64
    requires low { 1 ≤ checkers }
    requires high { checkers ≤ 3 }
    ensures { result ≡ live_positions checkers }
{
    let layouts = u64::from(layout_count(checkers));
    count_below(checkers, layouts * layouts)
}

/// A live position's number among those of as many checkers, from 0. It walks over all positions before.
pub fn live_rank(position: &Position) -> u64
    requires { IsLive position.now }
    ensures rank { result ≡ live_rank_of position.now }
    ensures below { result < live_positions (sum position.now.mover) }
    ensures valid { IsPosition position.now }
{
    count_below(position.checkers(), position.square_rank())
}

/// The live position of one to three checkers a side with this live rank. It walks over all positions before.
pub fn live_unrank(checkers: u8, rank: u64) -> Position
    requires low { 1 ≤ checkers }
    requires high { checkers ≤ 3 }
    requires rank { rank < live_positions checkers }
    ensures live { IsLive result }
    ensures rank { live_rank_of result ≡ rank }
    ensures checkers { sum result.mover ≡ checkers }
    ensures valid { IsPosition result }
{
    let mut square = 0;
    let mut seen = 0;
    loop {
        let position = Position::square_unrank(checkers, square);
        if position.is_live() {
            if seen == rank {
                return position;
            }
            seen += 1;
        }
        square += 1;
    }
}

/// How many live positions have a square rank below this one.
fn count_below(checkers: u8, square: u64) -> u64
    requires low { 1 ≤ checkers }
    requires high { checkers ≤ 3 }
    requires square { square ≤ layouts checkers * layouts checkers }
    ensures { result ≡ live_below checkers square }
{
    let others = all_other_points(checkers);
    let layouts = u64::from(layout_count(checkers));
    let rows = (square / layouts) as u32;
    let mut live = 0;
    for row in 0..rows {
        live += count_row(checkers, row, &others);
    }
    let rest = (square % layouts) as usize;
    if rest > 0 {
        live += count_row(checkers, rows, &others[..rest]);
    }
    live
}

/// How many live positions there are of the mover's layout of this rank and of these of the other
/// side.
fn count_row(checkers: u8, row: u32, others: &[OtherPoints]) -> u64
    requires low { 1 ≤ checkers }
    requires high { checkers ≤ 3 }
    requires row { row < layouts checkers }
    requires others { AreFirstPoints checkers others.now }
    ensures { live_below checkers (row * layouts checkers + length others.now)
        ≡ live_below checkers (row * layouts checkers) + result }
{
    let mover = MoverPoints::of(&Layout::unrank(checkers, row));
    let mut live: u32 = 0;
    for other in others {
        if mover.are_live(*other) {
            live += 1;
        }
    }
    u64::from(live)
}

/// Live positions of as many checkers and of equal live rank are the same.
pub fn live_ranks_tell_positions()
    ensures { (p q : Placement) → IsPosition p → IsPosition q → IsLive p → IsLive q
        → sum p.mover ≡ sum q.mover → live_rank_of p ≡ live_rank_of q → p ≡ q }
{}

/// The position at a square is the one with that square rank, and the test for live positions is right.
pub fn squares_hold_their_positions()
    ensures at { (p : Placement) → IsPosition p
        → placement_at (sum p.mover) (square_rank_of p) ≡ p }
    ensures live { (p : Placement) → IsTrue (is_live p) ↔ IsLive p }
{}
