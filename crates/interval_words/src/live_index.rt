ghost use Rattle.std.specs.Prelude.{◌≡◌, ℕ, ◌<◌, ◌≤◌, ◌+◌, ◌*◌, ◌^◌, IfOk, length, sum};
ghost use Rattle.position_rank.specs.Ranks.{layouts, square_rank_of};
ghost use Rattle.position_rank.specs.Placement.{IsPosition, IsLive};
ghost use Rattle.position_rank.specs.Points.{AreFirstPoints};
ghost use Rattle.interval_words.specs.LiveIndex.{AreCounted};
ghost use Rattle.position_rank.specs.LiveRanks.{live_below, live_positions, live_rank_of};

use hyper_outside::NoMemory;
use position_rank::{Layout, MoverPoints, OtherPoints, Position, all_other_points, layout_count};
use std::alloc::Global;
use std::marker::Model;

/// The live ranks of all live positions of one to three checkers a side, with 4 bytes for each pair
/// of layouts.
#[derive(Drop)]
pub struct LiveIndex {
    checkers: u8,
    below: Vec<u32>,
    live: u32,
}

impl Model for LiveIndex {
    ghost use Rattle.std.specs.Prelude.{ℕ};
    ghost use Rattle.interval_words.specs.LiveIndex.{IsLiveIndex};

    ghost Value = { ℕ };

    ghost view = { λ a. a.checkers };

    ghost invariant = { λ a. IsLiveIndex a.checkers a.below.items a.live };
}

/// Numbers the positions of the mover's layout of this rank, from how many live positions have a
/// smaller square rank, and tells how many have after them.
fn number_row(checkers: u8, row: u32, others: &[OtherPoints], below: &mut [u32], live: u32) -> u32
    requires low { 1 ≤ checkers }
    requires high { checkers ≤ 3 }
    requires row { row < layouts checkers }
    requires others { AreFirstPoints checkers others.now }
    requires all { length others.now ≡ layouts checkers }
    requires room { length below.old ≡ layouts checkers * layouts checkers }
    requires before { AreCounted checkers below.old (row * layouts checkers) }
    requires live { live ≡ live_below checkers (row * layouts checkers) }
    ensures counted { AreCounted checkers below.new ((row + 1) * layouts checkers) }
    ensures live { result ≡ live_below checkers ((row + 1) * layouts checkers) }
{
    let mover = MoverPoints::of(&Layout::unrank(checkers, row));
    let first = row as usize * others.len();
    let mut live = live;
    for (rank, other) in others.iter().enumerate() {
        below[first + rank] = live;
        if mover.are_live(*other) {
            live += 1;
        }
    }
    live
}

impl LiveIndex {
    /// The index of one to three checkers a side. It walks over all positions once, asks for
    /// memory, and may answer `NoMemory`.
    pub fn new(alloc: Global, checkers: u8) -> Result<LiveIndex, NoMemory>
        requires low { 1 ≤ checkers }
        requires high { checkers ≤ 3 }
        ensures { IfOk result (λ index. index ≡ checkers) }
    {
        let others = all_other_points(checkers);
        let mut below = vec![in alloc; 0; others.len() * others.len()]?;
        let mut live = 0;
        for row in 0..layout_count(checkers) {
            live = number_row(checkers, row, &others, &mut below, live);
        }
        Ok(LiveIndex {
            checkers,
            below,
            live,
        })
    }

    /// How many checkers a side has.
    pub fn checkers(&self) -> u8
        ensures checkers { result ≡ self.now }
        ensures low { 1 ≤ result }
        ensures high { result ≤ 3 }
    {
        self.checkers
    }

    /// How many live positions there are.
    pub fn count(&self) -> u64
        ensures count { result ≡ live_positions self.now }
        ensures small { result < 2 ^ 32 }
    {
        u64::from(self.live)
    }

    /// The number of a live position of these checkers among the live positions, from 0.
    #[inline]
    pub fn rank(&self, position: &Position) -> u64
        requires live { IsLive position.now }
        requires checkers { sum position.now.mover ≡ self.now }
        ensures rank { result ≡ live_rank_of position.now }
        ensures below { result < live_positions self.now }
        ensures small { result < 2 ^ 32 }
        ensures valid { IsPosition position.now }
    {
        self.rank_at(position, position.square_rank())
    }

    /// `rank` of a position whose square rank is at hand.
    #[inline]
    pub fn rank_at(&self, position: &Position, square: u64) -> u64
        requires valid { IsPosition position.now }
        requires live { IsLive position.now }
        requires checkers { sum position.now.mover ≡ self.now }
        requires square { square ≡ square_rank_of position.now }
        ensures rank { result ≡ live_rank_of position.now }
        ensures below { result < live_positions self.now }
        ensures small { result < 2 ^ 32 }
    {
        u64::from(self.below[square as usize])
    }

    /// The last square below which at most so many positions are live, found by halving.
    fn square(&self, rank: u64) -> u64
        requires { rank < live_positions self.now }
        ensures inside { result < layouts self.now * layouts self.now }
        ensures from { live_below self.now result ≤ rank }
        ensures to { rank < live_below self.now (result + 1) }
    {
        let mut low = 0;
        let mut high = self.below.len();
        while high - low > 1 {
            let middle = low + (high - low) / 2;
            if u64::from(self.below[middle]) <= rank {
                low = middle;
            } else {
                high = middle;
            }
        }
        low as u64
    }

    /// The live position with this number.
    pub fn unrank(&self, rank: u64) -> Position
        requires { rank < live_positions self.now }
        ensures live { IsLive result }
        ensures rank { live_rank_of result ≡ rank }
        ensures checkers { sum result.mover ≡ self.now }
        ensures valid { IsPosition result }
    {
        Position::square_unrank(self.checkers, self.square(rank))
    }
}
