ghost use Rattle.std.specs.Prelude.{◌≡◌, ◌<◌, ◌≤◌, IfOk};
ghost use Rattle.position_rank.specs.Ranks.{layouts, rank_of};
ghost use Rattle.base_scan.specs.Meets.{side_pips};
ghost use Rattle.base_scan.specs.Sides.{AreLayoutsListed, IsLayoutListed, IsSideOf};

use hyper_outside::NoMemory;
use position_rank::{Layout, OtherPoints, layout_count};
use std::alloc::Global;

/// What tests ask of a side's checkers.
#[derive(Clone, Copy)]
pub(crate) struct Side {
    /// The sum of their places.
    pub(crate) pips: u32,
    /// How many are off.
    pub(crate) off: u8,
    /// How many are on the bar.
    pub(crate) on_bar: u8,
}

/// A layout with what a search asks of it.
#[derive(Clone, Copy)]
pub(crate) struct Listed {
    pub(crate) layout: Layout,
    /// Its points where it is that of the side that doesn't move.
    pub(crate) points: OtherPoints,
    pub(crate) side: Side,
}

/// The sum of the places of a side's checkers.
fn pips(layout: &Layout) -> u32
    ensures { result ≡ side_pips layout.now }
{
    let mut pips: u32 = 0;
    for place in 0..26u8 {
        pips += u32::from(place) * u32::from(layout.count(place));
    }
    pips
}

impl Side {
    /// What tests ask of the checkers of a layout.
    pub(crate) fn of(layout: &Layout) -> Side
        ensures { IsSideOf layout.now result }
    {
        Side {
            pips: pips(layout),
            off: layout.count(0),
            on_bar: layout.count(25),
        }
    }
}

impl Listed {
    /// The layout of one to three checkers with this rank.
    fn of_rank(checkers: u8, rank: u32) -> Listed
        requires low { 1 ≤ checkers }
        requires high { checkers ≤ 3 }
        requires rank { rank < layouts checkers }
        ensures listed { IsLayoutListed checkers result }
        ensures rank { rank_of result.layout ≡ rank }
    {
        let layout = Layout::unrank(checkers, rank);
        Listed {
            layout,
            points: OtherPoints::of(&layout),
            side: Side::of(&layout),
        }
    }
}

/// All layouts of one to three checkers, by rising rank. It asks for memory, and may answer
/// `NoMemory`.
pub(crate) fn all_listed(alloc: Global, checkers: u8) -> Result<Vec<Listed>, NoMemory>
    requires low { 1 ≤ checkers }
    requires high { checkers ≤ 3 }
    ensures { IfOk result (λ all. AreLayoutsListed checkers all.items) }
{
    let mut all = Vec::new(alloc);
    for rank in 0..layout_count(checkers) {
        all.push(Listed::of_rank(checkers, rank))?;
    }
    Ok(all)
}
