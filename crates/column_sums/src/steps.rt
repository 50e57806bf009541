ghost use Rattle.std.specs.Prelude.{◌≡◌, ◌<◌, ◌≤◌, ◌+◌, ◌-◌, ◌*◌, ◌^◌, ℕ, IfOk, length, sum};
ghost use Rattle.move_rules.specs.Ends.{places};
ghost use Rattle.position_rank.specs.Placement.{IsLayout};
ghost use Rattle.position_rank.specs.Ranks.{layouts, rank_of};
ghost use Rattle.turn_rule.specs.Layouts.{AreLayouts};
ghost use Rattle.column_sums.specs.Columns.{step_from, steps_from};
ghost use Rattle.column_sums.specs.Leaps.{layout_at, AreLeaps, IsLeapIf, IsStepIf};
ghost use Rattle.column_sums.specs.Grids.{AreFansTo};

use crate::leaps::Leap;
use arrayvec::ArrayVec;
use hyper_outside::NoMemory;
use position_rank::Layout;
use std::alloc::Global;
use std::marker::Model;
use turn_rule::all_layouts;

/// The steps of one layout by one die.
#[derive(Default, Drop)]
pub(crate) struct Fan {
    pub(crate) leaps: ArrayVec<Leap, 3>,
}

/// The steps of all layouts of so many checkers by each die.
#[derive(Drop)]
pub(crate) struct Steps {
    layouts: Vec<Layout>,
    fans: Vec<Fan>,
}

impl Model for Steps {
    ghost use Rattle.std.specs.Prelude.{ℕ, List};
    ghost use Rattle.column_sums.specs.Grids.{AreFans};

    ghost Value = { List (List ℕ) };

    ghost view = { λ a. a.layouts.items };

    ghost invariant = { λ a. AreFans a.layouts.items a.fans.items };
}

impl Steps {
    /// The steps of all layouts of one to three checkers. It asks for memory, and may answer `NoMemory`.
    pub(crate) fn new(alloc: Global, checkers: u8) -> Result<Steps, NoMemory>
        requires low { 1 ≤ checkers }
        requires high { checkers ≤ 3 }
        ensures { IfOk result (λ steps. AreLayouts checkers steps) }
    {
        let layouts = all_layouts(alloc, checkers)?;
        let mut fans = Vec::new(alloc);
        for rank in 0..layouts.len() {
            add_fans(checkers, layouts.as_slice(), rank, &mut fans)?;
        }
        Ok(Steps { layouts, fans })
    }

    /// How many layouts there are.
    #[inline]
    pub(crate) fn many(&self) -> usize
        ensures many { result ≡ length self.now }
        ensures few { result ≤ 3276 }
    {
        self.layouts.len()
    }

    /// One of the layouts.
    #[inline]
    pub(crate) fn layout(&self, rank: usize) -> &Layout
        requires { rank < length self.now }
        ensures { result.now ≡ layout_at self.now rank }
    {
        &self.layouts[rank]
    }

    /// The steps of a layout by a die.
    #[inline]
    pub(crate) fn leaps(&self, rank: usize, die: u8) -> &[Leap]
        requires rank { rank < length self.now }
        requires low { 1 ≤ die }
        requires high { die ≤ 6 }
        ensures leaps { AreLeaps self.now result.now
            (steps_from (layout_at self.now rank) die places) }
        ensures few { length result.now ≤ 3 }
        ensures layouts { length self.now ≤ 3276 }
    {
        self.fans[rank * 6 + (die as usize - 1)].leaps.as_slice()
    }
}

/// Adds the steps of a layout by each die.
fn add_fans(
    checkers: u8,
    layouts: &[Layout],
    rank: usize,
    fans: &mut Vec<Fan>,
) -> Result<(), NoMemory>
    requires all { AreLayouts checkers layouts.now }
    requires few { length layouts.now < 2 ^ 16 }
    requires rank { rank < length layouts.now }
    requires before { AreFansTo layouts.now fans.old.items (rank * 6) }
    ensures { IfOk result (λ _done. AreFansTo layouts.now fans.new.items (rank * 6 + 6)) }
{
    for sides in 0..6 {
        fans.push(fan_of(checkers, layouts, &layouts[rank], sides + 1))?;
    }
    Ok(())
}

/// The steps of a layout by a die.
fn fan_of(checkers: u8, layouts: &[Layout], layout: &Layout, die: u8) -> Fan
    requires all { AreLayouts checkers layouts.now }
    requires few { length layouts.now < 2 ^ 16 }
    requires many { sum layout.now ≡ checkers }
    requires low { 1 ≤ die }
    requires high { die ≤ 6 }
    ensures { AreLeaps layouts.now result.leaps.items (steps_from layout.now die places) }
{
    // A layout is of one to three checkers.
    let _valid = layout.rank();
    let mut leaps = ArrayVec::new();
    for below in 0..25 {
        if let Some(leap) = leap_of(checkers, layouts, layout, die, 25 - below) {
            leaps.push(leap);
        }
    }
    Fan { leaps }
}

/// The step from a place by a die, with the number of the layout that it leaves.
fn leap_of(checkers: u8, layouts: &[Layout], layout: &Layout, die: u8, from: u8) -> Option<Leap>
    requires all { AreLayouts checkers layouts.now }
    requires few { length layouts.now < 2 ^ 16 }
    requires many { sum layout.now ≡ checkers }
    requires low { 1 ≤ die }
    requires high { die ≤ 6 }
    requires place { 1 ≤ from }
    requires within { from ≤ 25 }
    ensures { IsLeapIf layouts.now result (step_from layout.now die from) }
{
    // A layout has 26 places.
    let _valid = layout.checkers();
    match step_of(layout, die, from) {
        None => None,
        Some(left) => Some(Leap {
            lands: left.0,
            to: number_of(left.1) as u16,
        }),
    }
}

/// The number of a layout.
fn number_of(layout: Layout) -> u32
    ensures rank { result ≡ rank_of layout }
    ensures below { result < layouts (sum layout) }
    ensures valid { IsLayout layout }
{
    layout.rank()
}

/// The step from a place by a die: the point of the other side that it comes to, or 0, and the layout that it leaves.
#[tactic(auto, unfolding(crate::specs::Columns::step_from))]
fn step_of(layout: &Layout, die: u8, from: u8) -> Option<(u8, Layout)>
    requires low { 1 ≤ die }
    requires high { die ≤ 6 }
    requires place { 1 ≤ from }
    requires within { from ≤ 25 }
    ensures { IsStepIf result (step_from layout.now die from) }
{
    if layout.count(from) == 0 || (from != 25 && layout.count(25) > 0) {
        return None;
    }
    if die < from {
        let to = from - die;
        return Some((25 - to, layout.moved(from, to)));
    }
    if layout.above(6) > 0 || (from != die && layout.above(from) > 0) {
        return None;
    }
    Some((0, layout.moved(from, 0)))
}
