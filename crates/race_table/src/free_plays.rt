ghost use Rattle.std.specs.Prelude.{◌≡◌, ◌≤◌, ℕ, List, IfOk, slice_index, sum};
ghost use Rattle.turn_rule.specs.Layouts.{AreLayouts};
ghost use Rattle.race_table.specs.FreePlays.{AreFreeEnds, AreFreeRolls, AreFreeSides};

use hyper_outside::NoMemory;
use move_rules::{PlayList, plays};
use position_rank::{Layout, Position};
use roll_table::{Roll, rolls};
use std::alloc::Global;

/// A roll, in how many ways it comes, and what its legal plays leave of the mover's checkers in any
/// race.
#[derive(Drop)]
pub(crate) struct FreeRoll {
    roll: Roll,
    pub(crate) times: u64,
    pub(crate) ends: Vec<Layout>,
}

/// A side's checkers, and what its plays leave in any race, by roll.
#[derive(Drop)]
pub(crate) struct FreeSide {
    layout: Layout,
    pub(crate) rolls: Vec<FreeRoll>,
}

/// The same number of checkers, all of them off: they are in nobody's way.
fn all_off(layout: &Layout) -> Layout
    ensures off { (place : ℕ) → 1 ≤ place → slice_index result place ≡ 0 }
    ensures same { sum result ≡ sum layout.now }
{
    Layout::unrank(layout.checkers(), 0)
}

/// What the legal plays of a roll leave.
fn free_ends(
    alloc: Global,
    mover: &Layout,
    roll: Roll,
    list: &mut PlayList,
) -> Result<Vec<Layout>, NoMemory>
    ensures { IfOk result (λ ends. AreFreeEnds mover.now roll ends.items) }
{
    // What `high` ensures says that the dice are right.
    let _high = roll.high();
    let position = Position::new(*mover, all_off(mover)).unwrap();
    plays(&position, roll, list);
    let mut ends = Vec::new(alloc);
    for entry in list.as_slice() {
        ends.push(entry.end.mover())?;
    }
    Ok(ends)
}

/// What the legal plays of every roll leave.
fn free_rolls(alloc: Global, mover: &Layout) -> Result<Vec<FreeRoll>, NoMemory>
    ensures { IfOk result (λ kept. AreFreeRolls mover.now kept.items) }
{
    let mut list = PlayList::new();
    let mut kept = Vec::new(alloc);
    for (roll, times) in &rolls() {
        kept.push(FreeRoll {
            roll: *roll,
            times: *times,
            ends: free_ends(alloc, mover, *roll, &mut list)?,
        })?;
    }
    Ok(kept)
}

/// What the plays of each layout leave in any race.
pub(crate) fn free_sides(alloc: Global, layouts: &[Layout]) -> Result<Vec<FreeSide>, NoMemory>
    ensures { (checkers : ℕ) → AreLayouts checkers layouts.now
        → IfOk result (λ sides. AreFreeSides checkers sides.items) }
{
    let mut sides = Vec::new(alloc);
    for layout in layouts {
        sides.push(FreeSide {
            layout: *layout,
            rolls: free_rolls(alloc, layout)?,
        })?;
    }
    Ok(sides)
}
