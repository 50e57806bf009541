ghost use Rattle.std.specs.Prelude.{◌≡◌, ◌<◌, ℕ, All, length, slice_index, slice_index_or};
ghost use Rattle.column_sums.specs.Needed.{AreEndsNeeded, AreNeeded, AreNeededStill, IsNeeded, LeadsToNeeded};
ghost use Rattle.column_sums.specs.Tables.{IsReachWithin};
ghost use Rattle.column_sums.specs.declared.moves.DieList.{DieList as DieListData};

use crate::cells::Reach;
use crate::moves::DieList;

/// Marks these cells.
fn mark_cells(cells: &[u16], needed: &mut [bool])
    requires within { (i : ℕ) → i < length cells.now → slice_index cells.now i < length needed.old }
    ensures cells { (i : ℕ) → i < length cells.now → IsNeeded needed.new (slice_index cells.now i) }
    ensures kept { AreNeededStill needed.old needed.new }
{
    for cell in cells {
        needed[usize::from(*cell)] = true;
    }
}

/// Marks the cells that these lead to.
fn mark_ends(reaches: &[Reach], needed: &mut [bool])
    requires many { length needed.old ≡ 32768 }
    requires within { All IsReachWithin reaches.now }
    ensures ends { All (LeadsToNeeded needed.new) reaches.now }
    ensures kept { AreNeededStill needed.old needed.new }
{
    for reach in reaches {
        needed[usize::from(reach.first)] = true;
        needed[usize::from(reach.second)] = true;
        needed[usize::from(reach.third)] = true;
    }
}

/// Marks the cells that the lists of the dice lead to.
fn mark_lists(lists: &[DieList; 6], needed: &mut [bool])
    requires six { length lists.now ≡ 6 }
    requires many { length needed.old ≡ 32768 }
    requires within { (i : ℕ) (none : DieListData) → i < 6
        → All IsReachWithin (slice_index_or lists.now i none).reaches.items }
    ensures ends { AreEndsNeeded lists.now needed.new }
    ensures kept { AreNeededStill needed.old needed.new }
{
    for list in lists {
        mark_ends(&list.reaches, needed);
    }
}

/// Marks these cells and those that the lists of the dice lead to, after all older marks are off.
pub(crate) fn mark_needed(cells: &[u16], lists: &[DieList; 6], needed: &mut Vec<bool>)
    requires six { length lists.now ≡ 6 }
    requires many { length needed.old.items ≡ 32768 }
    requires cells { (i : ℕ) → i < length cells.now → slice_index cells.now i < 32768 }
    requires within { (i : ℕ) (none : DieListData) → i < 6
        → All IsReachWithin (slice_index_or lists.now i none).reaches.items }
    ensures { AreNeeded cells.now lists.now needed.new.items }
{
    needed.fill(false);
    mark_cells(cells, needed);
    mark_lists(lists, needed);
}
