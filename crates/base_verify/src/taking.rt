ghost use Rattle.std.specs.Prelude.{◌≡◌, ◌<◌, ◌+◌, IfOk, IsTrue, length};
ghost use Rattle.position_rank.specs.Ranks.{layouts};
ghost use Rattle.interval_words.specs.WordLists.{WordList};
ghost use Rattle.column_turns.specs.Columns.{IsRoomOf};
ghost use Rattle.base_verify.specs.Columns.{AreHeld, AreToldHeld, ColumnsHold};

use crate::columns::column_holds;
use column_turns::ColumnTurns;
use hyper_outside::{Gate, NoMemory};
use interval_words::Words;
use position_rank::layout_count;
use std::alloc::Global;
use std::sync::atomic::{AtomicU64, Ordering};

/// Marks the columns that a worker takes and finds to hold, in this room.
fn mark_columns<G: Gate>(
    words: &Words,
    gate: &G,
    next: &AtomicU64,
    worker: u32,
    turns: &mut ColumnTurns,
    marks: &mut [bool],
)
    requires room { IsRoomOf words.now.game turns.old }
    requires held { AreHeld words.now marks.old }
    ensures { AreHeld words.now marks.new }
{
    let count = marks.len();
    for _ in 0..count {
        let other = next.fetch_add(1, Ordering::SeqCst) as usize;
        if other >= count {
            return;
        }
        gate.pass(worker, other as u64);
        if !column_holds(words, turns, other) {
            return;
        }
        marks[other] = true;
    }
}

/// The marks of the columns that a worker takes and finds to hold. It takes the one whose number is
/// `next`, again and again, so that each worker takes as many as it has time for, and stops where
/// one doesn't hold. It passes the gate before each. It asks for memory, and may answer `NoMemory`.
pub(crate) fn take_columns<G: Gate>(
    alloc: Global,
    words: &Words,
    gate: &G,
    next: &AtomicU64,
    worker: u32,
) -> Result<Vec<bool>, NoMemory>
    ensures { IfOk result (λ marks. AreHeld words.now marks.items) }
{
    let count = layout_count(words.checkers()) as usize;
    let mut marks = vec![in alloc; false; count]?;
    let mut turns = ColumnTurns::new(alloc, words.checkers(), words.stakes())?;
    mark_columns(words, gate, next, worker, &mut turns, &mut marks);
    Ok(marks)
}

/// Sets the marks that other marks have too.
fn add_marks(marks: &mut [bool], others: &[bool])
    ensures { (words : WordList) → AreHeld words marks.old → AreHeld words others.now
        → AreHeld words marks.new }
{
    for i in 0..marks.len().min(others.len()) {
        if others[i] {
            marks[i] = true;
        }
    }
}

/// The marks that any worker has set.
pub(crate) fn all_marks(
    alloc: Global,
    count: usize,
    told: &[Result<Vec<bool>, NoMemory>],
) -> Result<Vec<bool>, NoMemory>
    ensures { (words : WordList) → layouts words.game.checkers ≡ count
        → AreToldHeld words told.now → IfOk result (λ marks. AreHeld words marks.items) }
{
    let mut all = vec![in alloc; false; count]?;
    for of_worker in told {
        match of_worker {
            Ok(marks) => add_marks(&mut all, marks),
            Err(NoMemory) => return Err(NoMemory),
        }
    }
    Ok(all)
}

/// Whether all words of one column hold. It asks for memory, and may answer `NoMemory`.
fn one_holds(alloc: Global, words: &Words, other: usize) -> Result<bool, NoMemory>
    requires { other < layouts words.now.game.checkers }
    ensures { IfOk result (λ held. IsTrue held → ColumnsHold words.now other (other + 1)) }
{
    let mut turns = ColumnTurns::new(alloc, words.checkers(), words.stakes())?;
    Ok(column_holds(words, &mut turns, other))
}

/// Whether each column holds, where those with a mark do. The first one without a mark was taken by
/// a worker and doesn't hold, but nothing rests on that.
pub(crate) fn rest_holds(alloc: Global, words: &Words, marks: &[bool]) -> Result<bool, NoMemory>
    requires { AreHeld words.now marks.now }
    ensures { IfOk result (λ held. IsTrue held
        → ColumnsHold words.now 0 (layouts words.now.game.checkers)) }
{
    for other in 0..marks.len() {
        if !marks[other] && !one_holds(alloc, words, other)? {
            return Ok(false);
        }
    }
    Ok(true)
}
