ghost use Rattle.std.specs.Prelude.{◌≡◌, ◌<◌, ◌≤◌, ◌+◌, ◌*◌, ◌/◌, ◌^◌, ℕ, IfOk, IsTrue, OnOk};
ghost use Rattle.interval_words.specs.WordLists.{WordList};
ghost use Rattle.base_verify.specs.Findings.{AlwaysEnclose, TellsConsistency};
ghost use Rattle.position_rank.specs.Ranks.{layouts};
ghost use Rattle.base_verify.specs.Checks.{ArePartsTold, TellsAll};
ghost use Rattle.base_verify.specs.Columns.{AreToldHeld, ColumnsHold};

use crate::finding::{Finding, VerifyStop};
use crate::states::part_finding;
use crate::taking::{all_marks, rest_holds, take_columns};
use database_file::Base;
use hyper_outside::{Gate, NoMemory};
use interval_words::{Words, consistent_lists_enclose};
use position_rank::layout_count;
use std::alloc::{AllocError, Global};
use std::sync::atomic::AtomicU64;
use std::thread::Threads;
use worker_team::Team;

/// Where a part begins, where so many parts share a count.
fn part_start(count: u64, parts: usize, number: usize) -> u64
    requires count { count < 2 ^ 32 }
    requires some { 0 < parts }
    requires few { parts ≤ 64 }
    requires number { number ≤ parts }
    ensures start { result ≡ count * number / parts }
    ensures inside { result ≤ count }
{
    count * number as u64 / parts as u64
}

/// What each worker tells of the columns that it took. The turns of a column are worked out together,
/// which is much faster than to look at each position alone.
fn check_by_workers<R: Threads + Sync, G: Gate + Sync>(
    team: &Team<R>,
    alloc: Global,
    words: &Words,
    gate: &G,
) -> Result<Vec<Result<Vec<bool>, NoMemory>>, AllocError>
    ensures { IfOk result (λ told. AreToldHeld words.now told.items) }
{
    // What `workers` ensures says that they are few.
    let _few = team.workers();
    let next = AtomicU64::new(0);
    team.map(
        alloc,
        &|worker| take_columns(alloc, words, gate, &next, worker as u32),
    )
}

/// Whether all words hold. Each column that is come to passes the gate.
fn words_hold<R: Threads + Sync, G: Gate + Sync>(
    team: &Team<R>,
    alloc: Global,
    words: &Words,
    gate: &G,
) -> Result<bool, NoMemory>
    ensures { IfOk result (λ held. IsTrue held
        → ColumnsHold words.now 0 (layouts words.now.game.checkers)) }
{
    let told = check_by_workers(team, alloc, words, gate)?;
    let count = layout_count(words.checkers()) as usize;
    let marks = all_marks(alloc, count, &told)?;
    rest_holds(alloc, words, &marks)
}

/// The first finding of each part, a part for each worker.
fn find_in_parts<R: Threads + Sync>(
    team: &Team<R>,
    alloc: Global,
    words: &Words,
) -> Result<Vec<Option<Finding>>, AllocError>
    ensures { IfOk result (λ told. ArePartsTold words.now team.now told.items) }
{
    let count = words.index().count();
    let parts = team.workers() as usize;
    team.map(
        alloc,
        &|number| {
            let from = part_start(count, parts, number);
            let to = part_start(count, parts, number + 1);
            part_finding(words, from, to)
        },
    )
}

/// The finding of the first part that has one.
fn first_of(told: &[Option<Finding>]) -> Option<Finding>
    ensures { (words : WordList) (parts : ℕ) → 0 < parts → ArePartsTold words parts told.now
        → TellsAll words result }
{
    for part in told {
        if let Some(finding) = part {
            return Some(*finding);
        }
    }
    None
}

/// Whether the words of a list are consistent, as `verify` tells it of a file.
fn verify_words<R: Threads + Sync, G: Gate + Sync>(
    team: &Team<R>,
    alloc: Global,
    words: &Words,
    gate: &G,
) -> Result<(), VerifyStop>
    ensures { TellsConsistency words.now result }
{
    if words_hold(team, alloc, words, gate)? {
        return Ok(());
    }
    // What `workers` ensures says that there is one.
    let _some = team.workers();
    let told = find_in_parts(team, alloc, words)?;
    match first_of(&told) {
        Some(finding) => Err(VerifyStop::Inconsistent(finding)),
        None => Ok(()),
    }
}

/// Whether the words of a loaded file are consistent. `Inconsistent` comes exactly where a word is
/// tighter than the turn over the file's words, and tells the first such word by rising live rank of
/// its position, then by kind, the lower word before the upper one, with both values; so it is the
/// same for each number of workers. Consistent words enclose every state. It asks for memory for the
/// workers' columns alone, and may answer `NoMemory`.
///
/// The words are checked column by column, a column for each layout of the other side, and a worker
/// passes the gate before each column that it comes to. A yes comes after each column has passed
/// once. A no takes longer: the first word is looked for after that, which passes no gate.
pub fn verify<R: Threads + Sync, G: Gate + Sync>(
    team: &Team<R>,
    alloc: Global,
    base: &Base,
    gate: &G,
) -> Result<(), VerifyStop>
    ensures told { TellsConsistency base.now.words result }
    ensures enclosing { OnOk result (AlwaysEnclose base.now.words) }
{
    base.words().right();
    consistent_lists_enclose();
    verify_words(team, alloc, base.words(), gate)
}
