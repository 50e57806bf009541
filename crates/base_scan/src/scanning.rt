ghost use Rattle.std.specs.Prelude.{◌≡◌, ◌<◌, ◌≤◌, ◌++◌, ◌∷◌, [], if◌then◌else◌, ℕ, List, All, IfOk, OnOk};
ghost use Rattle.interval_words.specs.WordLists.{WordList};
ghost use Rattle.base_scan.specs.declared.condition.Test.{Test};
ghost use Rattle.position_rank.specs.Placement.{IsLive};
ghost use Rattle.position_rank.specs.Ranks.{layouts, square_rank_of};
ghost use Rattle.turn_rule.specs.Games.{kinds_of};
ghost use Rattle.base_scan.specs.Sides.{AreLayoutsListed, IsLayoutListed, position_of};
ghost use Rattle.base_scan.specs.Found.{AreFound, AreScanned, IsScanned, IsFoundState, first_row, meeting, meeting_among, states_of_row, with_kinds};

use crate::condition::Condition;
use crate::found::{Found, State};
use crate::numbers::{Depth, Seen, asks_more, first_state, may_meet, meets_with};
use crate::sides::{Listed, all_listed};
use hyper_outside::{Gate, NoMemory};
use interval_words::{Words, states_are_numbered};
use position_rank::{MoverPoints, Position, layout_count};
use std::alloc::{AllocError, Global};
use std::thread::Threads;
use worker_team::Team;

/// The rank of the mover's layout where a part of the squares begins, where so many parts share
/// them.
fn first_row(words: &Words, parts: usize, number: usize) -> u32
    requires some { 0 < parts }
    requires few { parts ≤ 64 }
    requires number { number ≤ parts }
    ensures start { result ≡ first_row words.now.game parts number }
    ensures inside { result ≤ layouts words.now.game.checkers }
{
    layout_count(words.checkers()) * number as u32 / parts as u32
}

/// Whether a test of a condition asks for the checkers of a side, and for no more.
fn asks_checkers(condition: &Condition) -> bool {
    for joined in condition.tests() {
        if !asks_more(Depth::Checkers, joined.test.field) {
            return true;
        }
    }
    false
}

/// A state of a position, of at most 14 kinds.
fn state_of(position: &Position, kind: usize) -> State
    requires { kind < 14 }
    ensures { result ≡ record { position = position.now; kind = kind } }
{
    State {
        position: *position,
        kind: kind as u8,
    }
}

/// Adds a state that is to be kept.
fn push_if(found: &mut Vec<State>, kept: bool, state: State) -> Result<(), AllocError>
    ensures { OnOk result (found.new.items
        ≡ found.old.items ++ (if kept then state ∷ [] else [])) }
{
    if kept {
        found.push(state)?;
    }
    Ok(())
}

/// Adds those states of a live position that meet the condition, by their kinds.
fn scan_position(
    found: &mut Vec<State>,
    words: &Words,
    condition: &Condition,
    mover: &Listed,
    other: &Listed,
    square: u64,
    asks_checkers: bool,
) -> Result<(), AllocError>
    requires mover { IsLayoutListed words.now.game.checkers mover.now }
    requires other { IsLayoutListed words.now.game.checkers other.now }
    requires square { square ≡ square_rank_of (position_of mover.now other.now) }
    requires live { IsLive (position_of mover.now other.now) }
    ensures found { OnOk result (found.new.items ≡ found.old.items
        ++ meeting_among words.now condition.now
        (with_kinds (kinds_of words.now.game) (position_of mover.now other.now))) }
    ensures right { OnOk result (All (IsFoundState words.now.game) found.old.items
        → All (IsFoundState words.now.game) found.new.items) }
{
    states_are_numbered();
    let position = Position::new(mover.layout, other.layout).unwrap();
    let first = first_state(words, &position, square);
    let kinds = words.stakes().kinds();
    let one = Seen {
        position,
        kind: 0,
        state: first,
        mover: mover.side,
        other: other.side,
    };
    let may = may_meet(asks_checkers, condition, words, &one);
    for kind in 0..kinds {
        let seen = Seen {
            position,
            kind,
            state: first + kind,
            mover: mover.side,
            other: other.side,
        };
        let kept = may && meets_with(condition, words, &seen);
        push_if(found, kept, state_of(&position, kind))?;
    }
    Ok(())
}

/// Adds those states that meet the condition of the mover's layout with this rank, by the layouts of
/// the other side.
fn scan_row(
    found: &mut Vec<State>,
    words: &Words,
    condition: &Condition,
    all: &[Listed],
    row: u32,
    asks_checkers: bool,
) -> Result<(), AllocError>
    requires all { AreLayoutsListed words.now.game.checkers all.now }
    requires row { row < layouts words.now.game.checkers }
    ensures found { OnOk result (found.new.items ≡ found.old.items
        ++ meeting_among words.now condition.now (states_of_row words.now.game row)) }
    ensures right { OnOk result (All (IsFoundState words.now.game) found.old.items
        → All (IsFoundState words.now.game) found.new.items) }
{
    let mover = &all[row as usize];
    let points = MoverPoints::of(&mover.layout);
    let first = row as usize * all.len();
    for (rank, other) in all.iter().enumerate() {
        if points.are_live(other.points) {
            let square = (first + rank) as u64;
            scan_position(found, words, condition, mover, other, square, asks_checkers)?;
        }
    }
    Ok(())
}

/// The states of the rows of a part that meet the condition, where so many parts share them. Each row passes the gate.
fn scan_part<G: Gate>(
    alloc: Global,
    words: &Words,
    condition: &Condition,
    all: &[Listed],
    parts: usize,
    number: usize,
    gate: &G,
) -> Result<Vec<State>, NoMemory>
    requires all { AreLayoutsListed words.now.game.checkers all.now }
    requires few { parts ≤ 64 }
    requires number { number < parts }
    ensures { IfOk result (λ states.
        IsScanned words.now condition.now parts number states.items) }
{
    let mut found = Vec::new(alloc);
    let asks_checkers = asks_checkers(condition);
    let from = first_row(words, parts, number);
    let to = first_row(words, parts, number + 1);
    for row in from..to {
        gate.pass(number as u32, u64::from(row));
        scan_row(&mut found, words, condition, all, row, asks_checkers)?;
    }
    Ok(found)
}

/// The states of each part, a part for each worker.
fn scan_parts<R: Threads + Sync, G: Gate + Sync>(
    team: &Team<R>,
    alloc: Global,
    words: &Words,
    condition: &Condition,
    all: &[Listed],
    gate: &G,
) -> Result<Vec<Result<Vec<State>, NoMemory>>, AllocError>
    requires { AreLayoutsListed words.now.game.checkers all.now }
    ensures { IfOk result (λ told. AreScanned words.now condition.now team.now told.items) }
{
    let parts = team.workers() as usize;
    team.map(
        alloc,
        &|number| scan_part(alloc, words, condition, all, parts, number, gate),
    )
}

/// The states of all parts, in the order of the parts.
fn joined(alloc: Global, parts: &[Result<Vec<State>, NoMemory>]) -> Result<Vec<State>, NoMemory>
    ensures { (words : WordList) (groups : List (List Test)) (many : ℕ) → 0 < many
        → AreScanned words groups many parts.now
        → IfOk result (λ states. AreFound words groups states.items) }
{
    let mut all = Vec::new(alloc);
    for part in parts {
        match part {
            Ok(states) => all.extend_from_slice(states.as_slice())?,
            Err(NoMemory) => return Err(NoMemory),
        }
    }
    Ok(all)
}

/// The states of a game whose words meet a condition, by rising live rank and then by kind. It is
/// the same list for every number of workers and every gate, which each row of positions passes. It asks for memory for a list of all layouts and for
/// the states found, and may answer `NoMemory`.
pub fn scan<R: Threads + Sync, G: Gate + Sync>(
    team: &Team<R>,
    alloc: Global,
    words: &Words,
    condition: &Condition,
    gate: &G,
) -> Result<Found, NoMemory>
    ensures found { IfOk result (λ found. found ≡ meeting words.now condition.now) }
    ensures right { IfOk result (All (IsFoundState words.now.game)) }
{
    let all = all_listed(alloc, words.checkers())?;
    gate.expect(1, layout_count(words.checkers()));
    // What `workers` ensures says that there is one.
    let _some = team.workers();
    let parts = scan_parts(team, alloc, words, condition, all.as_slice(), gate)?;
    Ok(Found::new(joined(alloc, &parts)?))
}
