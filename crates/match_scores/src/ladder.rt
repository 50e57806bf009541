ghost use Rattle.std.specs.Prelude.{◌≡◌, ◌<◌, ◌≤◌, ◌+◌, length, IfOk, OnOk, OnErr};
ghost use Rattle.cube_actions.specs.Ladder.{ladder};
ghost use Rattle.cube_actions.specs.Starts.{Covers};
ghost use Rattle.cube_actions.specs.declared.name.StakesName.TheVariants.{Match};
ghost use Rattle.match_scores.specs.Keepers.{IsKeeperFor, HasKept, IsSolvedSoFar, HandsOver, IsWholeLadder, no_pairs};
ghost use Rattle.match_scores.specs.Ladders.{score_at, AreWordsAt};

use crate::keep::Keep;
use crate::openings::start_pair;
use cube_actions::{Score, Stakes, Starts, ladder, ladders_are_exact, wins_lead_down_the_ladder};
use hyper_outside::{Gate, NoMemory};
use interval_words::Closed;
use move_rules::opening_plays_go_on;
use std::alloc::Global;
use std::thread::Threads;
use worker_sweep::words_after_rounds;
use worker_team::Team;

/// Why a ladder wasn't solved to its end. The scores that were handed over are its first ones.
#[derive(Clone, Copy)]
pub enum LadderStop {
    /// The keeper has failed.
    Keep,
    /// There was no memory.
    NoMemory,
}

/// The words of the game at a score, for the start pairs of the scores before it.
fn solve_score<R: Threads + Sync, G: Gate + Sync>(
    team: &Team<R>,
    alloc: Global,
    checkers: u8,
    score: Score,
    starts: &Starts,
    rounds: u32,
    gate: &G,
) -> Result<Closed, NoMemory>
    requires low { 1 ≤ checkers }
    requires high { checkers ≤ 3 }
    requires rounds { (1 ≤ rounds) × (rounds ≤ 4096) }
    requires covered { Covers starts.now score }
    ensures words { IfOk result (AreWordsAt checkers rounds score starts.now) }
    ensures name { IfOk result (λ closed. closed.game.stakes.name ≡ Match score) }
{
    let stakes = Stakes::of_score(score, starts);
    let closed = words_after_rounds(team, alloc, checkers, &stakes, rounds, None, gate)?;
    // Words are of a game of one to three checkers and valid stakes.
    closed.words().right();
    Ok(closed)
}

/// Solves the next score of the ladder, hands it to the keeper, and adds its start pair.
fn take_score<R: Threads + Sync, G: Gate + Sync, K: Keep>(
    team: &Team<R>,
    alloc: Global,
    checkers: u8,
    score: Score,
    starts: &mut Starts,
    rounds: u32,
    gate: &G,
    keep: &mut K,
) -> Result<(), LadderStop>
    requires low { 1 ≤ checkers }
    requires high { checkers ≤ 3 }
    requires rounds { (1 ≤ rounds) × (rounds ≤ 4096) }
    requires so_far { IsSolvedSoFar checkers starts.old.match_length rounds starts.old }
    requires keeper { IsKeeperFor checkers starts.old.match_length rounds (K.keeper keep.old) }
    requires kept { HasKept starts.old (K.keeper keep.old) }
    requires more { length starts.old.pairs < length (ladder starts.old.match_length) }
    requires next { score ≡ score_at starts.old.match_length (length starts.old.pairs) }
    ensures so_far { IsSolvedSoFar checkers starts.old.match_length rounds starts.new }
    ensures added { OnOk result (length starts.new.pairs ≡ length starts.old.pairs + 1) }
    ensures kept { OnOk result (HasKept starts.new (K.keeper keep.new)) }
    ensures stopped { OnErr result
        ((K.keeper keep.new).starts ≡ (K.keeper keep.old).starts) }
    ensures hands { HandsOver (K.keeper keep.old) (K.keeper keep.new) result }
    ensures stays { K.stays keep.new ≡ K.stays keep.old }
    ensures since { (past : K.Past) → K.since past keep.old → K.since past keep.new }
{
    opening_plays_go_on();
    wins_lead_down_the_ladder();
    ladders_are_exact();
    // What `match_length` ensures says that the start pairs so far are those of a match.
    let _length = starts.match_length();
    let closed = match solve_score(team, alloc, checkers, score, starts, rounds, gate) {
        Ok(closed) => closed,
        Err(NoMemory) => return Err(LadderStop::NoMemory),
    };
    if keep.keep(score, starts, &closed).is_err() {
        return Err(LadderStop::Keep);
    }
    starts.add(start_pair(score, closed.words()));
    Ok(())
}

/// Solves a match of 1 to 5 points between sides of one to three checkers, score by score in the order of its ladder: each
/// by 1 to 4,096 rounds of the team, with the stakes that the start pairs of the scores before it give. Hands each score to
/// the keeper before the next one is begun, and answers the start pairs of all scores. No more than one board and one list
/// of closed words is held at a time.
///
/// `Keep` comes only where the keeper has failed, `NoMemory` where there was no memory. After either the scores that were
/// handed over are the first ones of the ladder.
pub fn solve_ladder<R: Threads + Sync, G: Gate + Sync, K: Keep>(
    team: &Team<R>,
    alloc: Global,
    checkers: u8,
    match_length: u8,
    rounds: u32,
    gate: &G,
    keep: &mut K,
) -> Result<Starts, LadderStop>
    requires low { 1 ≤ checkers }
    requires high { checkers ≤ 3 }
    requires points { (1 ≤ match_length) × (match_length ≤ 5) }
    requires rounds { (1 ≤ rounds) × (rounds ≤ 4096) }
    requires keeper { IsKeeperFor checkers match_length rounds (K.keeper keep.old) }
    requires fresh { HasKept (no_pairs match_length) (K.keeper keep.old) }
    ensures whole { IfOk result (IsWholeLadder checkers match_length rounds) }
    ensures kept { IfOk result (λ starts. HasKept starts (K.keeper keep.new)) }
    ensures some { length (K.keeper keep.new).starts.pairs ≤ length (ladder match_length) }
    ensures hands { HandsOver (K.keeper keep.old) (K.keeper keep.new) result }
    ensures stays { K.stays keep.new ≡ K.stays keep.old }
    ensures since { (past : K.Past) → K.since past keep.old → K.since past keep.new }
{
    opening_plays_go_on();
    wins_lead_down_the_ladder();
    ladders_are_exact();
    let mut starts = Starts::new(match_length);
    for score in ladder(match_length).as_slice() {
        if let Err(stop) = take_score(
            team,
            alloc,
            checkers,
            *score,
            &mut starts,
            rounds,
            gate,
            keep,
        ) {
            return Err(stop);
        }
    }
    // What `match_length` ensures says that the start pairs are those of a match.
    let _length = starts.match_length();
    Ok(starts)
}
