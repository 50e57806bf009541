ghost use Rattle.std.specs.Prelude.{◌≡◌, ◌≤◌, All, IfOk, length};
ghost use Rattle.game_record.specs.Lines.{IsRecord};
ghost use Rattle.game_record.specs.RightDecisions.{IsRightDecision};
ghost use Rattle.game_record.specs.declared.record.RecordStakes.TheVariants.{Match};
ghost use Rattle.record_study.specs.Matches.{AreStudiedInMatch};

use crate::record_keep::RecordKeep;
use cube_actions::ladders_are_exact;
use game_record::{Decisions, Record};
use hyper_outside::{Gate, NoMemory};
use match_scores::{
    LadderStop, enclosing_starts_bound_the_payoffs, solve_ladder, solved_ladders_are_true_and_tight,
};
use record_analysis::{Analysis, right_decisions_can_be_judged};
use std::alloc::Global;
use std::thread::Threads;
use worker_team::Team;

/// Solves the scores of a recorded match down its ladder by some rounds, and judges each game's decisions by its
/// score. Every record of a match needs the whole ladder, since its first game is at the ladder's last score. From some number of
/// turns on, one for the whole match, each pair encloses what its decision loses exactly with the payoffs of the match, for every
/// number of workers and every gate; and each is at least as tight as over so many rounds for the stakes of the plain starts. It asks
/// for memory, and may answer `NoMemory`.
pub fn study_match<R: Threads + Sync, G: Gate + Sync>(
    team: &Team<R>,
    alloc: Global,
    rec: &Record,
    match_length: u8,
    decisions: Decisions,
    rounds: u32,
    gate: &G,
) -> Result<Analysis, NoMemory>
    requires valid { IsRecord rec.now }
    requires in_match { rec.now.stakes ≡ Match match_length }
    requires right { All (IsRightDecision rec.now) decisions }
    requires few { length decisions ≤ 131072 }
    requires rounds { (1 ≤ rounds) × (rounds ≤ 4096) }
    ensures { IfOk result (AreStudiedInMatch rec.now.checkers match_length rounds decisions) }
{
    right_decisions_can_be_judged();
    ladders_are_exact();
    solved_ladders_are_true_and_tight();
    enclosing_starts_bound_the_payoffs();
    let analysis = Analysis::new(alloc, decisions)?;
    let mut keep = RecordKeep::new(analysis, rec.checkers, match_length, rounds);
    match solve_ladder(
        team,
        alloc,
        rec.checkers,
        match_length,
        rounds,
        gate,
        &mut keep,
    ) {
        Ok(starts) => {
            // What `match_length` ensures says that the start pairs are those of a match.
            let _length = starts.match_length();
            Ok(keep.into_analysis())
        }
        Err(LadderStop::NoMemory) => Err(NoMemory),
        // A keeper of this kind never fails.
        Err(LadderStop::Keep) => unreachable!(),
    }
}
