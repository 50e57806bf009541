ghost use Rattle.std.specs.Prelude.{◌≡◌, ◌≤◌, ◌⊎◌, List, Err, IfErr, OnOk};
ghost use Rattle.hyper_outside.specs.Causes.{Rose};
ghost use Rattle.outside_log.specs.Log.{Event, LeavesPlaces, failures, standing};
ghost use Rattle.outside_log.specs.Readings.{is_faithful, read_faults};
ghost use Rattle.outside_log.specs.Sink.{Puts};
ghost use Rattle.match_scores.specs.declared.ladder.LadderStop.TheVariants.{Keep};
ghost use Rattle.equity_report.specs.declared.refusal.Refusal.TheVariants.{Read};
ghost use Rattle.command_line.specs.Right.{IsRightLadder};
ghost use Rattle.run_endings.specs.declared.ending.RunStop.TheVariants.{NotWritten, Refused};
ghost use Rattle.run_endings.specs.Endings.{EndsBy, IsOfWriting};
ghost use Rattle.solve_commands.specs.Ladders.{MayTakePlaces, SolvesLadder, SolvesScores, StopsTrying, end_line, scores_in};

use crate::ladder_keep::LadderKeep;
use base_head::BASE_START;
use command_line::Ladder;
use cube_actions::{Starts, ladder};
use equity_report::Refusal;
use hyper_outside::{Failed, Gate};
use match_scores::{LadderStop, solve_ladder, solved_ladders_are_true_and_tight};
use outside_log::{Files, Sink};
use position_rank::layout_count;
use run_endings::{RunStop, begin, ladder_rounds, score_file};
use solve_reports::write_ladder_end;
use std::alloc::Global;
use std::thread::Threads;
use worker_team::Team;

/// Begins the file of each score of a ladder, and gives it up again, so that one that can't be written, or would take the place of a file of
/// another kind, is told before any work.
fn try_scores<F: Files>(task: &Ladder, files: &mut F) -> Result<(), RunStop>
    requires { IsRightLadder task.now }
    ensures may { OnOk result (MayTakePlaces task.now (scores_in task.now)
        (is_faithful (F.log files.new)) (standing (F.log files.old))) }
    ensures told { IfErr result (StopsTrying task.now
        (is_faithful (F.log files.new)) (standing (F.log files.old))) }
    ensures leaves { LeavesPlaces (F.log files.old) (F.log files.new) }
    ensures later { failures (F.log files.old) ≤ failures (F.log files.new) }
    ensures write_cause { result ≡ Err NotWritten
        → Rose (failures (F.log files.old)) (failures (F.log files.new)) }
    ensures read_cause { result ≡ Err (Refused Read)
        → Rose (read_faults (F.log files.old)) (read_faults (F.log files.new)) }
{
    let scores = ladder(task.match_length);
    'scores: for place in 0..scores.len() {
        let name = score_file(task.prefix.as_str(), scores.as_slice()[place]);
        let name = name.as_str();
        begin(files, name, &BASE_START)?;
        files.give_up(name);
    }
    Ok(())
}

/// Solves the scores of a ladder in order. The file of each is written, and then its line is put, before the next one is begun.
fn solve_scores<R: Threads + Sync, F: Files, O: Sink, G: Gate + Sync>(
    team: &Team<R>,
    alloc: Global,
    task: &Ladder,
    files: &mut F,
    out: &mut O,
    gate: &G,
) -> Result<Starts, LadderStop>
    requires { IsRightLadder task.now }
    ensures solves { (before : List Event) → LeavesPlaces before (F.log files.old)
        → SolvesScores task.now before (F.log files.new)
        (O.output out.old) (O.output out.new) result }
    ensures cause { result ≡ Err Keep
        → Rose (failures (F.log files.old)) (failures (F.log files.new))
        ⊎ Rose (O.output out.old).faults (O.output out.new).faults }
    ensures files_later { failures (F.log files.old) ≤ failures (F.log files.new) }
    ensures later { (O.output out.old).faults ≤ (O.output out.new).faults }
{
    solved_ladders_are_true_and_tight();
    gate.expect(
        ladder_rounds(task.match_length, task.rounds),
        layout_count(task.checkers),
    );
    let mut keep = LadderKeep::new(task, files, out);
    solve_ladder(
        team,
        alloc,
        task.checkers,
        task.match_length,
        task.rounds,
        gate,
        &mut keep,
    )
}

/// Puts the last line of a ladder.
fn tell_end<O: Sink>(task: &Ladder, out: &mut O) -> Result<(), Failed>
    ensures { Puts (O.output out.old) (O.output out.new) (end_line task.now) result }
{
    write_ladder_end(
        out,
        task.checkers,
        task.match_length,
        task.rounds,
        task.workers,
    )
}

/// Solves the scores of a ladder, with a file and a line for each, and puts the last line. It is refused before any work where a file can't
/// be begun for what stands there, and later for want of memory; the files and the lines of the scores that are solved by then stay.
pub fn run_ladder<R: Threads + Sync, F: Files, O: Sink, G: Gate + Sync>(
    team: &Team<R>,
    alloc: Global,
    task: &Ladder,
    files: &mut F,
    out: &mut O,
    gate: &G,
) -> Result<(), RunStop>
    requires right { IsRightLadder task.now }
    requires team { team.now ≡ task.now.workers }
    ensures ends { EndsBy IsOfWriting result }
    ensures solves { SolvesLadder task.now (F.log files.old) (F.log files.new)
        (O.output out.old) (O.output out.new) result }
    ensures cause { result ≡ Err NotWritten
        → Rose (failures (F.log files.old)) (failures (F.log files.new))
        ⊎ Rose (O.output out.old).faults (O.output out.new).faults }
    ensures read_cause { result ≡ Err (Refused Read)
        → Rose (read_faults (F.log files.old)) (read_faults (F.log files.new)) }
{
    try_scores(task, files)?;
    match solve_scores(team, alloc, task, files, out, gate) {
        Ok(_) => Ok(tell_end(task, out)?),
        Err(LadderStop::Keep) => Err(RunStop::NotWritten),
        Err(LadderStop::NoMemory) => Err(RunStop::Refused(Refusal::Memory)),
    }
}
