ghost use Rattle.std.specs.Prelude.{◌≡◌, All, IfOk, Err};
ghost use Rattle.hyper_outside.specs.Causes.{Rose};
ghost use Rattle.outside_log.specs.Log.{standing};
ghost use Rattle.outside_log.specs.Readings.{ReadsOn, is_faithful, read_faults};
ghost use Rattle.game_record.specs.RightDecisions.{IsRightDecision};
ghost use Rattle.equity_report.specs.declared.refusal.Refusal.TheVariants.{Read};
ghost use Rattle.command_line.specs.Right.{IsRightStudy};
ghost use Rattle.run_endings.specs.Endings.{EndsBy, IsOfReplaying};
ghost use Rattle.run_endings.specs.declared.ending.RunStop.TheVariants.{Refused};
ghost use Rattle.record_commands.specs.Records.{IsRightReplayed};
ghost use Rattle.record_commands.specs.Studies.{IsStudiedBy, TellsStudy};

use crate::record::{Replayed, match_length, read_recorded};
use crate::shown::write_shown;
use command_line::Study;
use equity_report::Refusal;
use game_record::{Decisions, Record};
use hyper_outside::{Failed, Gate, NoMemory};
use outside_log::{Files, Sink};
use plain_record::LineFront;
use position_rank::layout_count;
use record_analysis::Analysis;
use record_study::{study, study_match};
use run_endings::{RunStop, ladder_rounds};
use std::alloc::Global;
use std::thread::Threads;
use worker_team::Team;

/// What the decisions of a recorded game lose by what is solved for it, in a match by all its scores.
fn study_replayed<R: Threads + Sync, G: Gate + Sync>(
    team: &Team<R>,
    alloc: Global,
    task: &Study,
    rec: &Record,
    decisions: Decisions,
    gate: &G,
) -> Result<Analysis, NoMemory>
    requires task { IsRightStudy task.now }
    requires right { IsRightReplayed (record { rec = rec.now; decisions = decisions }) }
    ensures studied { IfOk result
        (IsStudiedBy (record { rec = rec.now; decisions = decisions }) task.now.rounds) }
    ensures right { IfOk result (All (λ one. IsRightDecision rec.now one.decision)) }
{
    let rounds = task.rounds;
    let columns = layout_count(rec.checkers);
    if rec.stakes.is_match() {
        let points = match_length(rec.stakes);
        gate.expect(ladder_rounds(points, rounds), columns);
        study_match(team, alloc, rec, points, decisions, rounds, gate)
    } else {
        gate.expect(rounds, columns);
        study(team, alloc, rec, decisions, rounds, gate)
    }
}

/// Solves what a recorded game is played for, and puts what each of its decisions loses by that, or those that lost most, and each player's total.
/// It is refused where the record's file isn't there or can't be read, a line of it is wrong, whose first bytes are kept, or there is no memory.
pub fn run_study<R: Threads + Sync, F: Files, O: Sink, G: Gate + Sync>(
    team: &Team<R>,
    alloc: Global,
    task: &Study,
    files: &mut F,
    out: &mut O,
    wrong: &mut LineFront,
    gate: &G,
) -> Result<(), RunStop>
    requires right { IsRightStudy task.now }
    requires team { team.now ≡ task.now.workers }
    ensures ends { EndsBy IsOfReplaying result }
    ensures tells { TellsStudy task.now (is_faithful (F.log files.new))
        (standing (F.log files.old) task.now.rec)
        (O.output out.old) (O.output out.new) result }
    ensures read_cause { result ≡ Err (Refused Read)
        → Rose (read_faults (F.log files.old)) (read_faults (F.log files.new)) }
    ensures reads { ReadsOn (F.log files.old) (F.log files.new) }
{
    let Replayed { rec, decisions } = match read_recorded(alloc, task.rec.as_str(), files, wrong) {
        Ok(replayed) => replayed,
        Err(refusal) => return Err(RunStop::Refused(refusal)),
    };
    let Ok(analysis) = study_replayed(team, alloc, task, &rec, decisions, gate) else {
        return Err(RunStop::Refused(Refusal::Memory));
    };
    match write_shown(out, task.shown, task.board, &rec, &analysis) {
        Ok(()) => Ok(()),
        Err(Failed) => Err(RunStop::NotWritten),
    }
}
