ghost use Rattle.std.specs.Prelude.{◌≡◌, ◌≤◌, IsTrue, All, false, IfErr, IfOk, Err, length};
ghost use Rattle.hyper_outside.specs.Causes.{Rose};
ghost use Rattle.outside_log.specs.Log.{standing};
ghost use Rattle.outside_log.specs.Readings.{ReadsOn, is_faithful, read_faults};
ghost use Rattle.game_record.specs.Lines.{IsRecord};
ghost use Rattle.game_record.specs.RightDecisions.{IsRightDecision};
ghost use Rattle.game_record.specs.Turns.{has_match};
ghost use Rattle.record_study.specs.Keeping.{decisions_in};
ghost use Rattle.equity_report.specs.declared.refusal.Refusal.TheVariants.{Read};
ghost use Rattle.command_line.specs.Right.{IsRightAnalyse};
ghost use Rattle.run_endings.specs.Endings.{EndsBy, IsOfAnalysing, IsOfShowing};
ghost use Rattle.run_endings.specs.declared.ending.RunStop.TheVariants.{Refused};
ghost use Rattle.record_commands.specs.Analyses.{AnswersJudging, AnswersPlain, TellsAnalysis};
ghost use Rattle.record_commands.specs.Records.{IsRightReplayed};

use crate::analyse_match::judge_match;
use crate::by_file::judge_by;
use crate::record::{Replayed, game_recorded, read_recorded};
use crate::shown::write_shown;
use command_line::Analyse;
use equity_report::Refusal;
use game_record::{Decisions, Record};
use hyper_outside::Failed;
use outside_log::{Files, Sink};
use plain_record::LineFront;
use record_analysis::{Analysis, analyses_enclose_what_is_lost, right_decisions_can_be_judged};
use run_endings::RunStop;
use std::alloc::Global;

/// What the decisions of a record outside a match lose by the file of its game, or what refuses that.
fn judge_plain<F: Files>(
    alloc: Global,
    name: &str,
    rec: &Record,
    mut analysis: Analysis,
    files: &mut F,
) -> Result<Analysis, Refusal>
    requires name { length name.now ≤ 255 }
    requires valid { IsRecord rec.now }
    requires right { All (IsRightDecision rec.now) (decisions_in analysis) }
    requires plain { has_match rec.now.stakes ≡ false }
    ensures told { IsTrue (is_faithful (F.log files.new))
        → AnswersPlain name.now rec.now (decisions_in analysis)
        (standing (F.log files.old) name.now) result }
    ensures reads { ReadsOn (F.log files.old) (F.log files.new) }
    ensures cause { result ≡ Err Read
        → Rose (read_faults (F.log files.old)) (read_faults (F.log files.new)) }
    ensures kinds { IfErr result IsOfShowing }
    ensures decisions { IfOk result (λ list. decisions_in list ≡ decisions_in analysis) }
{
    right_decisions_can_be_judged();
    analyses_enclose_what_is_lost();
    match judge_by(alloc, name, game_recorded(rec), None, &mut analysis, files) {
        Ok(()) => Ok(analysis),
        Err(refusal) => Err(refusal),
    }
}

/// What the decisions of a record lose by the file of its game, or in a match by the files of its scores, or what refuses that.
fn judge_replayed<F: Files>(
    alloc: Global,
    name: &str,
    rec: &Record,
    decisions: Decisions,
    files: &mut F,
) -> Result<Analysis, Refusal>
    requires name { length name.now ≤ 255 }
    requires right { IsRightReplayed (record { rec = rec.now; decisions = decisions }) }
    ensures told { IsTrue (is_faithful (F.log files.new))
        → AnswersJudging name.now (record { rec = rec.now; decisions = decisions })
        (standing (F.log files.old)) result }
    ensures reads { ReadsOn (F.log files.old) (F.log files.new) }
    ensures cause { result ≡ Err Read
        → Rose (read_faults (F.log files.old)) (read_faults (F.log files.new)) }
    ensures kinds { IfErr result IsOfShowing }
    ensures right { IfOk result (All (λ one. IsRightDecision rec.now one.decision)) }
{
    let Ok(analysis) = Analysis::new(alloc, decisions) else {
        return Err(Refusal::Memory);
    };
    if rec.stakes.is_match() {
        judge_match(alloc, name, rec, analysis, files)
    } else {
        judge_plain(alloc, name, rec, analysis, files)
    }
}

/// Puts what each decision of a recorded game loses, or those that lost most, by a file of bounds of its game or in a match by those of its
/// scores, and each player's total. It is refused where a file can't be had, a line of the record is wrong, whose first bytes are kept, a file is
/// of another game, or there is no memory.
pub fn run_analyse<F: Files, O: Sink>(
    alloc: Global,
    task: &Analyse,
    files: &mut F,
    out: &mut O,
    wrong: &mut LineFront,
) -> Result<(), RunStop>
    requires { IsRightAnalyse task.now }
    ensures ends { EndsBy IsOfAnalysing result }
    ensures tells { TellsAnalysis task.now (is_faithful (F.log files.new))
        (standing (F.log files.old)) (O.output out.old) (O.output out.new) result }
    ensures read_cause { result ≡ Err (Refused Read)
        → Rose (read_faults (F.log files.old)) (read_faults (F.log files.new)) }
    ensures reads { ReadsOn (F.log files.old) (F.log files.new) }
{
    let Replayed { rec, decisions } = match read_recorded(alloc, task.rec.as_str(), files, wrong) {
        Ok(replayed) => replayed,
        Err(refusal) => return Err(RunStop::Refused(refusal)),
    };
    let analysis = match judge_replayed(alloc, task.base.as_str(), &rec, decisions, files) {
        Ok(analysis) => analysis,
        Err(refusal) => return Err(RunStop::Refused(refusal)),
    };
    match write_shown(out, task.shown, task.board, &rec, &analysis) {
        Ok(()) => Ok(()),
        Err(Failed) => Err(RunStop::NotWritten),
    }
}
