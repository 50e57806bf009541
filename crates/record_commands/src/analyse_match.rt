ghost use Rattle.std.specs.Prelude.{◌≡◌, ◌≤◌, ◌<◌, ◌↔◌, All, IfErr, IfOk, IfSome, IsTrue, None, Some, Err, length, true};
ghost use Rattle.hyper_outside.specs.Causes.{Rose};
ghost use Rattle.outside_log.specs.Log.{standing};
ghost use Rattle.outside_log.specs.Readings.{ReadsOn, is_faithful, read_faults};
ghost use Rattle.equity_report.specs.declared.refusal.Refusal.TheVariants.{Read};
ghost use Rattle.game_record.specs.RightDecisions.{IsRightDecision};
ghost use Rattle.game_record.specs.Turns.{has_match};
ghost use Rattle.record_study.specs.Keeping.{IsDecisionInMatch, decisions_in};
ghost use Rattle.run_endings.specs.Endings.{IsOfShowing};
ghost use Rattle.run_endings.specs.Scores.{score_file};
ghost use Rattle.record_commands.specs.ByFile.{AnswersFile, AnswersFileOf};
ghost use Rattle.record_commands.specs.MatchAnalyses.{AnswersChecks, AnswersMatch, AnswersScores, HasNoNewScore, game_at, score_there};
ghost use Rattle.record_commands.specs.Records.{match_length};

use crate::by_file::{judge_by, open_for};
use crate::record::match_length;
use cube_actions::{Score, StakesName};
use database_file::PagedBase;
use equity_report::{GameName, Refusal};
use game_record::{Decision, Record};
use match_scores::enclosing_starts_bound_the_payoffs;
use outside_log::Files;
use record_analysis::{Analysis, right_decisions_can_be_judged};
use run_endings::score_file;
use std::alloc::Global;

/// The game of a record's match at a score.
fn game_at(rec: &Record, score: Score) -> GameName
    ensures { result ≡ game_at rec.now score }
{
    GameName {
        checkers: rec.checkers,
        stakes: StakesName::Match(score),
        match_length: match_length(rec.stakes),
    }
}

/// Whether two decisions were made in games with the same score.
fn is_like(one: &Decision, other: &Decision) -> bool
    ensures { IsTrue result ↔ one.now.score ≡ other.now.score }
{
    one.score == other.score
}

/// The score of the game of the decision at a place, unless the decision before it has the same.
fn new_score(analysis: &Analysis, place: usize) -> Option<Score>
    requires { place < length analysis.now }
    ensures own { IfSome result (λ score.
        score_there (decisions_in analysis.now) place ≡ Some score) }
    ensures none { result ≡ None → HasNoNewScore (decisions_in analysis.now) place }
{
    let decision = analysis.decision(place);
    if place > 0 && is_like(analysis.decision(place - 1), decision) {
        return None;
    }
    decision.score
}

/// Opens the file of a score, which is to be of the record's match at this score.
fn open_at<F: Files>(
    alloc: Global,
    prefix: &str,
    rec: &Record,
    score: Score,
    files: &mut F,
) -> Result<PagedBase, Refusal>
    requires { length prefix.now ≤ 255 }
    ensures told { IsTrue (is_faithful (F.log files.new))
        → AnswersFileOf (game_at rec.now score) (score_file prefix.now score)
        (standing (F.log files.old) (score_file prefix.now score)) result }
    ensures reads { ReadsOn (F.log files.old) (F.log files.new) }
    ensures later { read_faults (F.log files.old) ≤ read_faults (F.log files.new) }
    ensures cause { result ≡ Err Read
        → Rose (read_faults (F.log files.old)) (read_faults (F.log files.new)) }
    ensures kinds { IfErr result IsOfShowing }
{
    let name = score_file(prefix, score);
    open_for(alloc, name.as_str(), game_at(rec, score), files)
}

/// Looks at what stands before the pages of the files of all scores at which decisions were made, those of the first games first.
fn check_files<F: Files>(
    alloc: Global,
    prefix: &str,
    rec: &Record,
    analysis: &Analysis,
    files: &mut F,
) -> Result<(), Refusal>
    requires { length prefix.now ≤ 255 }
    ensures told { IsTrue (is_faithful (F.log files.new))
        → AnswersChecks prefix.now rec.now (decisions_in analysis.now)
        (standing (F.log files.old)) result }
    ensures reads { ReadsOn (F.log files.old) (F.log files.new) }
    ensures later { read_faults (F.log files.old) ≤ read_faults (F.log files.new) }
    ensures cause { result ≡ Err Read
        → Rose (read_faults (F.log files.old)) (read_faults (F.log files.new)) }
    ensures kinds { IfErr result IsOfShowing }
{
    for place in 0..analysis.len() {
        let Some(score) = new_score(analysis, place) else {
            continue;
        };
        // Only whether it can be opened matters: no page is looked at before all fronts were.
        match open_at(alloc, prefix, rec, score, files) {
            Ok(_base) => {}
            Err(refusal) => return Err(refusal),
        }
    }
    Ok(())
}

/// Sets what the decisions at a score lose by its file.
fn judge_at<F: Files>(
    alloc: Global,
    prefix: &str,
    rec: &Record,
    score: Score,
    analysis: &mut Analysis,
    files: &mut F,
) -> Result<(), Refusal>
    requires prefix { length prefix.now ≤ 255 }
    requires decisions { All (λ one.
        IsDecisionInMatch rec.now.checkers (match_length rec.now.stakes) one.decision)
        analysis.old }
    ensures told { IsTrue (is_faithful (F.log files.new))
        → AnswersFile (game_at rec.now score) (score_file prefix.now score) (Some score)
        (standing (F.log files.old) (score_file prefix.now score))
        analysis.old analysis.new result }
    ensures decisions { decisions_in analysis.new ≡ decisions_in analysis.old }
    ensures reads { ReadsOn (F.log files.old) (F.log files.new) }
    ensures later { read_faults (F.log files.old) ≤ read_faults (F.log files.new) }
    ensures cause { result ≡ Err Read
        → Rose (read_faults (F.log files.old)) (read_faults (F.log files.new)) }
    ensures kinds { IfErr result IsOfShowing }
{
    let name = score_file(prefix, score);
    judge_by(
        alloc,
        name.as_str(),
        game_at(rec, score),
        Some(score),
        analysis,
        files,
    )
}

/// Sets what all decisions lose by the files of their scores, those of the first games first.
fn judge_scores<F: Files>(
    alloc: Global,
    prefix: &str,
    rec: &Record,
    analysis: &mut Analysis,
    files: &mut F,
) -> Result<(), Refusal>
    requires prefix { length prefix.now ≤ 255 }
    requires decisions { All (λ one.
        IsDecisionInMatch rec.now.checkers (match_length rec.now.stakes) one.decision)
        analysis.old }
    ensures told { IsTrue (is_faithful (F.log files.new))
        → AnswersScores prefix.now rec.now (decisions_in analysis.old)
        (standing (F.log files.old)) analysis.new result }
    ensures decisions { decisions_in analysis.new ≡ decisions_in analysis.old }
    ensures reads { ReadsOn (F.log files.old) (F.log files.new) }
    ensures later { read_faults (F.log files.old) ≤ read_faults (F.log files.new) }
    ensures cause { result ≡ Err Read
        → Rose (read_faults (F.log files.old)) (read_faults (F.log files.new)) }
    ensures kinds { IfErr result IsOfShowing }
{
    for place in 0..analysis.len() {
        let Some(score) = new_score(analysis, place) else {
            continue;
        };
        match judge_at(alloc, prefix, rec, score, analysis, files) {
            Ok(()) => {}
            Err(refusal) => return Err(refusal),
        }
    }
    Ok(())
}

/// What the decisions of a record of a match lose by the files of its scores, or what refuses that.
pub(crate) fn judge_match<F: Files>(
    alloc: Global,
    prefix: &str,
    rec: &Record,
    mut analysis: Analysis,
    files: &mut F,
) -> Result<Analysis, Refusal>
    requires prefix { length prefix.now ≤ 255 }
    requires right { All (IsRightDecision rec.now) (decisions_in analysis) }
    requires in_match { has_match rec.now.stakes ≡ true }
    ensures told { IsTrue (is_faithful (F.log files.new))
        → AnswersMatch prefix.now rec.now (decisions_in analysis)
        (standing (F.log files.old)) result }
    ensures reads { ReadsOn (F.log files.old) (F.log files.new) }
    ensures cause { result ≡ Err Read
        → Rose (read_faults (F.log files.old)) (read_faults (F.log files.new)) }
    ensures kinds { IfErr result IsOfShowing }
    ensures decisions { IfOk result (λ list. decisions_in list ≡ decisions_in analysis) }
{
    right_decisions_can_be_judged();
    enclosing_starts_bound_the_payoffs();
    match check_files(alloc, prefix, rec, &analysis, files) {
        Ok(()) => {}
        Err(refusal) => return Err(refusal),
    }
    match judge_scores(alloc, prefix, rec, &mut analysis, files) {
        Ok(()) => Ok(analysis),
        Err(refusal) => Err(refusal),
    }
}
