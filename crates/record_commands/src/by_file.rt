ghost use Rattle.std.specs.Prelude.{◌≡◌, ◌≤◌, ◌↔◌, All, IsTrue, IfErr, IfOk, Err, length};
ghost use Rattle.hyper_outside.specs.Causes.{Rose};
ghost use Rattle.hyper_outside.specs.declared.outside.LookStop.TheVariants.{ReadFault};
ghost use Rattle.outside_log.specs.Log.{standing};
ghost use Rattle.outside_log.specs.Readings.{ReadsOn, is_faithful, read_faults};
ghost use Rattle.turn_rule.specs.Games.{IsGame};
ghost use Rattle.database_file.specs.Paged.{KeepsPagesOf};
ghost use Rattle.database_file.specs.Texts.{game_in};
ghost use Rattle.record_analysis.specs.Judging.{IsAt};
ghost use Rattle.record_analysis.specs.Truth.{IsDecisionOf};
ghost use Rattle.record_study.specs.Keeping.{decisions_in};
ghost use Rattle.equity_report.specs.declared.refusal.Refusal.TheVariants.{Read};
ghost use Rattle.run_endings.specs.Loads.{game_told};
ghost use Rattle.run_endings.specs.Endings.{IsOfShowing};
ghost use Rattle.record_commands.specs.ByFile.{AnswersFile, AnswersFileOf, AnswersLooking, IsDecisionFor};

use cube_actions::Score;
use database_file::PagedBase;
use equity_report::{GameName, Refusal, Wanted};
use hyper_outside::LookStop;
use outside_log::Files;
use play_analyser::one_list_gives_the_loss;
use record_analysis::Analysis;
use run_endings::{game_told, look_refusal, open_file};
use std::alloc::Global;

/// Whether this is the game that is wanted.
fn is_wanted(found: &GameName, wanted: &GameName) -> bool
    ensures { IsTrue result ↔ found.now ≡ wanted.now }
{
    *found == *wanted
}

/// Opens a file of bounds, which is to be of this game. (Outside a match the length of a head's match is 1, as a record's is.)
pub(crate) fn open_for<F: Files>(
    alloc: Global,
    name: &str,
    wanted: GameName,
    files: &mut F,
) -> Result<PagedBase, Refusal>
    requires { length name.now ≤ 272 }
    ensures told { IsTrue (is_faithful (F.log files.new))
        → AnswersFileOf wanted name.now (standing (F.log files.old) name.now) result }
    ensures game { IfOk result (λ base. game_told base.head ≡ wanted) }
    ensures right { IfOk result (λ base. IsGame (game_in base.head)) }
    ensures name { IfOk result (λ base. base.name ≡ name.now) }
    ensures of_file { IfOk result (λ base. KeepsPagesOf base (F.log files.new)) }
    ensures reads { ReadsOn (F.log files.old) (F.log files.new) }
    ensures later { read_faults (F.log files.old) ≤ read_faults (F.log files.new) }
    ensures cause { result ≡ Err Read
        → Rose (read_faults (F.log files.old)) (read_faults (F.log files.new)) }
    ensures kinds { IfErr result IsOfShowing }
{
    let base = match open_file(alloc, name, files) {
        Ok(base) => base,
        Err(refusal) => return Err(refusal),
    };
    let found = game_told(base.head());
    // The head is right, and so are its stakes.
    let _ = (base.head().checkers(), base.head().stakes().bound());
    if is_wanted(&found, &wanted) {
        Ok(base)
    } else {
        Err(Refusal::Base {
            wanted: Wanted::Fits(wanted),
            found,
        })
    }
}

/// What the decisions at a score lose by the words of their game; outside a match there is no score.
fn judge_in<F: Files>(
    base: &mut PagedBase,
    files: &mut F,
    score: Option<Score>,
    analysis: &mut Analysis,
) -> Result<(), LookStop>
    requires right { IsGame (game_in base.old.head) }
    requires of_file { KeepsPagesOf base.old (F.log files.old) }
    requires decisions { All (λ one.
        IsAt score one → IsDecisionOf (game_in base.old.head) one.decision) analysis.old }
    ensures told { IsTrue (is_faithful (F.log files.new))
        → AnswersLooking base.old (standing (F.log files.old) base.old.name)
        score analysis.old analysis.new result }
    ensures decisions { decisions_in analysis.new ≡ decisions_in analysis.old }
    ensures reads { ReadsOn (F.log files.old) (F.log files.new) }
    ensures later { read_faults (F.log files.old) ≤ read_faults (F.log files.new) }
    ensures cause { result ≡ Err ReadFault
        → Rose (read_faults (F.log files.old)) (read_faults (F.log files.new)) }
{
    let stakes = base.head().stakes();
    let mut reader = base.reader(files);
    analysis.judge(&stakes, score, &mut reader)
}

/// Sets what the decisions at a score lose by the file of their game; outside a match there is no score.
pub(crate) fn judge_by<F: Files>(
    alloc: Global,
    name: &str,
    wanted: GameName,
    score: Option<Score>,
    analysis: &mut Analysis,
    files: &mut F,
) -> Result<(), Refusal>
    requires name { length name.now ≤ 272 }
    requires decisions { All (λ one. IsAt score one → IsDecisionFor wanted one.decision)
        analysis.old }
    ensures told { IsTrue (is_faithful (F.log files.new))
        → AnswersFile wanted name.now score (standing (F.log files.old) name.now)
        analysis.old analysis.new result }
    ensures decisions { decisions_in analysis.new ≡ decisions_in analysis.old }
    ensures reads { ReadsOn (F.log files.old) (F.log files.new) }
    ensures later { read_faults (F.log files.old) ≤ read_faults (F.log files.new) }
    ensures cause { result ≡ Err Read
        → Rose (read_faults (F.log files.old)) (read_faults (F.log files.new)) }
    ensures kinds { IfErr result IsOfShowing }
{
    one_list_gives_the_loss();
    let mut base = match open_for(alloc, name, wanted, files) {
        Ok(base) => base,
        Err(refusal) => return Err(refusal),
    };
    match judge_in(&mut base, files, score, analysis) {
        Ok(()) => Ok(()),
        Err(stop) => Err(look_refusal(stop)),
    }
}
