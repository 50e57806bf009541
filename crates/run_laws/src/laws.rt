ghost use Rattle.std.specs.Prelude.{◌≡◌, ◌<◌, ℕ, List, Option, Some, Ok, false, true};
ghost use Rattle.outside_log.specs.Files.{Contents};
ghost use Rattle.game_record.specs.Turns.{has_match};
ghost use Rattle.outside_log.specs.Log.{Event, standing};
ghost use Rattle.outside_log.specs.Sink.{Output};
ghost use Rattle.word_pages.specs.declared.version.Version.TheVariants.{Three};
ghost use Rattle.equity_report.specs.declared.refusal.Refusal.{Refusal};
ghost use Rattle.command_line.specs.declared.command.Advise.{Advise};
ghost use Rattle.command_line.specs.declared.command.Analyse.{Analyse};
ghost use Rattle.command_line.specs.declared.command.Command.{Command};
ghost use Rattle.command_line.specs.declared.command.Command.TheVariants.{Analyse as ToAnalyse, Study as ToStudy};
ghost use Rattle.command_line.specs.declared.command.Ladder.{Ladder};
ghost use Rattle.command_line.specs.declared.command.Solve.{Solve};
ghost use Rattle.game_record.specs.declared.record.RecordStakes.TheVariants.{Match};
ghost use Rattle.solve_commands.specs.Ladders.{HasSolvedLadder, scores_in};
ghost use Rattle.command_line.specs.Right.{IsRightCommand, IsRightLadder, IsRightSolve};
ghost use Rattle.run_endings.specs.Endings.{Ending, IsOutside, IsPut};
ghost use Rattle.run_endings.specs.Loads.{game_told};
ghost use Rattle.run_endings.specs.Pages.{OfHeld};
ghost use Rattle.command_line.specs.declared.command.Make.{Make};
ghost use Rattle.command_line.specs.declared.command.Study.{Study};
ghost use Rattle.record_commands.specs.Makes.{HasMade};
ghost use Rattle.record_commands.specs.Records.{HoldsRecord, game_recorded, report_shown};
ghost use Rattle.record_commands.specs.declared.record.Replayed.{Replayed};
ghost use Rattle.solve_commands.specs.Solves.{HasSolved, head_of};
ghost use Rattle.base_commands.specs.Advises.{HasAdvised};
ghost use Rattle.whole_file_commands.specs.Plans.{HasPlanned, first_file};
ghost use Rattle.command_line.specs.declared.command.Plan.{Plan};
ghost use Rattle.whole_file_commands.specs.Verifies.{MayRefuseVerifying};
ghost use Rattle.run_laws.specs.Headline.{HoldLadder, PrintsGoodAdvice, PrintsTrueLosses, PrintsTrueMatch, PrintsTruePlan, ladder_file, ladder_head};
ghost use Rattle.top_call.specs.Outcomes.{RunsAsAsked};
ghost use Rattle.run_laws.specs.RightRuns.{AreAnswered, IsDoneUnlessHindered, IsRightFor};
ghost use Rattle.run_laws.specs.SolvedFiles.{AsksOf, file_read};
ghost use Rattle.record_commands.specs.Analyses.{HasAnalysed};

use crate::right_files::right_files_are_not_refused;
use crate::right_records::{
    files_with_right_pages_can_judge, held_records_are_right, printed_records_are_held,
    right_records_are_not_refused,
};
use cube_actions::ladders_are_exact;
use database_file::texts_are_read_back;

/// Every play or cube action advised from the file that solve wrote loses at most its printed bound.
///
/// One run solved a game and ended with 0; another was asked for advice, ended with 0, and found under the file's name what the log of the
/// first tells. What `run` ensures of either is what stands before the last arrow.
pub fn advice_from_a_solved_file_loses_at_most_its_printed_bounds()
    ensures { (solve : Solve) (advise : Advise) (before after : List Event)
        (put_before put_after old new : Output)
        → IsRightSolve solve
        → (solved : HasSolved solve before after put_before put_after)
        → HasAdvised advise true (standing after solve.file) (λ text. IsPut old new text)
        → PrintsGoodAdvice (head_of solve solved.words.rounds) advise
        (λ text. IsPut old new text) }
{
    texts_are_read_back();
}

/// What a solve wrote is consistent. So where a file still holds what `solve` wrote that ended with 0, and all answers were faithful, `verify`
/// of it ends with 0, or with 6, 7 or 8: what refuses it is that reading failed or that there was no memory.
pub fn solved_files_are_consistent()
    ensures { (task : Solve) (before after : List Event)
        (put_before put_after : Output) (refusal : Refusal)
        → IsRightSolve task → HasSolved task before after put_before put_after
        → MayRefuseVerifying Three task.file true (standing after task.file) refusal
        → IsOutside refusal }
{
    texts_are_read_back();
}

/// The losses that `analyse` prints of a recorded game outside a match, by a file that `solve` wrote, enclose what its decisions lose exactly in
/// the game that was solved, from one number of turns on for all of them.
pub fn analyses_by_a_solved_file_are_true()
    ensures { (solve : Solve) (analyse : Analyse) (held : Contents) (before after : List Event)
        (put_before put_after old new : Output)
        → IsRightSolve solve → (solved : HasSolved solve before after put_before put_after)
        → held analyse.base ≡ standing after solve.file
        → (analysed : HasAnalysed analyse true held (λ text. IsPut old new text))
        → has_match analysed.analysed.replayed.rec.stakes ≡ false
        → PrintsTrueLosses (head_of solve solved.words.rounds)
        (report_shown analyse.shown analyse.board analysed.analysed.replayed.rec.stakes)
        (λ text. IsPut old new text) }
{
    texts_are_read_back();
}

/// The losses that `analyse` prints of a recorded match, by the files that `ladder` wrote of all its scores, enclose what its decisions lose exactly
/// with the payoffs of the match, from one number of turns on for all its games.
pub fn analyses_by_a_solved_match_are_true()
    ensures { (ladder : Ladder) (analyse : Analyse) (held : Contents) (before after : List Event)
        (put_before put_after old new : Output)
        → IsRightLadder ladder
        → (solved : HasSolvedLadder ladder before after put_before put_after)
        → HoldLadder ladder solved.starts solved.scores.scores held
        → analyse.base ≡ ladder.prefix
        → (analysed : HasAnalysed analyse true held (λ text. IsPut old new text))
        → analysed.analysed.replayed.rec.stakes ≡ Match ladder.match_length
        → PrintsTrueMatch analysed.analysed.replayed.rec.checkers
        (report_shown analyse.shown analyse.board analysed.analysed.replayed.rec.stakes)
        (λ text. IsPut old new text) }
{
    texts_are_read_back();
    ladders_are_exact();
    held_records_are_right();
}

/// Every play or cube action advised from the file that `ladder` wrote of a score loses at most its printed bound, for the stakes that the start
/// pairs of the scores before it give.
pub fn advice_at_a_solved_score_loses_at_most_its_printed_bounds()
    ensures { (ladder : Ladder) (advise : Advise) (before after : List Event)
        (put_before put_after old new : Output) (held : Option (List ℕ))
        (solved : HasSolvedLadder ladder before after put_before put_after) (place : ℕ)
        → place < scores_in ladder
        → held ≡ Some (ladder_file ladder solved.starts solved.scores.scores place)
        → HasAdvised advise true held (λ text. IsPut old new text)
        → PrintsGoodAdvice (ladder_head ladder solved.starts place) advise
        (λ text. IsPut old new text) }
{
    texts_are_read_back();
}

/// So is each file that `ladder` wrote of a score.
pub fn files_of_a_solved_match_are_consistent()
    ensures { (ladder : Ladder) (before after : List Event) (put_before put_after : Output)
        (name : List ℕ) (held : Option (List ℕ)) (refusal : Refusal)
        (solved : HasSolvedLadder ladder before after put_before put_after) (place : ℕ)
        → place < scores_in ladder
        → held ≡ Some (ladder_file ladder solved.starts solved.scores.scores place)
        → MayRefuseVerifying Three name true held refusal
        → IsOutside refusal }
{
    texts_are_read_back();
}

/// The take points and gammon prices that `plan` prints by the files that `ladder` wrote enclose, from one number of turns on, those of the match
/// itself.
pub fn plans_by_a_solved_match_are_true()
    ensures { (ladder : Ladder) (plan : Plan) (held : Contents) (before after : List Event)
        (put_before put_after old new : Output)
        → IsRightLadder ladder
        → (solved : HasSolvedLadder ladder before after put_before put_after)
        → HoldLadder ladder solved.starts solved.scores.scores held
        → plan.prefix ≡ ladder.prefix → plan.match_length ≡ ladder.match_length
        → HasPlanned plan true (held (first_file plan)) (λ text. IsPut old new text)
        → PrintsTruePlan ladder.checkers (λ text. IsPut old new text) }
{
    texts_are_read_back();
}

/// A run whose words are right, and that finds what is right for them under its names, is done. Where each call was answered what stood
/// there and none that reads failed, it ends with 0, or with 7 where writing failed, or with 8 where there was no memory: it is
/// refused for no other cause.
pub fn right_runs_are_done()
    ensures { (command : Command) (before after : List Event) (old new : Output)
        (status : ℕ) (ending : Ending)
        → AreAnswered before after → IsRightFor command (standing before)
        → RunsAsAsked (Ok command) before after old new status ending
        → IsDoneUnlessHindered before after old new status }
{
    right_files_are_not_refused();
    right_records_are_not_refused();
}

/// What `solve` wrote is right for each command that reads one file of bounds and asks for what its game has: a position of its checkers,
/// a kind of its states, the text of a condition, a new name that may be written. So by the law above such a run over it is done.
pub fn solved_files_are_right()
    ensures { (solve : Solve) (before after : List Event) (put_before put_after : Output)
        → IsRightSolve solve → (solved : HasSolved solve before after put_before put_after)
        → (command : Command) (held : Contents) → IsRightCommand command
        → AsksOf (head_of solve solved.words.rounds) held command
        → held (file_read command) ≡ standing after solve.file
        → IsRightFor command held }
{
    texts_are_read_back();
}

/// So is each file that `ladder` wrote of a score, that of the first game of the match for `plan` too.
pub fn files_of_a_solved_match_are_right()
    ensures { (ladder : Ladder) (before after : List Event) (put_before put_after : Output)
        (solved : HasSolvedLadder ladder before after put_before put_after) (place : ℕ)
        → place < scores_in ladder
        → (command : Command) (held : Contents) → IsRightCommand command
        → AsksOf (ladder_head ladder solved.starts place) held command
        → held (file_read command)
        ≡ Some (ladder_file ladder solved.starts solved.scores.scores place)
        → IsRightFor command held }
{
    texts_are_read_back();
}

/// It is right for `analyse` of a record of the same game outside a match, which breaks no rule.
pub fn records_are_analysed_by_a_solved_file()
    ensures { (solve : Solve) (analyse : Analyse) (held : Contents) (before after : List Event)
        (put_before put_after : Output) (replayed : Replayed)
        → IsRightSolve solve → (solved : HasSolved solve before after put_before put_after)
        → held analyse.base ≡ standing after solve.file
        → OfHeld (held analyse.rec) (λ bytes. HoldsRecord bytes replayed)
        → has_match replayed.rec.stakes ≡ false
        → game_recorded replayed.rec ≡ game_told (head_of solve solved.words.rounds)
        → IsRightFor (ToAnalyse analyse) held }
{
    texts_are_read_back();
    files_with_right_pages_can_judge();
    held_records_are_right();
}

/// So are the files that `ladder` wrote of all scores, for a record of a match to as many points, with as many checkers.
pub fn records_are_analysed_by_a_solved_match()
    ensures { (ladder : Ladder) (analyse : Analyse) (held : Contents) (before after : List Event)
        (put_before put_after : Output) (replayed : Replayed)
        → IsRightLadder ladder
        → (solved : HasSolvedLadder ladder before after put_before put_after)
        → HoldLadder ladder solved.starts solved.scores.scores held
        → analyse.base ≡ ladder.prefix
        → OfHeld (held analyse.rec) (λ bytes. HoldsRecord bytes replayed)
        → replayed.rec.stakes ≡ Match ladder.match_length
        → replayed.rec.checkers ≡ ladder.checkers
        → IsRightFor (ToAnalyse analyse) held }
{
    texts_are_read_back();
    files_with_right_pages_can_judge();
    held_records_are_right();
    ladders_are_exact();
}

/// What `make` wrote holds a record that breaks no rule, and so is right for `study`.
pub fn made_records_are_right()
    ensures { (make : Make) (study : Study) (held : Contents) (before after : List Event)
        (put_before put_after : Output)
        → HasMade make before after put_before put_after
        → held study.rec ≡ standing after make.file
        → IsRightFor (ToStudy study) held }
{
    printed_records_are_held();
}
