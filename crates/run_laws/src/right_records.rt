ghost use Rattle.std.specs.Prelude.{◌≡◌, ◌+◌, ℕ, List, All, Option, false, length, true};
ghost use Rattle.std.specs.List.{range_with_len};
ghost use Rattle.outside_log.specs.Files.{Contents};
ghost use Rattle.cube_actions.specs.Ladder.{IsOfMatch};
ghost use Rattle.cube_actions.specs.Scores.{MatchScore};
ghost use Rattle.game_record.specs.Lines.{record_lines};
ghost use Rattle.record_text.specs.Texts.{IsRecordText};
ghost use Rattle.game_record.specs.Replay.{IsReplay};
ghost use Rattle.game_record.specs.RightDecisions.{IsRightDecision};
ghost use Rattle.game_record.specs.Turns.{has_match};
ghost use Rattle.game_record.specs.declared.decision.Decision.{Decision};
ghost use Rattle.game_record.specs.declared.record.Record.{Record as RecordRead};
ghost use Rattle.game_record.specs.declared.record.RecordStakes.TheVariants.{Match};
ghost use Rattle.command_line.specs.declared.command.Analyse.{Analyse as AnalyseTask};
ghost use Rattle.command_line.specs.declared.command.Study.{Study as StudyTask};
ghost use Rattle.equity_report.specs.declared.refusal.Refusal.{Refusal};
ghost use Rattle.run_endings.specs.Endings.{IsOutside};
ghost use Rattle.run_endings.specs.Pages.{OfHeld};
ghost use Rattle.run_endings.specs.Scores.{score_file};
ghost use Rattle.plain_record.specs.Plain.{line_numbers, plain_text};
ghost use Rattle.record_commands.specs.Analyses.{MayRefuseAnalysis};
ghost use Rattle.record_commands.specs.MatchAnalyses.{game_at};
ghost use Rattle.record_commands.specs.Records.{HoldsRecord, IsRightReplayed, game_recorded};
ghost use Rattle.record_commands.specs.declared.record.Replayed.{Replayed as RecordReplayed};
ghost use Rattle.run_laws.specs.RightRecords.{CanJudgeAll, CanJudgeAtScore, HasRightPages, IsRightForAnalysing, IsRightForStudying};
ghost use Rattle.record_commands.specs.Studies.{MayRefuseStudy};

use game_record::{
    decisions_are_right, records_have_few_decisions, records_tell_their_decisions,
    replays_break_no_rule,
};
use plain_record::plain_lines_stay;
use record_analysis::right_decisions_can_be_judged;
use record_text::{record_texts_have_no_fault, texts_tell_records};

/// Where the file of a record is there and its record breaks no rule, and all answers were faithful, `study` is refused only where
/// reading failed or there was no memory; and so is `analyse`, where its decisions can be judged: outside a match by a file of the
/// record's game, and in a match by the files of its scores, which are right up to their pages and on the pages on which the losses rest.
pub fn right_records_are_not_refused()
    ensures study { (task : StudyTask) (held : Option (List ℕ)) (refusal : Refusal)
        → IsRightForStudying task held → MayRefuseStudy task true held refusal
        → IsOutside refusal }
    ensures analyse { (task : AnalyseTask) (held : Contents) (refusal : Refusal)
        → IsRightForAnalysing task held → MayRefuseAnalysis task true held refusal
        → IsOutside refusal }
{
    record_texts_have_no_fault();
    texts_tell_records();
    records_tell_their_decisions();
    replays_break_no_rule();
}

/// A file of a record's game with right pages can judge right decisions of the record, and so can, in a match, such files of its scores.
pub fn files_with_right_pages_can_judge()
    ensures plain { (rec : RecordRead) (decisions : List Decision) (bytes : List ℕ)
        → All (IsRightDecision rec) decisions → has_match rec.stakes ≡ false
        → HasRightPages (game_recorded rec) bytes
        → CanJudgeAll (game_recorded rec) decisions bytes }
    ensures scores { (prefix : List ℕ) (rec : RecordRead) (decisions : List Decision)
        (held : Contents) (points : ℕ)
        → All (IsRightDecision rec) decisions → rec.stakes ≡ Match points
        → ((score : MatchScore) → IsOfMatch points score
        → OfHeld (held (score_file prefix score)) (HasRightPages (game_at rec score)))
        → All (CanJudgeAtScore prefix rec held) decisions }
{
    right_decisions_can_be_judged();
}

/// A text that holds a record gives no decisions but such as could be made, and not too many.
pub fn held_records_are_right()
    ensures { (bytes : List ℕ) (replayed : RecordReplayed)
        → HoldsRecord bytes replayed → IsRightReplayed replayed }
{
    decisions_are_right();
    records_have_few_decisions();
}

/// The text of a record is read as itself, with the same lines; so where it breaks no rule, a file with this text holds it.
pub fn printed_records_are_held()
    ensures text { (text : List ℕ) (rec : RecordRead) → IsRecordText text rec
        → plain_text text ≡ text }
    ensures lines { (text : List ℕ) (rec : RecordRead) → IsRecordText text rec
        → line_numbers text ≡ range_with_len 0 (length (record_lines rec) + 2) }
    ensures held { (text : List ℕ) (rec : RecordRead) (told : List Decision)
        → IsRecordText text rec → IsReplay rec told
        → HoldsRecord text (record { rec = rec; decisions = told }) }
{
    plain_lines_stay();
}
