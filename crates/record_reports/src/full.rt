ghost use Rattle.std.specs.Prelude.{◌≡◌, ◌≤◌, ◌++◌, ◌+◌, [], All, IfSome, Some, length, slice_get};
ghost use Rattle.std.specs.List.{flat_map};
ghost use Rattle.std.specs.Option.{option_map_or};
ghost use Rattle.cube_actions.specs.Ladder.{IsOfMatch};
ghost use Rattle.cube_actions.specs.Matches.{stakes_named};
ghost use Rattle.cube_actions.specs.Names.{names_of};
ghost use Rattle.cube_actions.specs.Scores.{MatchScore};
ghost use Rattle.cube_actions.specs.Starts.{Covers, StartPairs};
ghost use Rattle.game_record.specs.Kinds.{stakes_at};
ghost use Rattle.game_record.specs.Lines.{AreRecordStakes};
ghost use Rattle.game_record.specs.declared.record.RecordStakes.TheVariants.{Match};
ghost use Rattle.game_record.specs.RightDecisions.{IsRightDecision, IsScoreIn};
ghost use Rattle.outside_log.specs.Sink.{Puts};
ghost use Rattle.play_analyser.specs.Bests.{CanBeMade};
ghost use Rattle.record_analysis.specs.Analyses.{BestCanBeMade};
ghost use Rattle.record_reports.specs.Full.{advised_fields, best_text, chosen_fields, full_line, full_text, ends_fields, place_fields, score_told, state_fields};

use crate::analysis::{choice_text, put_totals};
use cube_actions::{KindName, Score, Stakes, Starts, ladder, ladders_are_exact};
use cube_text::{print_kind, print_score};
use directed_fixed::{Fixed, Pair};
use equity_report::{Report, add_number, answer_text, offer_text};
use game_record::{Decision, Record, RecordStakes};
use hyper_outside::Failed;
use outside_log::Sink;
use play_analyser::{Advised, Best};
use play_text::print_play;
use point_text::{print_down, print_up};
use position_board::board_told;
use position_rank::Position;
use position_text::print_position;
use record_analysis::{Analysis, Judged};
use turn_rule::Choice;

/// A pair for each score of a match: the names of kinds don't depend on what they are.
fn some_starts(match_length: u8) -> Starts
    requires { AreRecordStakes (Match match_length) }
    ensures { (score : MatchScore) → IsOfMatch match_length score → Covers result score }
{
    // So each score of the match has a place in its ladder.
    ladders_are_exact();
    let scores = ladder(match_length);
    let mut starts = Starts::new(match_length);
    for _score in scores.as_slice() {
        starts.add(Pair::exactly(Fixed::whole(0)));
    }
    starts
}

/// What a game of a match is played for at a score, where the scores after it are worth nothing.
fn match_stakes(match_length: u8, score: Option<Score>) -> Stakes
    requires points { AreRecordStakes (Match match_length) }
    requires score { IsScoreIn (Match match_length) score }
    ensures { (starts : StartPairs)
        × (result ≡ stakes_named (stakes_at (Match match_length) score) starts) }
{
    match score {
        Some(score) => Stakes::of_score(score, &some_starts(match_length)),
        // Each game of a match has a score.
        None => unreachable!(),
    }
}

/// What a game of a record is played for at a score, which only a match has.
fn stakes_scored(stakes: RecordStakes, score: Option<Score>) -> Stakes
    requires points { AreRecordStakes stakes }
    requires score { IsScoreIn stakes score }
    ensures { (starts : StartPairs) × (result ≡ stakes_named (stakes_at stakes score) starts) }
{
    match stakes {
        RecordStakes::Unlimited(rule) => Stakes::unlimited(rule),
        RecordStakes::Match(match_length) => match_stakes(match_length, score),
    }
}

/// The name of the kind of a decision's state.
fn kind_of(rec: &Record, decision: &Decision) -> KindName
    requires points { AreRecordStakes rec.now.stakes }
    requires right { IsRightDecision rec.now decision.now }
    ensures { slice_get (names_of (stakes_at rec.now.stakes decision.now.score)) decision.now.kind
        ≡ Some result }
{
    let stakes = stakes_scored(rec.stakes, decision.score);
    stakes.kind_name(decision.kind)
}

/// Adds where a decision stands in its record, whose it was and what was decided.
fn add_place(line: &mut Report, decision: &Decision)
    requires { length line.old.bytes ≤ 600 }
    ensures bytes { line.new.bytes ≡ line.old.bytes ++ place_fields decision.now }
    ensures length { length line.new.bytes ≤ length line.old.bytes + 100 }
{
    add_number(line, u64::from(decision.game));
    line.push_str("\t");
    add_number(line, u64::from(decision.line));
    line.push_str("\t");
    line.push_str(decision.player.letter());
    line.push_str("\t");
    line.push_str(choice_text(&decision.choice));
    line.push_str("\t");
}

fn add_score(line: &mut Report, score: Option<Score>)
    requires { length line.old.bytes ≤ 1000 }
    ensures bytes { line.new.bytes ≡ line.old.bytes ++ score_told score }
    ensures length { length line.new.bytes ≤ length line.old.bytes + 8 }
{
    match score {
        Some(score) => line.push_str(print_score(score).as_str()),
        None => line.push_str("-"),
    }
}

/// Adds the position, the kind of state and the score.
fn add_state(line: &mut Report, rec: &Record, decision: &Decision)
    requires points { AreRecordStakes rec.now.stakes }
    requires right { IsRightDecision rec.now decision.now }
    requires room { length line.old.bytes ≤ 700 }
    ensures bytes { line.new.bytes ≡ line.old.bytes ++ state_fields rec.now.stakes decision.now }
    ensures length { length line.new.bytes ≤ length line.old.bytes + 60 }
{
    line.push_str(print_position(&decision.position).as_str());
    line.push_str("\t");
    line.push_str(print_kind(kind_of(rec, decision)).as_str());
    line.push_str("\t");
    add_score(line, decision.score);
    line.push_str("\t");
}

/// Adds the roll and what was chosen.
fn add_chosen(line: &mut Report, choice: &Choice)
    requires { length line.old.bytes ≤ 800 }
    ensures bytes { line.new.bytes ≡ line.old.bytes ++ chosen_fields choice.now }
    ensures length { length line.new.bytes ≤ length line.old.bytes + 40 }
{
    match choice {
        Choice::Played { roll, end } => {
            line.push_str(roll.print().as_str());
            line.push_str("\t");
            line.push_str(print_position(end).as_str());
        }
        Choice::Offered(offer) => {
            line.push_str("-\t");
            line.push_str(offer_text(*offer));
        }
        Choice::Answered(answer) => {
            line.push_str("-\t");
            line.push_str(answer_text(*answer));
        }
    }
}

/// Adds both ends of a pair.
fn add_pair(line: &mut Report, pair: Pair)
    requires { length line.old.bytes ≤ 1500 }
    ensures bytes { line.new.bytes ≡ line.old.bytes ++ ends_fields pair }
    ensures length { length line.new.bytes ≤ length line.old.bytes + 70 }
{
    line.push_str("\t");
    line.push_str(print_down(pair.lower()).as_str());
    line.push_str("\t");
    line.push_str(print_up(pair.upper()).as_str());
}

/// Adds what is advised in a position.
fn add_advised(line: &mut Report, position: &Position, advised: &Advised)
    requires made { CanBeMade position.now advised.now }
    requires room { length line.old.bytes ≤ 1400 }
    ensures bytes { line.new.bytes ≡ line.old.bytes ++ best_text position.now advised.now }
    ensures length { length line.new.bytes ≤ length line.old.bytes + 48 }
{
    match advised {
        Advised::Play(moves) => line.push_str(print_play(position, &moves.play()).as_str()),
        Advised::Offer(offer) => line.push_str(offer_text(*offer)),
        Advised::Answer(answer) => line.push_str(answer_text(*answer)),
    }
}

/// Adds what was best and its pair, where that is known.
fn add_best(line: &mut Report, position: &Position, best: Option<Best>)
    requires made { IfSome best (λ best. CanBeMade position.now best.advised) }
    requires room { length line.old.bytes ≤ 1300 }
    ensures bytes { line.new.bytes
        ≡ line.old.bytes ++ option_map_or (advised_fields position.now) best [] }
    ensures length { length line.new.bytes ≤ length line.old.bytes + 120 }
{
    if let Some(best) = best {
        line.push_str("\t");
        add_advised(line, position, &best.advised);
        add_pair(line, best.pair);
    }
}

/// The line of a decision with its position and what was best, and before it the board where that is asked for. It is empty where the decision wasn't
/// judged.
fn line_in_full(board: bool, rec: &Record, judged: &Judged) -> Report
    requires points { AreRecordStakes rec.now.stakes }
    requires right { IsRightDecision rec.now judged.now.decision }
    requires made { BestCanBeMade judged.now }
    ensures { result.bytes ≡ full_line board rec.now.stakes judged.now }
{
    let mut line = Report::new();
    if let Some(loss) = judged.loss {
        let decision = &judged.decision;
        line.push_str(board_told(board, &decision.position).as_str());
        add_place(&mut line, decision);
        add_state(&mut line, rec, decision);
        add_chosen(&mut line, &decision.choice);
        add_pair(&mut line, loss);
        add_best(&mut line, &decision.position, judged.best);
        line.push_str("\n");
    }
    line
}

fn put_full<O: Sink>(out: &mut O, board: bool, rec: &Record, judged: &Judged) -> Result<(), Failed>
    requires points { AreRecordStakes rec.now.stakes }
    requires right { IsRightDecision rec.now judged.now.decision }
    requires made { BestCanBeMade judged.now }
    ensures { Puts (O.output out.old) (O.output out.new)
        (full_line board rec.now.stakes judged.now) result }
{
    out.put(line_in_full(board, rec, judged).as_str().as_bytes())
}

/// Puts the lines of some decisions with their positions.
pub(crate) fn put_all<O: Sink>(
    out: &mut O,
    board: bool,
    rec: &Record,
    list: &[Judged],
) -> Result<(), Failed>
    requires points { AreRecordStakes rec.now.stakes }
    requires right { All (λ judged. IsRightDecision rec.now judged.decision) list.now }
    requires made { All BestCanBeMade list.now }
    ensures { Puts (O.output out.old) (O.output out.new)
        (flat_map (full_line board rec.now.stakes) list.now) result }
{
    'decisions: for judged in list {
        put_full(out, board, rec, judged)?;
    }
    Ok(())
}

/// Puts a line for each decision of a record that was judged, in their order, and then each player's total. Between the fields of a line stand
/// tabs: the number of the game and that of the line, the player, whether it is a play, an offer or an answer; the position, the kind of state
/// and in a match the score; the roll, and what was chosen, a play by what it leaves; what that loses at least and at most in points,
/// rounded outwards; and what was best with its pair, so too. Where boards are asked for, that of the position stands before its line. It
/// takes no memory. `Failed` comes only where `put` failed; then a front of the text was put.
pub fn write_full<O: Sink>(
    out: &mut O,
    board: bool,
    rec: &Record,
    analysis: &Analysis,
) -> Result<(), Failed>
    requires points { AreRecordStakes rec.now.stakes }
    requires right { All (λ judged. IsRightDecision rec.now judged.decision) analysis.now }
    ensures { Puts (O.output out.old) (O.output out.new)
        (full_text board rec.now.stakes analysis.now) result }
{
    put_all(out, board, rec, analysis.as_slice())?;
    put_totals(out, analysis)
}
