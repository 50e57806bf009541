ghost use Rattle.std.specs.Prelude.{◌≡◌, ◌≢◌, ◌≤◌, ◌<◌, ◌+◌, ◌↔◌, ◌⊎◌, IsTrue, decimal, IfOk, IfErr, MatchOption, Some};
ghost use Rattle.cube_text.specs.Texts.{IsNoRule};
ghost use Rattle.game_record.specs.Turns.{allowed, kind_of};
ghost use Rattle.game_record.specs.Lines.{MayCome, FitsStage};
ghost use Rattle.record_text.specs.Texts.{line_text};
ghost use Rattle.record_text.specs.FormWords.{form};
ghost use Rattle.record_text.specs.Forms.{CheckersForm, StakesForm, MatchForm, GameForm, AwayForm, RollForm, EndForm, form_of, kind_of_form};
ghost use Rattle.record_text.specs.Faults.{IsNoNumber, Says, IsWrong, IsLineFault};

use crate::form::{Form, form_of};
use crate::words::{is_number, number_up_to, play_of, roll_of, rule_of};
use game_record::{Action, Line, Next, Player, RecordFault, RecordStakes, Stage, What};
use roll_table::Roll;

/// What a line says, and what may come after it, or the first thing that is wrong with it.
pub(crate) fn read_line(stage: Stage, line: &[u8]) -> Result<(Line, Next), RecordFault>
    requires { stage.games ≤ 1048576 }
    ensures text { IfOk result (λ read. line.now ≡ line_text read.0) }
    ensures next { IfOk result (λ read.
        allowed stage.in_match stage.next (kind_of read.0) ≡ Some read.1) }
    ensures fits { IfOk result (λ read. FitsStage stage read.0) }
    ensures err { IfErr result (IsLineFault stage line.now) }
{
    let Some(form) = form_of(line) else {
        return Err(RecordFault::Shape);
    };
    let Some(next) = stage.after(form.kind()) else {
        return Err(RecordFault::Order);
    };
    match line_of(stage, form) {
        Ok(line) => Ok((line, next)),
        Err(fault) => Err(fault),
    }
}

fn line_of(stage: Stage, words: Form<'_>) -> Result<Line, RecordFault>
    requires { stage.games ≤ 1048576 }
    ensures ok { IfOk result (Says stage (form words.entry)) }
    ensures err { IfErr result (IsWrong stage (form words.entry)) }
{
    match words {
        Form::Title => Ok(Line::Title),
        Form::Checkers(word) => checkers_line(word),
        Form::Stakes(word) => stakes_line(word),
        Form::MatchOf(word) => match_line(word),
        Form::Game(number) => game_line(stage, number),
        Form::AwayGame { number, a, b } => away_line(stage, number, a, b),
        Form::Roll { player, roll, play } => roll_line(stage, player, roll, play),
        Form::Double(player) => Ok(acted(player, What::Doubled)),
        Form::Take(player) => Ok(acted(player, What::Took)),
        Form::Pass(player) => Ok(acted(player, What::Passed)),
        Form::Beaver(player) => Ok(acted(player, What::Beavered)),
        Form::End { winner, points } => end_line(winner, points),
        Form::Stop => Ok(Line::Stopped),
        Form::Close => Ok(Line::Closed),
    }
}

fn acted(player: Player, what: What) -> Line
    ensures { result ≡ Line.Acted (record { player = player; what = what }) }
{
    Line::Acted(Action { player, what })
}

fn checkers_line(word: &[u8]) -> Result<Line, RecordFault>
    ensures ok { IfOk result (λ line. (stage : Stage) → Says stage (CheckersForm word.now) line) }
    ensures err { IfErr result (λ fault. (fault ≡ RecordFault.Rules) × IsNoNumber 3 word.now) }
{
    let Some(checkers) = number_up_to(3, word) else {
        return Err(RecordFault::Rules);
    };
    Ok(Line::Checkers(checkers))
}

fn stakes_line(word: &[u8]) -> Result<Line, RecordFault>
    ensures ok { IfOk result (λ line. (stage : Stage) → Says stage (StakesForm word.now) line) }
    ensures err { IfErr result (λ fault. (fault ≡ RecordFault.Rules) × IsNoRule word.now) }
{
    let Some(rule) = rule_of(word) else {
        return Err(RecordFault::Rules);
    };
    Ok(Line::Stakes(RecordStakes::Unlimited(rule)))
}

fn match_line(word: &[u8]) -> Result<Line, RecordFault>
    ensures ok { IfOk result (λ line. (stage : Stage) → Says stage (MatchForm word.now) line) }
    ensures err { IfErr result (λ fault. (fault ≡ RecordFault.Rules) × IsNoNumber 5 word.now) }
{
    let Some(length) = number_up_to(5, word) else {
        return Err(RecordFault::Rules);
    };
    Ok(Line::Stakes(RecordStakes::Match(length)))
}

fn game_line(stage: Stage, word: &[u8]) -> Result<Line, RecordFault>
    requires { stage.games ≤ 1048576 }
    ensures ok { IfOk result (Says stage (GameForm word.now)) }
    ensures err { IfErr result (IsWrong stage (GameForm word.now)) }
{
    let Some(number) = next_number(stage, word) else {
        return Err(RecordFault::Number);
    };
    Ok(Line::Game { number, away: None })
}

fn away_line(stage: Stage, word: &[u8], a: &[u8], b: &[u8]) -> Result<Line, RecordFault>
    requires { stage.games ≤ 1048576 }
    ensures ok { IfOk result (Says stage (AwayForm word.now a.now b.now)) }
    ensures err { IfErr result (IsWrong stage (AwayForm word.now a.now b.now)) }
{
    let Some(number) = next_number(stage, word) else {
        return Err(RecordFault::Number);
    };
    let Some(a) = number_up_to(5, a) else {
        return Err(RecordFault::Number);
    };
    let Some(b) = number_up_to(5, b) else {
        return Err(RecordFault::Number);
    };
    let away = Some((a, b));
    Ok(Line::Game { number, away })
}

/// The number of the next game, where this is its text.
fn next_number(stage: Stage, word: &[u8]) -> Option<u32>
    requires { stage.games ≤ 1048576 }
    ensures { MatchOption result
        (word.now ≢ decimal (stage.games + 1))
        (λ number. (number ≡ stage.games + 1) × (word.now ≡ decimal number)) }
{
    let number = stage.games + 1;
    if is_number(word, number) {
        Some(number)
    } else {
        None
    }
}

fn roll_line(stage: Stage, player: Player, word: &[u8], play: &[u8]) -> Result<Line, RecordFault>
    ensures ok { IfOk result (Says stage (RollForm player word.now play.now)) }
    ensures err { IfErr result (IsWrong stage (RollForm player word.now play.now)) }
{
    let Some(roll) = roll_of(word) else {
        return Err(RecordFault::Number);
    };
    if !may_come(stage.next, roll) {
        return Err(RecordFault::Number);
    }
    let Some(written) = play_of(play) else {
        return Err(RecordFault::Play);
    };
    Ok(acted(player, What::Rolled { roll, written }))
}

/// The first roll of a game is no double.
fn may_come(next: Next, roll: Roll) -> bool
    ensures { IsTrue result ↔ MayCome next roll }
{
    next != Next::FirstRoll || roll.high() != roll.low()
}

fn end_line(winner: Player, word: &[u8]) -> Result<Line, RecordFault>
    ensures ok { IfOk result (λ line.
        (stage : Stage) → Says stage (EndForm winner word.now) line) }
    ensures err { IfErr result (λ fault. (fault ≡ RecordFault.Number) × IsNoNumber 3 word.now) }
{
    let Some(points) = number_up_to(3, word) else {
        return Err(RecordFault::Number);
    };
    Ok(Line::Ended { winner, points })
}
