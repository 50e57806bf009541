ghost use Rattle.std.specs.Prelude.{◌≡◌, ◌+◌, IfSome, MatchOption, SomeIff, length};
ghost use Rattle.game_census.specs.Tasks.{AsksCalls, AsksWidths, IsPartOf, SayPart, SaysUpto, number_said, one_for, word_count};

use crate::task::{CubeTask, Part, Task, WidthsTask};
use cube_text::read_rule;

/// A number from 1 to the greatest that is taken.
fn number_upto(word: &str, greatest: u32) -> Option<u32>
    ensures { SomeIff result (SaysUpto greatest word.now) (number_said word.now) }
{
    let number = word.parse().ok()?;
    if number < 1 || number > greatest {
        return None;
    }
    Some(number)
}

/// The part of two words, its number and the number of parts. There are at most a million.
fn part_of(number: &str, of: &str) -> Option<Part>
    ensures { MatchOption result (SayPart number.now of.now → ⊥) (IsPartOf number.now of.now) }
{
    let of = number_upto(of, 1_000_000)?;
    let number = number_upto(number, of)?;
    Some(Part { number, of })
}

/// What `cube` asks for with these words after it.
fn cube_task<'a>(file: &'a str, number: &str, of: &str) -> Option<Task<'a>>
    ensures asked { MatchOption result (SayPart number.now of.now → ⊥)
        (AsksCalls file.now number.now of.now) }
    ensures words { IfSome result (λ task. word_count task ≡ 4) }
{
    let part = part_of(number, of)?;
    Some(Task::Cube(CubeTask { file, part }))
}

/// What `widths` asks for with these words after it.
fn widths_task<'a>(
    checkers: &str,
    rule: &str,
    rounds: &str,
    file: Option<&'a str>,
) -> Option<Task<'a>>
    ensures asked { IfSome result (AsksWidths checkers.now rounds.now) }
    ensures words { IfSome result (λ task. word_count task ≡ 4 + one_for file.entry) }
{
    let checkers = number_upto(checkers, 3)? as u8;
    let rule = read_rule(rule)?;
    let rounds = number_upto(rounds, 4_096)?;
    Some(Task::Widths(WidthsTask {
        checkers,
        rule,
        rounds,
        file,
    }))
}

/// What a command with three words after it asks for.
fn task_of_three<'a>(command: &str, first: &'a str, second: &str, third: &str) -> Option<Task<'a>>
    ensures { IfSome result (λ task. word_count task ≡ 4) }
{
    match command {
        "cube" => cube_task(first, second, third),
        "widths" => widths_task(first, second, third, None),
        _ => None,
    }
}

/// What the words ask for.
pub(crate) fn read_task(words: &[String]) -> Option<Task<'_>>
    ensures { IfSome result (λ task. length words.now ≡ word_count task) }
{
    match words {
        [command, first, second, third] => task_of_three(
            command.as_str(),
            first.as_str(),
            second.as_str(),
            third.as_str(),
        ),
        [command, checkers, stakes, rounds, file] if command.as_str() == "widths" => widths_task(
            checkers.as_str(),
            stakes.as_str(),
            rounds.as_str(),
            Some(file.as_str()),
        ),
        _ => None,
    }
}
