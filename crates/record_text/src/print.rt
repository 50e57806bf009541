ghost use Rattle.std.specs.Prelude.{◌≡◌, ◌+◌, ◌++◌, ◌≤◌, ◌<◌, [], ◌∷◌, length, map, codes, decimal, OnOk, IfOk, Some, None};
ghost use Rattle.std.specs.List.{flat_map};
ghost use Rattle.play_text.specs.Notation.{mark, step_text};
ghost use Rattle.game_record.specs.declared.line.Line.TheVariants.{Checkers, Stakes, Game as GameLine, Acted};
ghost use Rattle.game_record.specs.Lines.{ending_line, game_lines, games_lines};
ghost use Rattle.record_text.specs.Texts.{stakes_word, away_text, steps_text, spaced_step, deed_text, line_text, lines_text, record_text};

use cube_text::print_rule;
use game_record::{Action, Ending, Game, Record, RecordStakes, What};
use hyper_outside::NoMemory;
use itoa::Buffer;
use move_rules::{Step, Written};
use position_text::place_name;
use std::alloc::Global;

/// The first line of a record's text, with its end.
pub const RECORD_START: [u8; 21] = *b"hypergammon record 1\n";

#[tactic(auto, using(crate::proofs::Printing::lines_text_append))]
/// The text of a record, which no other record has. It asks for memory, and may answer `NoMemory`.
pub fn print_record(alloc: Global, rec: &Record) -> Result<Vec<u8>, NoMemory>
    ensures { IfOk result (λ text. text.items ≡ record_text rec.now) }
{
    let mut text = Vec::new(alloc);
    text.extend_from_slice(&RECORD_START)?;
    add_checkers(&mut text, rec.checkers)?;
    add_stakes(&mut text, rec.stakes)?;
    add_games(&mut text, rec.games.as_slice())?;
    add(&mut text, "close\n")?;
    Ok(text)
}

fn add(text: &mut Vec<u8>, more: &str) -> Result<(), NoMemory>
    ensures { OnOk result (text.new.items ≡ text.old.items ++ more.now) }
{
    text.extend_from_slice(more.as_bytes())?;
    Ok(())
}

fn add_number(text: &mut Vec<u8>, number: u64) -> Result<(), NoMemory>
    ensures { OnOk result (text.new.items ≡ text.old.items ++ decimal number) }
{
    add(text, Buffer::new().format(number))
}

fn add_checkers(text: &mut Vec<u8>, checkers: u8) -> Result<(), NoMemory>
    ensures { OnOk result (text.new.items
        ≡ text.old.items ++ lines_text (Checkers checkers ∷ [])) }
{
    add(text, "checkers ")?;
    add_number(text, u64::from(checkers))?;
    add(text, "\n")
}

fn add_stakes(text: &mut Vec<u8>, stakes: RecordStakes) -> Result<(), NoMemory>
    ensures { OnOk result (text.new.items ≡ text.old.items ++ lines_text (Stakes stakes ∷ [])) }
{
    add(text, "stakes ")?;
    add_stakes_name(text, stakes)?;
    add(text, "\n")
}

fn add_stakes_name(text: &mut Vec<u8>, stakes: RecordStakes) -> Result<(), NoMemory>
    ensures { OnOk result (text.new.items ≡ text.old.items ++ stakes_word stakes) }
{
    match stakes {
        RecordStakes::Unlimited(rule) => add(text, print_rule(rule)),
        RecordStakes::Match(length) => {
            add(text, "match ")?;
            add_number(text, u64::from(length))
        }
    }
}

fn add_games(text: &mut Vec<u8>, games: &[Game]) -> Result<(), NoMemory>
    ensures { OnOk result (text.new.items
        ≡ text.old.items ++ lines_text (games_lines 1 games.now)) }
{
    let mut number: u64 = 0;
    for game in games {
        number += 1;
        add_game(text, number, game)?;
    }
    Ok(())
}

#[tactic(auto, using(crate::proofs::Printing::lines_text_append))]
fn add_game(text: &mut Vec<u8>, number: u64, game: &Game) -> Result<(), NoMemory>
    ensures { OnOk result (text.new.items
        ≡ text.old.items ++ lines_text (game_lines number game.now)) }
{
    add_opening(text, number, game.away)?;
    add_actions(text, game.actions.as_slice())?;
    add_ending(text, game.ending)
}

fn add_opening(text: &mut Vec<u8>, number: u64, away: Option<(u8, u8)>) -> Result<(), NoMemory>
    ensures { OnOk result (text.new.items
        ≡ text.old.items ++ lines_text (GameLine number away ∷ [])) }
{
    add(text, "game ")?;
    add_number(text, number)?;
    add_away(text, away)?;
    add(text, "\n")
}

fn add_actions(text: &mut Vec<u8>, actions: &[Action]) -> Result<(), NoMemory>
    ensures { OnOk result (text.new.items
        ≡ text.old.items ++ lines_text (map Acted actions.now)) }
{
    for action in actions {
        add_action(text, action)?;
    }
    Ok(())
}

fn add_away(text: &mut Vec<u8>, away: Option<(u8, u8)>) -> Result<(), NoMemory>
    ensures { OnOk result (text.new.items ≡ text.old.items ++ away_text away) }
{
    let Some((a, b)) = away else {
        return Ok(());
    };
    add(text, " away ")?;
    add_number(text, u64::from(a))?;
    add(text, " ")?;
    add_number(text, u64::from(b))
}

fn add_action(text: &mut Vec<u8>, action: &Action) -> Result<(), NoMemory>
    ensures { OnOk result (text.new.items
        ≡ text.old.items ++ lines_text (Acted action.now ∷ [])) }
{
    add(text, action.player.letter())?;
    add(text, " ")?;
    add_deed(text, &action.what)?;
    add(text, "\n")
}

fn add_deed(text: &mut Vec<u8>, what: &What) -> Result<(), NoMemory>
    ensures { OnOk result (text.new.items ≡ text.old.items ++ deed_text what.now) }
{
    match what {
        What::Rolled { roll, written } => {
            add(text, roll.print().as_str())?;
            add(text, " ")?;
            add_steps(text, written)
        }
        What::Doubled => add(text, "double"),
        What::Took => add(text, "take"),
        What::Passed => add(text, "pass"),
        What::Beavered => add(text, "beaver"),
    }
}

fn add_ending(text: &mut Vec<u8>, ending: Ending) -> Result<(), NoMemory>
    ensures { OnOk result (text.new.items
        ≡ text.old.items ++ lines_text (ending_line ending ∷ [])) }
{
    let Ending::Ended { winner, points } = ending else {
        return add(text, "stop\n");
    };
    add(text, "end ")?;
    add(text, winner.letter())?;
    add(text, " ")?;
    add_number(text, u64::from(points))?;
    add(text, "\n")
}

/// A play as it is written.
fn add_steps(text: &mut Vec<u8>, steps: &Written) -> Result<(), NoMemory>
    ensures { OnOk result (text.new.items ≡ text.old.items ++ steps_text steps.now.items) }
{
    let Some((first, rest)) = steps.as_slice().split_first() else {
        return add(text, "-");
    };
    add_step(text, *first)?;
    add_more_steps(text, rest)
}

fn add_more_steps(text: &mut Vec<u8>, steps: &[Step]) -> Result<(), NoMemory>
    ensures { OnOk result (text.new.items ≡ text.old.items ++ flat_map spaced_step steps.now) }
{
    for step in steps {
        add(text, " ")?;
        add_step(text, *step)?;
    }
    Ok(())
}

fn add_step(text: &mut Vec<u8>, step: Step) -> Result<(), NoMemory>
    ensures { OnOk result (text.new.items ≡ text.old.items ++ step_text step) }
{
    add(text, place_name(step.from).as_str())?;
    add(text, "/")?;
    add(text, place_name(step.to).as_str())?;
    if step.hit { add(text, "*") } else { Ok(()) }
}
