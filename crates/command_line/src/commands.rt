ghost use Rattle.std.specs.Prelude.{◌≡◌, Bool};
ghost use Rattle.word_forms.specs.Form.{FormValues};
ghost use Rattle.word_forms.specs.Clap.{HasValues, HasFlags, TellsFlag};
ghost use Rattle.command_line.specs.Commands.{bound_values, race_values, solve_values, show_values, show_list_values, migrate_values, advise_values, command_values, verify_values, ladder_values, analyse_values, study_values, make_values, plan_values, scan_values, reply_values, board_values, command_form, bound_form, race_form, show_form, advise_form, board_form, analyse_form, study_form, advise_list_values, show_match_form, show_at_score, show_match_values, advise_match_form, advise_at_score, advise_match_values};
ghost use Rattle.command_line.specs.Reading.{Gives};

use crate::away::{away_given, file_at, mover_of, owner_given, value_given};
use crate::command::{
    Advise, AdviseList, Analyse, Board, Bound, Command, CommandName, Ladder, Make, Migrate, Plan,
    Race, Reply, Scan, Show, ShowList, Solve, Study, Verify,
};
use crate::stop::{WordsStop, bad_value};
use crate::text::Text;
use crate::values::{
    MOST_GAMES, MOST_POINTS, MOST_ROUNDS, MOST_WORKERS, USUAL_POINTS, USUAL_REPLY_ROUNDS,
    USUAL_ROUNDS, file_name, kind_given, long_number_given, number_given, number_or, other_name,
    position_given, prefix, roll_given, rule_or, seen_by_doubler, shown_given, take_given,
    usual_rounds, width_given,
};
use clap::ArgMatches;
use cube_actions::{KindName, MoneyRule};
use position_text::MOST_CHECKERS;
use std::alloc::Global;

/// What a command's values ask for. Of those that are out of their form the first by number is refused; where all are in theirs, the
/// position is read, and then the roll.
pub(crate) fn read_values(
    alloc: Global,
    name: CommandName,
    values: &ArgMatches<'_>,
) -> Result<Command, WordsStop>
    ensures { (given : FormValues) → HasValues given values.now
        → HasFlags (command_form name) given values.now
        → Gives (command_values name given) result }
{
    match name {
        CommandName::Bound => read_bound(values),
        CommandName::Race => read_race(values),
        CommandName::Solve => read_solve(alloc, values),
        CommandName::Show => read_show(alloc, values),
        CommandName::ShowList => read_show_list(alloc, values),
        CommandName::ShowMatch => read_show_match(alloc, values),
        CommandName::Migrate => read_migrate(alloc, values),
        CommandName::Advise => read_advise(alloc, values),
        CommandName::AdviseList => read_advise_list(alloc, values),
        CommandName::AdviseMatch => read_advise_match(alloc, values),
        CommandName::Verify => read_verify(alloc, values),
        CommandName::Ladder => read_ladder(alloc, values),
        CommandName::Analyse => read_analyse(alloc, values),
        CommandName::Study => read_study(alloc, values),
        CommandName::Make => read_make(alloc, values),
        CommandName::Plan => read_plan(alloc, values),
        CommandName::Scan => read_scan(alloc, values),
        CommandName::Reply => read_reply(alloc, values),
        CommandName::Board => read_board(values),
    }
}

fn read_bound(values: &ArgMatches<'_>) -> Result<Command, WordsStop>
    ensures { (given : FormValues) → HasValues given values.now
        → HasFlags bound_form given values.now
        → Gives (bound_values given) result }
{
    let Some(checkers) = number_given(values.get_str("CHECKERS"), MOST_CHECKERS as u32) else {
        return Err(bad_value(1));
    };
    let Some(rounds) = number_given(values.get_str("ROUNDS"), MOST_ROUNDS) else {
        return Err(bad_value(2));
    };
    let Some(position) = values.get_str("POSITION") else {
        return Err(bad_value(3));
    };
    Ok(Command::Bound(Bound {
        checkers: checkers as u8,
        rounds,
        position: position_given(position)?,
        board: is_set(values, "board"),
    }))
}

fn read_race(values: &ArgMatches<'_>) -> Result<Command, WordsStop>
    ensures { (given : FormValues) → HasValues given values.now
        → HasFlags race_form given values.now
        → Gives (race_values given) result }
{
    let Some(checkers) = number_given(values.get_str("CHECKERS"), MOST_CHECKERS as u32) else {
        return Err(bad_value(1));
    };
    let Some(position) = values.get_str("POSITION") else {
        return Err(bad_value(2));
    };
    Ok(Command::Race(Race {
        checkers: checkers as u8,
        position: position_given(position)?,
        board: is_set(values, "board"),
    }))
}

fn read_solve(alloc: Global, values: &ArgMatches<'_>) -> Result<Command, WordsStop>
    ensures { (given : FormValues) → HasValues given values.now
        → Gives (solve_values given) result }
{
    let Some(file) = file_name(values.get_str("FILE")) else {
        return Err(bad_value(1));
    };
    let most = MOST_CHECKERS as u32;
    let Some(checkers) = number_or(values.get_str("checkers"), most, most) else {
        return Err(bad_value(2));
    };
    let Some(rule) = rule_or(values.get_str("stakes"), MoneyRule::Jacoby) else {
        return Err(bad_value(3));
    };
    let width = values.get_str("width");
    let rounds = values.get_str("rounds");
    let Some(rounds) = number_or(rounds, MOST_ROUNDS, usual_rounds(width)) else {
        return Err(bad_value(4));
    };
    let Some(workers) = number_or(values.get_str("workers"), MOST_WORKERS, 1) else {
        return Err(bad_value(5));
    };
    let Some(width) = width_given(width) else {
        return Err(bad_value(6));
    };
    Ok(Command::Solve(Solve {
        file: Text::new(alloc, file)?,
        checkers: checkers as u8,
        rule,
        rounds,
        workers,
        width,
    }))
}

fn read_show(alloc: Global, values: &ArgMatches<'_>) -> Result<Command, WordsStop>
    ensures { (given : FormValues) → HasValues given values.now
        → HasFlags show_form given values.now
        → Gives (show_values given) result }
{
    let Some(file) = file_name(values.get_str("FILE")) else {
        return Err(bad_value(1));
    };
    let Some(position) = values.get_str("POSITION") else {
        return Err(bad_value(2));
    };
    Ok(Command::Show(Show {
        position: position_given(position)?,
        file: Text::new(alloc, file)?,
        board: is_set(values, "board"),
        id: is_set(values, "id"),
    }))
}

fn read_show_list(alloc: Global, values: &ArgMatches<'_>) -> Result<Command, WordsStop>
    ensures { (given : FormValues) → HasValues given values.now
        → Gives (show_list_values given) result }
{
    let Some(file) = file_name(values.get_str("FILE")) else {
        return Err(bad_value(1));
    };
    let Some(list) = file_name(values.get_str("positions")) else {
        return Err(bad_value(2));
    };
    let Some(workers) = number_or(values.get_str("workers"), MOST_WORKERS, 1) else {
        return Err(bad_value(3));
    };
    Ok(Command::ShowList(ShowList {
        file: Text::new(alloc, file)?,
        list: Text::new(alloc, list)?,
        workers,
    }))
}

fn read_show_match(alloc: Global, values: &ArgMatches<'_>) -> Result<Command, WordsStop>
    ensures { (given : FormValues) → HasValues given values.now
        → HasFlags show_match_form given values.now
        → Gives (show_match_values given) result }
{
    let crawford = is_set(values, "crawford");
    let post = is_set(values, "post");
    let board = is_set(values, "board");
    let id = is_set(values, "id");
    show_at_score(alloc, values, crawford, post, board, id)
}

/// What the values of `show` ask for at a score, beside these flags.
fn show_at_score(
    alloc: Global,
    values: &ArgMatches<'_>,
    crawford: bool,
    post: bool,
    board: bool,
    id: bool,
) -> Result<Command, WordsStop>
    ensures { (given : FormValues) → HasValues given values.now
        → Gives (show_at_score crawford post board id given) result }
{
    let Some(prefix) = prefix(values.get_str("PREFIX")) else {
        return Err(bad_value(1));
    };
    let Some(position) = values.get_str("POSITION") else {
        return Err(bad_value(2));
    };
    let Some(away) = away_given(values.get_str("away"), crawford, post) else {
        return Err(bad_value(3));
    };
    Ok(Command::Show(Show {
        position: position_given(position)?,
        file: file_at(alloc, prefix, away.score)?,
        board,
        id,
    }))
}

fn read_migrate(alloc: Global, values: &ArgMatches<'_>) -> Result<Command, WordsStop>
    ensures { (given : FormValues) → HasValues given values.now
        → Gives (migrate_values given) result }
{
    let Some(old) = file_name(values.get_str("OLD")) else {
        return Err(bad_value(1));
    };
    let Some(new) = other_name(old, values.get_str("NEW")) else {
        return Err(bad_value(2));
    };
    let given = values.get_str("workers");
    let Some(workers) = number_or(given, MOST_WORKERS, 1) else {
        return Err(bad_value(3));
    };
    Ok(Command::Migrate(Migrate {
        old: Text::new(alloc, old)?,
        new: Text::new(alloc, new)?,
        workers,
    }))
}

fn read_advise(alloc: Global, values: &ArgMatches<'_>) -> Result<Command, WordsStop>
    ensures { (given : FormValues) → HasValues given values.now
        → HasFlags advise_form given values.now
        → Gives (advise_values given) result }
{
    let Some(file) = file_name(values.get_str("FILE")) else {
        return Err(bad_value(1));
    };
    let Some(position) = values.get_str("POSITION") else {
        return Err(bad_value(2));
    };
    let Some(kind) = kind_given(values.get_str("kind")) else {
        return Err(bad_value(3));
    };
    let roll = values.get_str("roll");
    let Some(take) = take_given(is_set(values, "take"), roll) else {
        return Err(bad_value(4));
    };
    Ok(Command::Advise(Advise {
        position: seen_by_doubler(take, position_given(position)?),
        roll: roll_given(roll)?,
        file: Text::new(alloc, file)?,
        kind,
        take,
        board: is_set(values, "board"),
    }))
}

fn read_advise_list(alloc: Global, values: &ArgMatches<'_>) -> Result<Command, WordsStop>
    ensures { (given : FormValues) → HasValues given values.now
        → Gives (advise_list_values given) result }
{
    let Some(file) = file_name(values.get_str("FILE")) else {
        return Err(bad_value(1));
    };
    let Some(list) = file_name(values.get_str("rolls")) else {
        return Err(bad_value(2));
    };
    let Some(kind) = kind_given(values.get_str("kind")) else {
        return Err(bad_value(3));
    };
    let Some(workers) = number_or(values.get_str("workers"), MOST_WORKERS, 1) else {
        return Err(bad_value(4));
    };
    Ok(Command::AdviseList(AdviseList {
        file: Text::new(alloc, file)?,
        list: Text::new(alloc, list)?,
        kind,
        workers,
    }))
}

fn read_advise_match(alloc: Global, values: &ArgMatches<'_>) -> Result<Command, WordsStop>
    ensures { (given : FormValues) → HasValues given values.now
        → HasFlags advise_match_form given values.now
        → Gives (advise_match_values given) result }
{
    let crawford = is_set(values, "crawford");
    let post = is_set(values, "post");
    let board = is_set(values, "board");
    let take = is_set(values, "take");
    advise_at_score(alloc, values, crawford, post, board, take)
}

/// What the values of `advise` ask for at a score, beside these flags.
fn advise_at_score(
    alloc: Global,
    values: &ArgMatches<'_>,
    crawford: bool,
    post: bool,
    board: bool,
    take: bool,
) -> Result<Command, WordsStop>
    ensures { (given : FormValues) → HasValues given values.now
        → Gives (advise_at_score crawford post board take given) result }
{
    let Some(prefix) = prefix(values.get_str("PREFIX")) else {
        return Err(bad_value(1));
    };
    let Some(position) = values.get_str("POSITION") else {
        return Err(bad_value(2));
    };
    let Some(away) = away_given(values.get_str("away"), crawford, post) else {
        return Err(bad_value(3));
    };
    let Some(owner) = owner_given(away.side, values.get_str("cube")) else {
        return Err(bad_value(4));
    };
    let Some(cube) = value_given(owner, values.get_str("value")) else {
        return Err(bad_value(5));
    };
    let roll = values.get_str("roll");
    let Some(take) = take_given(take, roll) else {
        return Err(bad_value(6));
    };
    let mover = mover_of(take, away.side);
    Ok(Command::Advise(Advise {
        position: seen_by_doubler(take, position_given(position)?),
        roll: roll_given(roll)?,
        file: file_at(alloc, prefix, away.score)?,
        kind: Some(KindName::InMatch { mover, cube, owner }),
        take,
        board,
    }))
}

fn read_verify(alloc: Global, values: &ArgMatches<'_>) -> Result<Command, WordsStop>
    ensures { (given : FormValues) → HasValues given values.now
        → Gives (verify_values given) result }
{
    let Some(file) = file_name(values.get_str("FILE")) else {
        return Err(bad_value(1));
    };
    let given = values.get_str("workers");
    let Some(workers) = number_or(given, MOST_WORKERS, 1) else {
        return Err(bad_value(2));
    };
    Ok(Command::Verify(Verify {
        file: Text::new(alloc, file)?,
        workers,
    }))
}

fn read_ladder(alloc: Global, values: &ArgMatches<'_>) -> Result<Command, WordsStop>
    ensures { (given : FormValues) → HasValues given values.now
        → Gives (ladder_values given) result }
{
    let Some(prefix) = prefix(values.get_str("PREFIX")) else {
        return Err(bad_value(1));
    };
    let most = MOST_CHECKERS as u32;
    let Some(checkers) = number_or(values.get_str("checkers"), most, most) else {
        return Err(bad_value(2));
    };
    let Some(points) = number_or(values.get_str("length"), MOST_POINTS, USUAL_POINTS) else {
        return Err(bad_value(3));
    };
    let given = values.get_str("rounds");
    let Some(rounds) = number_or(given, MOST_ROUNDS, USUAL_ROUNDS) else {
        return Err(bad_value(4));
    };
    let word = values.get_str("workers");
    let Some(workers) = number_or(word, MOST_WORKERS, 1) else {
        return Err(bad_value(5));
    };
    Ok(Command::Ladder(Ladder {
        prefix: Text::new(alloc, prefix)?,
        checkers: checkers as u8,
        match_length: points as u8,
        rounds,
        workers,
    }))
}

fn read_analyse(alloc: Global, values: &ArgMatches<'_>) -> Result<Command, WordsStop>
    ensures { (given : FormValues) → HasValues given values.now
        → HasFlags analyse_form given values.now
        → Gives (analyse_values given) result }
{
    let Some(base) = file_name(values.get_str("BASE")) else {
        return Err(bad_value(1));
    };
    let Some(rec) = file_name(values.get_str("RECORD")) else {
        return Err(bad_value(2));
    };
    let full = is_set(values, "full");
    let board = is_set(values, "board");
    let Some(shown) = shown_given(full, board, values.get_str("worst")) else {
        return Err(bad_value(3));
    };
    Ok(Command::Analyse(Analyse {
        base: Text::new(alloc, base)?,
        rec: Text::new(alloc, rec)?,
        shown,
        board,
    }))
}

fn read_study(alloc: Global, values: &ArgMatches<'_>) -> Result<Command, WordsStop>
    ensures { (given : FormValues) → HasValues given values.now
        → HasFlags study_form given values.now
        → Gives (study_values given) result }
{
    let Some(rec) = file_name(values.get_str("RECORD")) else {
        return Err(bad_value(1));
    };
    let rounds = values.get_str("rounds");
    let Some(rounds) = number_or(rounds, MOST_ROUNDS, USUAL_ROUNDS) else {
        return Err(bad_value(2));
    };
    let workers = values.get_str("workers");
    let Some(workers) = number_or(workers, MOST_WORKERS, 1) else {
        return Err(bad_value(3));
    };
    let full = is_set(values, "full");
    let board = is_set(values, "board");
    let Some(shown) = shown_given(full, board, values.get_str("worst")) else {
        return Err(bad_value(4));
    };
    Ok(Command::Study(Study {
        rec: Text::new(alloc, rec)?,
        rounds,
        workers,
        shown,
        board,
    }))
}

fn read_make(alloc: Global, values: &ArgMatches<'_>) -> Result<Command, WordsStop>
    ensures { (given : FormValues) → HasValues given values.now
        → Gives (make_values given) result }
{
    let Some(number) = long_number_given(values.get_str("NUMBER")) else {
        return Err(bad_value(1));
    };
    let Some(games) = number_given(values.get_str("GAMES"), MOST_GAMES) else {
        return Err(bad_value(2));
    };
    let Some(file) = file_name(values.get_str("FILE")) else {
        return Err(bad_value(3));
    };
    Ok(Command::Make(Make {
        number,
        games,
        file: Text::new(alloc, file)?,
    }))
}

fn read_plan(alloc: Global, values: &ArgMatches<'_>) -> Result<Command, WordsStop>
    ensures { (given : FormValues) → HasValues given values.now
        → Gives (plan_values given) result }
{
    let Some(prefix) = prefix(values.get_str("PREFIX")) else {
        return Err(bad_value(1));
    };
    let length = values.get_str("length");
    let Some(points) = number_or(length, MOST_POINTS, USUAL_POINTS) else {
        return Err(bad_value(2));
    };
    Ok(Command::Plan(Plan {
        prefix: Text::new(alloc, prefix)?,
        match_length: points as u8,
    }))
}

fn read_scan(alloc: Global, values: &ArgMatches<'_>) -> Result<Command, WordsStop>
    ensures { (given : FormValues) → HasValues given values.now
        → Gives (scan_values given) result }
{
    let Some(file) = file_name(values.get_str("FILE")) else {
        return Err(bad_value(1));
    };
    let Some(condition) = values.get_str("CONDITION") else {
        return Err(bad_value(2));
    };
    let workers = values.get_str("workers");
    let Some(workers) = number_or(workers, MOST_WORKERS, 1) else {
        return Err(bad_value(3));
    };
    Ok(Command::Scan(Scan {
        file: Text::new(alloc, file)?,
        condition: Text::new(alloc, condition)?,
        workers,
    }))
}

fn read_reply(alloc: Global, values: &ArgMatches<'_>) -> Result<Command, WordsStop>
    ensures { (given : FormValues) → HasValues given values.now
        → Gives (reply_values given) result }
{
    let Some(file) = file_name(values.get_str("FILE")) else {
        return Err(bad_value(1));
    };
    let Some(position) = values.get_str("POSITION") else {
        return Err(bad_value(2));
    };
    let Some(kind) = kind_given(values.get_str("kind")) else {
        return Err(bad_value(3));
    };
    let given = values.get_str("rounds");
    let Some(rounds) = number_or(given, MOST_ROUNDS, USUAL_REPLY_ROUNDS) else {
        return Err(bad_value(4));
    };
    Ok(Command::Reply(Reply {
        position: position_given(position)?,
        file: Text::new(alloc, file)?,
        kind,
        rounds,
    }))
}

fn read_board(values: &ArgMatches<'_>) -> Result<Command, WordsStop>
    ensures { (given : FormValues) → HasValues given values.now
        → HasFlags board_form given values.now
        → Gives (board_values given) result }
{
    let Some(position) = values.get_str("POSITION") else {
        return Err(bad_value(1));
    };
    Ok(Command::Board(Board {
        position: position_given(position)?,
        id: is_set(values, "id"),
    }))
}

/// Whether the flag is given.
fn is_set(values: &ArgMatches<'_>, flag: &str) -> bool
    ensures { (set : Bool) → TellsFlag set flag.now values.now → result ≡ set }
{
    values.get_flag(flag)
}
