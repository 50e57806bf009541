ghost use Rattle.refusal_notes.specs.Notes.{GoesOn};

use crate::call::Call;
use crate::sentence::{Part, Text, say};
use base_head::{BadFile, FileFault};
use command_line::CommandName;
use cube_actions::{KindName, MoneyRule, StakesName};
use equity_report::{GameName, Unheld, Wanted};

/// Adds the name of the file of bounds that a command reads, or how those of its files begin.
fn add_base(text: &mut Text, call: &Call<'_>)
    ensures { GoesOn text.old.bytes text.new.bytes }
{
    let (form, name) = match call.command {
        CommandName::Migrate => ("@", "OLD"),
        CommandName::Plan => ("the file of PREFIX @", "PREFIX"),
        CommandName::Analyse => ("BASE @", "BASE"),
        _ => ("@", "FILE"),
    };
    say(text, form, &[Part::Word(call.given(name).unwrap_or(""))]);
}

/// No file of this name.
pub(crate) fn add_missing(text: &mut Text, call: &Call<'_>, name: &str)
    ensures { GoesOn text.old.bytes text.new.bytes }
{
    let form = if call.given("RECORD") == Some(name) {
        "@ is missing: write the name of a record; hypergammon help record shows one"
    } else if call.given("positions") == Some(name) {
        "@ is missing: write the name of a file with one position in each line, or /dev/stdin"
    } else if call.given("rolls") == Some(name) {
        "@ is missing: write the name of a file with a position and a roll in each line, or /dev/stdin"
    } else {
        match call.command {
            CommandName::Analyse if call.given("BASE") != Some(name) => {
                "@ is missing: a match needs the prefix that ladder was given"
            }
            CommandName::Plan =>
                "@ is missing: write the prefix and the --length that ladder was given",
            _ => "@ is missing: write the name of a file that solve or ladder wrote, as m.1.3.c",
        }
    };
    say(text, form, &[Part::Word(name)]);
}

/// What is wrong with a file of bounds at a byte, and what may be done.
fn fault_form(fault: FileFault) -> &'static str {
    match fault {
        FileFault::Short => " ends too early, at byte @: it was cut off, so make it again",
        FileFault::Long => " goes on at byte @, behind its end: cut that off, or make it again",
        FileFault::Magic =>
            " is no file of bounds: write the name of one that solve or ladder wrote",
        FileFault::Version =>
            " isn't of the latest version: migrate OLD NEW writes an older file anew",
        FileFault::Head => " has a wrong number in its header, at byte @: make it again",
        FileFault::HeadDigest => " is damaged in front of its digest at byte @: make it again",
        FileFault::PageDigest => " is damaged in the page whose digest is at byte @: make it again",
        FileFault::Word => " has a bound out of range, at byte @: whoever made it, don't use it",
        FileFault::Crossed => {
            " has a lower bound above its upper one, at byte @: whoever made it, don't use it"
        }
    }
}

/// A file of bounds that isn't right.
pub(crate) fn add_file(text: &mut Text, call: &Call<'_>, bad: BadFile)
    ensures { GoesOn text.old.bytes text.new.bytes }
{
    add_base(text, call);
    let form = match (bad.fault, call.command) {
        (FileFault::Version, CommandName::Migrate) => {
            " is of a version that isn't known: look for a newer hypergammon"
        }
        (fault, _) => fault_form(fault),
    };
    say(text, form, &[Part::Number(bad.at)]);
}

/// A file of another kind where one is to be written.
pub(crate) fn add_other(text: &mut Text, call: &Call<'_>, name: &str)
    ensures { GoesOn text.old.bytes text.new.bytes }
{
    let form = match call.command {
        CommandName::Make => "@ is there and is no record, so it stays: give another name",
        _ => "@ is there and is no file of bounds, so it stays: give another name",
    };
    say(text, form, &[Part::Word(name)]);
}

/// Another number of checkers.
fn add_checkers(text: &mut Text, call: &Call<'_>, wanted: u8, found: u8)
    ensures { GoesOn text.old.bytes text.new.bytes }
{
    let (wanted, found) = (u64::from(wanted), u64::from(found));
    say(
        text,
        "the position has @ checkers a side and ",
        &[Part::Number(wanted)],
    );
    if call.takes("CHECKERS") {
        say(
            text,
            "CHECKERS is @: write @",
            &[Part::Number(found), Part::Number(wanted)],
        );
    } else {
        add_base(text, call);
        say(
            text,
            " has @: write as many places for each side, those off too",
            &[Part::Number(found)],
        );
    }
}

/// A kind that the game of the file hasn't.
fn add_kind(text: &mut Text, call: &Call<'_>, kind: KindName, stakes: StakesName)
    ensures { GoesOn text.old.bytes text.new.bytes }
{
    add_base(text, call);
    let kinds = match stakes {
        StakesName::Unlimited(rule) => match rule {
            MoneyRule::Cubeless => "alone",
            _ => "centred, mine or theirs",
        },
        StakesName::Match(_) => "a kind that show prints of it, as near:1:centred",
    };
    say(
        text,
        " has no states of the kind @: write @",
        &[Part::Kind(kind), Part::Text(kinds)],
    );
}

/// A game that isn't the one that is wanted.
pub(crate) fn add_game(text: &mut Text, call: &Call<'_>, wanted: Wanted, found: GameName)
    ensures { GoesOn text.old.bytes text.new.bytes }
{
    match wanted {
        Wanted::Checkers(checkers) => add_checkers(text, call, checkers, found.checkers),
        Wanted::Kind(kind) => add_kind(text, call, kind, found.stakes),
        Wanted::Fits(game) => {
            say(text, "the record has @, and ", &[Part::Game(&game)]);
            add_base(text, call);
            say(
                text,
                " has @: make a file of the record's game",
                &[Part::Game(&found)],
            );
        }
        Wanted::Scored { match_length, .. } => {
            add_base(text, call);
            say(
                text,
                " isn't of the first game of a match to @ points: write the --length that ladder was given",
                &[Part::Number(u64::from(match_length))],
            );
        }
    }
}

/// A bound of a file that doesn't follow from the others.
pub(crate) fn add_unheld(text: &mut Text, call: &Call<'_>, unheld: &Unheld)
    ensures { GoesOn text.old.bytes text.new.bytes }
{
    add_base(text, call);
    say(
        text,
        " has bounds that don't follow from each other, first at @: whoever made it, don't use it",
        &[Part::Position(&unheld.position)],
    );
}
