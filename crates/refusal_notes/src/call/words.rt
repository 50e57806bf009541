ghost use Rattle.refusal_notes.specs.Notes.{GoesOn};

use super::{Call, is_option, option_name};
use crate::sentence::{Part, Text, say};
use hyper_outside::{BadWords, WordsKind};

/// What may stand for arguments and options, by their names.
const VALUES: &[(&str, &str)] = &[
    ("CHECKERS", "1, 2 or 3"),
    ("checkers", "1, 2 or 3"),
    ("ROUNDS", "a whole number from 1 to 4096"),
    ("rounds", "a whole number from 1 to 4096"),
    ("workers", "a whole number from 1 to 64"),
    ("worst", "a whole number from 1 to 100"),
    (
        "width",
        "points from 0.000001 to 64, with at most six decimals, as 0.001",
    ),
    ("length", "a whole number from 1 to 5"),
    ("GAMES", "a whole number from 1 to 1000"),
    ("NUMBER", "a whole number from 0 to 18446744073709551615"),
    (
        "stakes",
        "cubeless, money, jacoby, money-beavers or jacoby-beavers",
    ),
    (
        "kind",
        "alone, centred, mine or theirs, or in a match as near:1:centred",
    ),
    ("roll", "two digits from 1 to 6, as 61"),
    (
        "away",
        "the points that you and the other side still need, 1 to 5 each, as 2-3",
    ),
    ("cube", "centred, mine or theirs"),
    (
        "value",
        "1 for a cube in the middle, or 2, 4 or 8 for one that a side has",
    ),
    (
        "PREFIX",
        "1 to 240 bytes, with which the names of a match's files begin",
    ),
];

/// What may stand for an argument or an option of this name.
fn may_stand(name: &str) -> Part<'static> {
    for (named, value) in VALUES {
        if *named == name {
            return Part::Text(value);
        }
    }
    Part::Text("a file's name, 1 to 255 bytes")
}

fn add_no_command(text: &mut Text, words: &[String])
    ensures { GoesOn text.old.bytes text.new.bytes }
{
    match words.first() {
        Some(word) => say(
            text,
            "@ is no command: write solve, show, advise, migrate, verify, scan, reply, ladder, plan, analyse, study, make, race, bound or board",
            &[Part::Word(word.as_str())],
        ),
        None => say(
            text,
            "no command is given: write one, as show; hypergammon help has them all",
            &[],
        ),
    }
}

fn add_no_value(text: &mut Text, name: &str)
    ensures { GoesOn text.old.bytes text.new.bytes }
{
    say(
        text,
        "--@ has no value: write @ behind it",
        &[Part::Text(name), may_stand(name)],
    );
}

fn add_needless_value(text: &mut Text, name: &str)
    ensures { GoesOn text.old.bytes text.new.bytes }
{
    say(
        text,
        "--@ takes no value: write --@ alone",
        &[Part::Text(name), Part::Text(name)],
    );
}

/// A word that can't stand in any command.
fn add_faulty(text: &mut Text, call: &Call<'_>, word: &str)
    ensures { GoesOn text.old.bytes text.new.bytes }
{
    if is_option(word) && word.len() > 2 && word.len() <= 4096 {
        let name = option_name(word);
        return if call.takes_flag(name) {
            add_needless_value(text, name)
        } else {
            add_no_value(text, name)
        };
    }
    let form = if word.is_empty() {
        "a word is empty: write something between the quotes, or leave it out"
    } else if word.len() > 4096 {
        "@ is too long: a word has at most 4096 bytes"
    } else {
        "@ is no option: one has two dashes and a name, as --workers"
    };
    say(text, form, &[Part::Word(word)]);
}

/// Whether one of these words is the option of this name.
fn has_option(words: &[String], name: &str) -> bool {
    for word in words {
        if is_option(word.as_str()) && option_name(word.as_str()) == name {
            return true;
        }
    }
    false
}

/// Whether an option has its value in it, or in the word behind it.
fn has_value(option: &str, behind: Option<&String>) -> bool {
    match behind {
        Some(value) if !is_option(value.as_str()) => true,
        _ => option.contains('='),
    }
}

/// An option that isn't the command's.
fn add_unknown<'a>(text: &mut Text, call: &Call<'a>, name: &'a str)
    ensures { GoesOn text.old.bytes text.new.bytes }
{
    let (name, command) = (Part::Text(name), Part::Text(call.name));
    let has_none = call.command.options().is_empty() && call.command.flags().is_empty();
    if has_none {
        say(
            text,
            "--@ is no option of @, which has none: leave it out",
            &[name, command],
        );
    } else {
        say(
            text,
            "--@ is no option of @: write @",
            &[name, command, Part::Options(call.command)],
        );
    }
}

/// What is wrong with the word at this index, where it is an option that isn't the command's, comes again, has no value or has one that it
/// doesn't take; whether it is.
fn add_option_fault(text: &mut Text, call: &Call<'_>, at: usize) -> bool
    ensures { GoesOn text.old.bytes text.new.bytes }
{
    let Some(word) = call.words.get(at) else {
        return false;
    };
    let name = option_name(word.as_str());
    if !is_option(word.as_str()) {
        false
    } else if !call.takes_option(name) && !call.takes_flag(name) {
        add_unknown(text, call, name);
        true
    } else if has_option(call.words.get(..at).unwrap_or(&[]), name) {
        say(
            text,
            "--@ is given twice: leave one out",
            &[Part::Text(name)],
        );
        true
    } else if call.takes_flag(name) && word.contains('=') {
        add_needless_value(text, name);
        true
    } else if call.takes_option(name) && !has_value(word.as_str(), call.words.get(at + 1)) {
        add_no_value(text, name);
        true
    } else {
        false
    }
}

/// An argument too few or too many.
fn add_other_arguments(text: &mut Text, call: &Call<'_>)
    ensures { GoesOn text.old.bytes text.new.bytes }
{
    let arguments = call.command.arguments();
    let hint = if call.takes("POSITION") {
        ", with quotes around the POSITION, as \"24 23 / 24 23\""
    } else if call.takes("CONDITION") {
        ", with quotes around the CONDITION, as \"kind=0 pips<8\""
    } else {
        ""
    };
    match call.argument(arguments.len()) {
        Some(word) => say(text, "@ is a word too many: ", &[Part::Word(word)]),
        None => say(text, "a word is missing: ", &[]),
    }
    say(
        text,
        "write hypergammon @@@",
        &[
            Part::Text(call.name),
            Part::Arguments(arguments),
            Part::Text(hint),
        ],
    );
}

/// Words that aren't the command's arguments and options.
fn add_misformed(text: &mut Text, call: &Call<'_>)
    ensures { GoesOn text.old.bytes text.new.bytes }
{
    for at in 0..call.words.len() {
        if add_option_fault(text, call, at) {
            return;
        }
    }
    add_other_arguments(text, call);
}

/// Whether these are the points that two sides still need.
fn are_needs(value: &str) -> bool {
    matches!(*value.as_bytes(), [b'1'..=b'5', b'-', b'1'..=b'5'])
}

/// Needs whose phase isn't told as it has to be.
fn add_phase(text: &mut Text, call: &Call<'_>, value: &str)
    ensures { GoesOn text.old.bytes text.new.bytes }
{
    let crawford = has_option(call.words, "crawford");
    let form = if crawford && has_option(call.words, "post") {
        "--crawford and --post are of two games: leave one out"
    } else if value == "1-1" {
        "with --away @ the Crawford game is over: leave out --crawford"
    } else if value.contains('1') {
        "with --away @ it is the Crawford game or one after it: write --crawford or --post"
    } else {
        "with --away @ the Crawford game is still to come: leave out --crawford and --post"
    };
    say(text, form, &[Part::Word(value)]);
}

/// The value of this number, from 1.
fn add_bad_value(text: &mut Text, call: &Call<'_>, number: u32)
    ensures { GoesOn text.old.bytes text.new.bytes }
{
    let name = call.name_of(number).unwrap_or("");
    let value = call.given(name).unwrap_or("");
    if name == "NEW" && call.given("OLD") == Some(value) {
        return say(text, "NEW is OLD: give the new file another name", &[]);
    }
    if name == "roll" {
        let form = "whoever was doubled has no roll: leave out --roll or --take";
        return say(text, form, &[]);
    }
    if name == "worst" && has_option(call.words, "full") {
        let form = "--full shows all decisions: leave out --full or --worst";
        return say(text, form, &[]);
    }
    if name == "away" && are_needs(value) {
        return add_phase(text, call, value);
    }
    let dashes = if call.takes(name) { "" } else { "--" };
    say(
        text,
        "@@ @: write @",
        &[
            Part::Text(dashes),
            Part::Text(name),
            Part::Word(value),
            may_stand(name),
        ],
    );
}

/// Words that are no command's.
pub(crate) fn add_words(text: &mut Text, words: &[String], bad: BadWords)
    ensures { GoesOn text.old.bytes text.new.bytes }
{
    let Some(call) = Call::new(words) else {
        return add_no_command(text, words);
    };
    match bad.kind {
        WordsKind::Command => add_no_command(text, words),
        WordsKind::Word => match words.get(bad.place as usize) {
            Some(word) => add_faulty(text, &call, word.as_str()),
            None => add_no_command(text, words),
        },
        WordsKind::Form => add_misformed(text, &call),
        WordsKind::Value => add_bad_value(text, &call, bad.place),
    }
}
