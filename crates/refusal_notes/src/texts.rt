ghost use Rattle.std.specs.Prelude.{◌≤◌};
ghost use Rattle.refusal_notes.specs.Notes.{GoesOn};

use crate::call::Call;
use crate::sentence::{Part, Text, say};
use command_line::{plain_position, position_given};
use position_id::has_id_form;
use position_text::{BadPosition, read_place};

/// A roll's text that shows none.
pub(crate) fn add_roll(text: &mut Text, call: &Call<'_>)
    ensures { GoesOn text.old.bytes text.new.bytes }
{
    let form = "--roll @: write two digits from 1 to 6, as 61";
    say(text, form, &[Part::Word(call.given("roll").unwrap_or(""))]);
}

/// A text without one slash.
fn add_shape(text: &mut Text, position: &str)
    ensures { GoesOn text.old.bytes text.new.bytes }
{
    let form = if position.contains('/') {
        "@ has a slash too many: write one, as in \"24 23 / 24 23\""
    } else {
        "@ has no slash: write the places of the side to move, a slash and the other side's, as in \"24 23 / 24 23\""
    };
    say(text, form, &[Part::Word(position)]);
}

/// The first word of a plain form that is neither a place nor the slash.
fn wrong_place(plain: &str) -> &str {
    for word in plain.split(' ') {
        if word != "/" && read_place(word).is_none() {
            return word;
        }
    }
    plain
}

fn count_places(side: &str) -> u64 {
    let mut count = 0u64;
    for word in side.split(' ') {
        if !word.is_empty() {
            count = count.saturating_add(1);
        }
    }
    count
}

fn holds(side: &str, place: u8) -> bool {
    for word in side.split(' ') {
        if read_place(word) == Some(place) {
            return true;
        }
    }
    false
}

/// The first point that both sides hold, as the mover counts it.
fn shared_point(mover: &str, other: &str) -> u8
    ensures { result ≤ 24 }
{
    for mine in 1..24 {
        if holds(mover, mine) && holds(other, 25 - mine) {
            return mine;
        }
    }
    24
}

fn add_shared(text: &mut Text, mover: &str, other: &str)
    ensures { GoesOn text.old.bytes text.new.bytes }
{
    let mine = shared_point(mover, other);
    say(
        text,
        "both sides hold the same point: your @ is the other side's @; each side counts from its own view",
        &[
            Part::Number(u64::from(mine)),
            Part::Number(u64::from(25 - mine)),
        ],
    );
}

/// The form of a sentence on an ID that tells no position.
fn form_of_id(bad: BadPosition) -> &'static str {
    match bad {
        BadPosition::Shape | BadPosition::Place => {
            "@ is no position ID: write one of 14 signs, or a position as \"24 23 / 24 23\""
        }
        BadPosition::Count => "@ tells more than three checkers of a side, or none of either",
        BadPosition::SharedPoint => "@ tells a point that both sides hold",
        BadPosition::Over => "@ tells no checker of a side: the game is over",
    }
}

/// What is wrong with a position's text of this plain form, or of none.
fn add_places(text: &mut Text, position: &str, plain: &str, bad: BadPosition)
    ensures { GoesOn text.old.bytes text.new.bytes }
{
    let (mover, other) = plain.split_once('/').unwrap_or((plain, ""));
    match bad {
        BadPosition::Shape => add_shape(text, position),
        BadPosition::Place => say(
            text,
            "@ is no place: write bar, 1 to 24 or off, as in \"24 23 / 24 23\"",
            &[Part::Word(wrong_place(plain))],
        ),
        BadPosition::Count => say(
            text,
            "the side to move has @ places and the other side @: write as many for each, one to three, those off too, as in \"6 off / 1 off\"",
            &[
                Part::Number(count_places(mover)),
                Part::Number(count_places(other)),
            ],
        ),
        BadPosition::SharedPoint => add_shared(text, mover, other),
        BadPosition::Over => say(
            text,
            "in @ a side has all its checkers off, so the game is over: leave one on the bar or a point",
            &[Part::Word(position)],
        ),
    }
}

/// A position's text that describes none.
pub(crate) fn add_position(text: &mut Text, call: &Call<'_>, bad: BadPosition)
    ensures { GoesOn text.old.bytes text.new.bytes }
{
    let position = call.given("POSITION").unwrap_or("");
    if has_id_form(position) {
        return say(text, form_of_id(bad), &[Part::Word(position)]);
    }
    if position_given(call.given("FILE").unwrap_or("")).is_ok() {
        return say(
            text,
            "FILE and POSITION seem exchanged: write hypergammon @@",
            &[
                Part::Text(call.name),
                Part::Arguments(call.command.arguments()),
            ],
        );
    }
    match plain_position(position) {
        Some(plain) => add_places(text, position, plain.as_str(), bad),
        None => add_places(text, position, position, bad),
    }
}

/// A condition's text with which none can go on at the word of this number, from 0.
pub(crate) fn add_condition(text: &mut Text, call: &Call<'_>, word: u32)
    ensures { GoesOn text.old.bytes text.new.bytes }
{
    let condition = call.given("CONDITION").unwrap_or("");
    match condition.split(' ').nth(word as usize) {
        None => say(
            text,
            "@ ends too early: write a test as kind=0 at its end",
            &[Part::Word(condition)],
        ),
        Some(word) => say(
            text,
            "@ can't stand there in @: write tests of lower, upper, width, kind, pips, opips, off, ooff, bar, obar, offer or answer, as kind=0 or !pips<8, at most 64, with single spaces, and | between groups of them",
            &[Part::Word(word), Part::Word(condition)],
        ),
    }
}
