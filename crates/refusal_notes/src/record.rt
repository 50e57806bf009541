ghost use Rattle.refusal_notes.specs.Notes.{GoesOn};

use crate::call::Call;
use crate::sentence::{Part, Text, say};
use command_line::CommandName;
use game_record::{BadRecord, RecordFault};
use move_rules::BadPlay;

const LONG_LIST: &str = "the list is too long: it may have 67108864 bytes, so cut it in two";

/// How often a sign stands in a text.
fn count(text: &str, sign: u8) -> usize {
    text.as_bytes().iter().filter(|byte| **byte == sign).count()
}

/// Why a mark is wrong, where no step of the play has one, all have, or some have.
fn mark_reason(play: &str) -> &'static str {
    let marks = count(play, b'*');
    if marks == 0 {
        "a step hits a checker, so write a * behind it"
    } else if marks >= count(play, b'/') {
        "no checker of the other side is there to hit"
    } else {
        "a * stands where no checker is hit, or lacks where one is"
    }
}

/// Why a play can't be made.
fn play_reason(bad: BadPlay, play: &str) -> &'static str {
    match bad {
        BadPlay::WrongDice => "a step isn't made by a die that is left",
        BadPlay::NoChecker => "no checker of the player is where a step begins",
        BadPlay::BarFirst => "the checker on the bar has to move first",
        BadPlay::NotHome => "a checker can't be borne off while another is farther behind",
        BadPlay::Closed => "two or more checkers of the other side hold the point of a step",
        BadPlay::HitMark => mark_reason(play),
        BadPlay::TooFew => "more steps can be made, so they have to be",
        BadPlay::HigherDie => "the higher die can be played, so it has to be",
    }
}

/// The roll and the play in the line of a roll, as far as it is kept.
fn roll_and_play(wrong: &[u8]) -> Option<(&str, &str)> {
    let line = str::from_utf8(wrong).ok()?;
    let line = line.strip_suffix('\r').unwrap_or(line);
    let (_player, deed) = line.split_once(' ')?;
    deed.split_once(' ')
}

/// A play that can't be made, in this line of a record, which begins with these bytes.
fn add_play(text: &mut Text, line: u32, wrong: &[u8], bad: BadPlay)
    ensures { GoesOn text.old.bytes text.new.bytes }
{
    let (roll, play) = roll_and_play(wrong).unwrap_or(("the roll", "so"));
    say(
        text,
        "line @: @ can't be played @: @",
        &[
            Part::Number(u64::from(line)),
            Part::Text(roll),
            Part::Text(play),
            Part::Text(play_reason(bad, play)),
        ],
    );
}

/// What is wrong with a line, and what may stand there.
fn fault_form(fault: RecordFault) -> &'static str {
    match fault {
        RecordFault::Shape => {
            "line @ has no form of a record's lines: write it as A 31 24/21 21/20, B double or end A 1, with single spaces"
        }
        RecordFault::Order => {
            "line @ can't come there: the players roll in turn, a double is answered, and end or stop ends a game"
        }
        RecordFault::Rules => {
            "line @: write 1, 2 or 3 checkers, and stakes cubeless, money, jacoby, money-beavers, jacoby-beavers or match 1 to match 5"
        }
        RecordFault::Number => {
            "line @ has a wrong number: games count from 1, away has 1 to 5 and end 1 to 3, a roll has the higher die first, and a game doesn't begin with a double"
        }
        RecordFault::Play => {
            "line @ has no play behind its roll: write a step for each die, as 24/18 23/17*, or - where none can be made"
        }
        RecordFault::TooLong => "the record is too long: it may have 1048576 bytes and 65536 lines",
        RecordFault::Unended => "the record ends before line @: write close as its last line",
        RecordFault::IllegalPlay(_) => "line @ has a play that can't be made",
        RecordFault::IllegalCube => {
            "line @: the player may not double there, or the stakes are without beavers"
        }
        RecordFault::ScoreWrong => {
            "line @ doesn't fit what was played before: look at the score, who won, and the points"
        }
    }
}

/// The first wrong line of a record, which begins with these bytes, or a list that is too long.
pub(crate) fn add_record(text: &mut Text, call: &Call<'_>, bad: BadRecord, wrong: &[u8])
    ensures { GoesOn text.old.bytes text.new.bytes }
{
    if matches!(
        call.command,
        CommandName::ShowList | CommandName::AdviseList
    ) {
        return say(text, LONG_LIST, &[]);
    }
    if let RecordFault::IllegalPlay(why) = bad.fault {
        return add_play(text, bad.line, wrong, why);
    }
    if bad.line != 1 {
        return say(
            text,
            fault_form(bad.fault),
            &[Part::Number(u64::from(bad.line))],
        );
    }
    let form = if call.takes("BASE") {
        "@ is no record, whose line 1 is \"hypergammon record 1\": look whether BASE and RECORD are exchanged"
    } else {
        "@ is no record, whose line 1 is \"hypergammon record 1\": write the name of one; hypergammon help record shows one"
    };
    say(
        text,
        form,
        &[Part::Word(call.given("RECORD").unwrap_or(""))],
    );
}
