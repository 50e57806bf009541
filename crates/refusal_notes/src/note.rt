ghost use Rattle.std.specs.Prelude.{◌≡◌, ◌≤◌, length};
ghost use Rattle.run_endings.specs.Notes.{PutsNote, WasNoted};

use crate::call::{Call, add_words};
use crate::files::{add_file, add_game, add_missing, add_other, add_unheld};
use crate::record::add_record;
use crate::sentence::{Text, say};
use crate::texts::{add_condition, add_position, add_roll};
use equity_report::Refusal;
use outside_log::Sink;
use run_endings::{RunStop, put_line};

const NOT_TEXT: &str = "a word isn't text: write it in UTF-8";

const NO_MEMORY: &str =
    "there is no memory: fewer checkers need less; to solve three takes about 800 MB";

const NOT_READ: &str =
    "a file can't be read: it is a folder, or not yours to read, or the disk has a fault";

const NOT_WRITTEN: &str =
    "writing failed: the folder has to be there and yours to write in, and the disk needs room";

const NOT_A_RACE: &str =
    "the sides can still meet: in a race the highest places of both add up to less than 25";

/// On a refusal of a command, whose words are in their form, of a record for a line that begins with these bytes.
fn add_refusal(text: &mut Text, call: &Call<'_>, refusal: &Refusal, wrong: &[u8]) {
    match refusal {
        Refusal::Position(bad) => add_position(text, call, *bad),
        Refusal::Roll(_) => add_roll(text, call),
        Refusal::Missing(name) => add_missing(text, call, name.as_str()),
        Refusal::File(bad) => add_file(text, call, *bad),
        Refusal::Base { wanted, found } => add_game(text, call, *wanted, *found),
        Refusal::Inconsistent(unheld) => add_unheld(text, call, unheld),
        Refusal::Record(bad) => add_record(text, call, *bad, wrong),
        Refusal::Condition { word } => add_condition(text, call, *word),
        Refusal::Other(name) => add_other(text, call, name.as_str()),
        Refusal::Contact => say(text, NOT_A_RACE, &[]),
        Refusal::Read => say(text, NOT_READ, &[]),
        Refusal::Write => say(text, NOT_WRITTEN, &[]),
        Refusal::Memory | Refusal::Words(_) => say(text, NO_MEMORY, &[]),
    }
}

/// What lets one mend the call of these words.
fn text_of(words: &[String], stop: &RunStop, wrong: &[u8]) -> Text {
    let mut text = Text::new();
    match (stop, Call::new(words)) {
        (RunStop::NotWritten, _) => say(&mut text, NOT_WRITTEN, &[]),
        (RunStop::Refused(Refusal::Words(bad)), _) => add_words(&mut text, words, *bad),
        (RunStop::Refused(refusal), Some(call)) => add_refusal(&mut text, &call, refusal, wrong),
        (RunStop::Refused(_), None) => say(&mut text, NO_MEMORY, &[]),
    }
    text
}

/// Puts it where a run ended before all was done.
fn put_where_stopped<N: Sink>(notes: &mut N, ending: &Result<(), RunStop>, sentence: &str)
    requires { length sentence.now ≤ 1000 }
    ensures { PutsNote ending.now (N.output notes.old) (N.output notes.new) }
{
    if ending.is_err() {
        put_line(notes, sentence);
    }
}

/// Puts a line on why a run of these words ended before all was done, by which the call can be mended. Where a line of a record is refused, it
/// begins with the bytes of `wrong`. Where putting fails, a front of it was put. Nothing is put where all was done.
pub fn put_note<N: Sink>(
    notes: &mut N,
    words: &[String],
    ending: &Result<(), RunStop>,
    wrong: &[u8],
)
    ensures { PutsNote ending.now (N.output notes.old) (N.output notes.new) }
{
    let text = match ending {
        Ok(()) => Text::new(),
        Err(stop) => text_of(words, stop, wrong),
    };
    put_where_stopped(notes, ending, text.as_str());
}

/// Puts such a line on words that couldn't be had: one isn't text, or there was no memory for them.
pub fn put_unread_note<N: Sink>(notes: &mut N, not_text: bool)
    ensures { WasNoted (N.output notes.old) (N.output notes.new) }
{
    put_line(notes, if not_text { NOT_TEXT } else { NO_MEMORY });
}
