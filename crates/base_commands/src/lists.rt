ghost use Rattle.std.specs.Prelude.{◌≡◌, ◌≤◌, ◌<◌, ◌∷◌, IfErr, IfOk, IsTrue, Err, length};
ghost use Rattle.std.specs.Str.Lines.{lines, strip_carriage_return};
ghost use Rattle.position_rank.specs.Placement.{IsPosition, IsLive};
ghost use Rattle.roll_table.specs.Rolls.{IsRoll};
ghost use Rattle.hyper_outside.specs.Causes.{Rose};
ghost use Rattle.outside_log.specs.Log.{standing};
ghost use Rattle.outside_log.specs.Readings.{ReadsOn, is_faithful, read_faults};
ghost use Rattle.equity_report.specs.declared.refusal.Refusal.TheVariants.{Read};
ghost use Rattle.run_endings.specs.Endings.{IsOfListing};
ghost use Rattle.command_line.specs.Values.{roll_named};
ghost use Rattle.base_commands.specs.Lists.{AnswersList, GivesAs, GivesPosition, GivesRolled, TellsUnlisted, is_blank, without_blanks, word_start, words_refusal};

use command_line::{WordsFault, position_given, roll_named};
use equity_report::{FileName, Refusal};
use game_record::{BadRecord, RecordFault};
use hyper_outside::{BadWords, WordsKind};
use outside_log::{Files, WholeStop, read_whole};
use position_rank::Position;
use roll_table::Roll;
use std::alloc::Global;

/// How many bytes a list has at most.
pub const MOST_LIST_BYTES: u64 = 67_108_864;

/// A position and a roll that is to be played from it.
#[derive(Clone, Copy)]
pub struct RolledPosition {
    pub position: Position,
    pub roll: Roll,
}

/// The refusal that tells why the file of this name, which is to hold a list, was not read.
fn unread_refusal(stop: WholeStop, name: &str) -> Refusal
    requires { length name.now ≤ 255 }
    ensures told { TellsUnlisted name.now stop result }
    ensures kinds { IsOfListing result }
{
    match stop {
        WholeStop::Missing => Refusal::Missing(FileName::from(name).unwrap()),
        WholeStop::TooLong => Refusal::Record(BadRecord {
            line: 0,
            fault: RecordFault::TooLong,
        }),
        WholeStop::ReadFault => Refusal::Read,
        WholeStop::NoMemory => Refusal::Memory,
    }
}

/// The bytes of the list in a file of this name. `Missing` comes exactly where there is no file, `Record` exactly where it has more than
/// 67,108,864 bytes; then it isn't read. `Read` comes only where a call that reads failed. No file changes.
pub(crate) fn read_list<F: Files>(
    alloc: Global,
    name: &str,
    files: &mut F,
) -> Result<Vec<u8>, Refusal>
    requires { length name.now ≤ 255 }
    ensures told { IsTrue (is_faithful (F.log files.new))
        → AnswersList name.now (standing (F.log files.old) name.now) result }
    ensures later { read_faults (F.log files.old) ≤ read_faults (F.log files.new) }
    ensures cause { result ≡ Err Read
        → Rose (read_faults (F.log files.old)) (read_faults (F.log files.new)) }
    ensures reads { ReadsOn (F.log files.old) (F.log files.new) }
    ensures kinds { IfErr result IsOfListing }
{
    match read_whole(alloc, files, name, MOST_LIST_BYTES) {
        Ok(list) => Ok(list),
        Err(stop) => Err(unread_refusal(stop, name)),
    }
}

/// A line without the carriage return at its end, if it has one.
fn without_return(line: &[u8]) -> &[u8]
    ensures { result.now ≡ strip_carriage_return line.now }
{
    if !line.is_empty() && line[line.len() - 1] == b'\r' {
        &line[..line.len() - 1]
    } else {
        line
    }
}

/// The first line of a text that isn't empty, and what stands behind its end.
pub(crate) fn first_line(text: &[u8]) -> (&[u8], &[u8])
    requires { 1 ≤ length text.now }
    ensures first { lines text.now ≡ result.0.now ∷ lines result.1.now }
    ensures shorter { length result.1.now < length text.now }
{
    match text.iter().position(|byte| *byte == b'\n') {
        Some(end) => (without_return(&text[..end]), &text[end + 1..]),
        None => (text, &[]),
    }
}

/// The refusal of words with which this is wrong.
pub fn words_refusal(fault: WordsFault) -> Refusal
    ensures { result ≡ words_refusal fault }
{
    match fault {
        WordsFault::Words(bad) => Refusal::Words(bad),
        WordsFault::Position(bad) => Refusal::Position(bad),
        WordsFault::Roll(bad) => Refusal::Roll(bad),
    }
}

/// The live position that a text gives, as a word of `show` does, or the refusal of that word.
pub(crate) fn read_given(text: &[u8]) -> Result<Position, Refusal>
    ensures given { GivesPosition text.now result }
    ensures position { IfOk result IsPosition }
    ensures live { IfOk result IsLive }
{
    match std::str::from_utf8(text) {
        Ok(text) => match position_given(text) {
            Ok(position) => Ok(position),
            Err(fault) => Err(words_refusal(fault)),
        },
        Err(_) => Err(Refusal::Words(BadWords {
            kind: WordsKind::Word,
            place: 0,
        })),
    }
}

/// The roll of two dice that a text gives, as a word of `advise` does, or the refusal of that word.
fn read_roll(text: &[u8]) -> Result<Roll, Refusal>
    ensures given { GivesAs roll_named text.now result }
    ensures roll { IfOk result IsRoll }
{
    match std::str::from_utf8(text) {
        Ok(text) => match roll_named(text) {
            Ok(roll) => Ok(roll),
            Err(fault) => Err(words_refusal(fault)),
        },
        Err(_) => Err(Refusal::Words(BadWords {
            kind: WordsKind::Word,
            place: 0,
        })),
    }
}

/// Whether the byte is a space or a tab.
fn is_blank(byte: u8) -> bool
    ensures { result ≡ is_blank byte }
{
    byte == b' ' || byte == b'\t'
}

/// Where the last word of a line begins: behind its last blank.
fn word_start(line: &[u8]) -> usize
    ensures start { result ≡ word_start line.now }
    ensures within { result ≤ length line.now }
{
    let mut start = line.len();
    'word: while start > 0 && !is_blank(line[start - 1]) {
        start -= 1;
    }
    start
}

/// A text without the blanks at its end.
fn without_blanks(text: &[u8]) -> &[u8]
    ensures { result.now ≡ without_blanks text.now }
{
    let mut end = text.len();
    'blanks: while end > 0 && is_blank(text[end - 1]) {
        end -= 1;
    }
    &text[..end]
}

/// The position and the roll that a line gives, or the refusal of the first of them that is wrong.
pub(crate) fn read_rolled(line: &[u8]) -> Result<RolledPosition, Refusal>
    ensures given { GivesRolled line.now result }
    ensures position { IfOk result (λ rolled. IsPosition rolled.position) }
    ensures live { IfOk result (λ rolled. IsLive rolled.position) }
    ensures roll { IfOk result (λ rolled. IsRoll rolled.roll) }
{
    let start = word_start(line);
    match read_given(without_blanks(&line[..start])) {
        Ok(position) => match read_roll(&line[start..]) {
            Ok(roll) => Ok(RolledPosition { position, roll }),
            Err(refusal) => Err(refusal),
        },
        Err(refusal) => Err(refusal),
    }
}
