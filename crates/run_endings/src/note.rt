ghost use Rattle.std.specs.Prelude.{◌≤◌, length};
ghost use Rattle.run_endings.specs.Notes.{IsNote, IsShown, WasNoted};

use arrayvec::{ArrayString, ArrayVec};
use itoa::Buffer;
use outside_log::Sink;

/// The most bytes of a sentence's line.
const LINE: usize = 1001;

/// The byte, or `?` for one by which a terminal could be told to do something: a control byte, and what makes one of Unicode's control
/// signs with the byte before it.
fn shown(before: u8, byte: u8) -> u8
    ensures { IsShown result }
{
    if byte < 32 || byte == 127 || before == 0xC2 && byte < 0xA0 {
        b'?'
    } else {
        byte
    }
}

/// The line of a sentence, in which no control byte stands but the line feed.
fn line_of(sentence: &str) -> ArrayVec<u8, LINE>
    requires { length sentence.now ≤ 1000 }
    ensures { IsNote result.items }
{
    let mut line = ArrayVec::new();
    let mut before = 0;
    let bytes = sentence.as_bytes();
    'bytes: for byte in bytes {
        line.push(shown(before, *byte));
        before = *byte;
    }
    line.push(b'\n');
    line
}

/// Puts the line of a sentence, or a front of it where that fails. In place of a control byte stands a `?`.
pub fn put_line<N: Sink>(notes: &mut N, sentence: &str)
    requires { length sentence.now ≤ 1000 }
    ensures { WasNoted (N.output notes.old) (N.output notes.new) }
{
    let _ = notes.put(line_of(sentence).as_slice());
}

/// How many lines begin with a `!`, and how many there are.
fn tally(report: &[u8]) -> (u64, u64) {
    let mut wrong: u64 = 0;
    let mut lines: u64 = 0;
    let mut begins = true;
    for byte in report.iter() {
        if begins && *byte == b'!' {
            wrong = wrong.saturating_add(1);
        }
        begins = *byte == b'\n';
        lines = lines.saturating_add(u64::from(begins));
    }
    (wrong, lines)
}

/// Puts a line on how many lines of a report on a list tell what is wrong. Where putting fails, a front of it was put.
pub fn put_tally<N: Sink>(notes: &mut N, report: &[u8])
    ensures { WasNoted (N.output notes.old) (N.output notes.new) }
{
    let (wrong, lines) = tally(report);
    let mut sentence = ArrayString::<64>::new();
    let _ = sentence.try_push_str(Buffer::new().format(wrong));
    let _ = sentence.try_push_str(" of ");
    let _ = sentence.try_push_str(Buffer::new().format(lines));
    let _ = sentence.try_push_str(" lines are wrong");
    put_line(notes, sentence.as_str());
}
