ghost use Rattle.std.specs.Prelude.{◌≡◌, take};
ghost use Rattle.plain_record.specs.Plain.{line_at};

use crate::cut::cut;
use arrayvec::ArrayVec;

/// The first bytes of a line.
pub type LineFront = ArrayVec<u8, 80>;

/// The line of this number, counted from 1. It is empty for 0, and where there is no such line.
fn line_at(text: &[u8], number: u32) -> &[u8]
    ensures { result.now ≡ line_at text.now number }
{
    let mut rest = text;
    if number == 0 {
        return &[];
    }
    'lines: for _passed in 1..number {
        match cut(rest, b'\n').1 {
            Some(more) => rest = more,
            None => return &[],
        }
    }
    cut(rest, b'\n').0
}

/// The first bytes of the line of this number, counted from 1. There are none where there is no such line.
pub fn line_front(text: &[u8], number: u32) -> LineFront
    ensures { result.items ≡ take 80 (line_at text.now number) }
{
    let mut front = LineFront::new();
    let line = line_at(text, number);
    let _ = front.try_extend_from_slice(&line[..line.len().min(80)]);
    front
}
