ghost use Rattle.std.specs.Prelude.{◌≡◌, ◌+◌, ◌++◌, ◌≤◌, IfOk, OnOk, length, slice_index};
ghost use Rattle.std.specs.List.{list_all};
ghost use Rattle.plain_record.specs.Plain.{begins_with_hash, is_blank_byte, line_if_any, line_numbers, number_if_any, plain_text, says_nothing};

use crate::cut::first_line;
use crate::play::add_line;
use hyper_outside::NoMemory;
use std::alloc::Global;

/// What the text of a record is read as.
#[derive(Drop)]
pub struct PlainRecord {
    pub text: Vec<u8>,
    /// For each line of this text the line that it comes from, both counted from 1, and then the line behind all. First stands 0.
    pub lines: Vec<u32>,
}

impl PlainRecord {
    /// The line that the line of this number comes from, both counted from 1. It is 0 for 0, and for a line that isn't there.
    pub fn line_of(&self, number: u32) -> u32
        ensures { result ≡ slice_index self.now.lines.items number }
    {
        self.lines.get(number as usize).copied().unwrap_or(0)
    }
}

fn begins_with_hash(line: &[u8]) -> bool
    ensures { result ≡ begins_with_hash line.now }
{
    matches!(line, [b'#', ..])
}

fn is_all_blank(line: &[u8]) -> bool
    ensures { result ≡ list_all is_blank_byte line.now }
{
    line.iter().all(|byte| *byte == b' ' || *byte == b'\t')
}

/// Whether a line is empty, of blanks alone, or a remark.
fn says_nothing(line: &[u8]) -> bool
    ensures { result ≡ says_nothing line.now }
{
    begins_with_hash(line) || is_all_blank(line)
}

/// Adds what a line of this number is read as, and its number, where it says something.
fn take_line(
    text: &mut Vec<u8>,
    lines: &mut Vec<u32>,
    number: u32,
    line: &[u8],
) -> Result<(), NoMemory>
    ensures text { OnOk result (text.new.items ≡ text.old.items ++ line_if_any line.now) }
    ensures number { OnOk result
        (lines.new.items ≡ lines.old.items ++ number_if_any number line.now) }
{
    if says_nothing(line) {
        return Ok(());
    }
    add_line(text, line)?;
    lines.push(number)?;
    Ok(())
}

/// What the text of a record is read as. It asks for memory, and may answer `NoMemory`.
pub fn read_plain(alloc: Global, text: &[u8]) -> Result<PlainRecord, NoMemory>
    requires { length text.now ≤ 1048576 }
    ensures text { IfOk result (λ plain. plain.text.items ≡ plain_text text.now) }
    ensures lines { IfOk result (λ plain. plain.lines.items ≡ line_numbers text.now) }
{
    let mut plain = Vec::new(alloc);
    let mut lines = Vec::new(alloc);
    lines.push(0)?;
    let mut number = 1;
    let mut rest = text;
    'lines: while !rest.is_empty() {
        let (line, more) = first_line(rest);
        take_line(&mut plain, &mut lines, number, line)?;
        number += 1;
        rest = more;
    }
    lines.push(number)?;
    Ok(PlainRecord { text: plain, lines })
}
