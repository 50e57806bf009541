ghost use Rattle.std.specs.Prelude.{◌≡◌, ◌≤◌, ◌↔◌, IsTrue, [], count_by, IfOk, IfErr};
ghost use Rattle.game_record.specs.declared.record.Record.{Record as RecordRead};
ghost use Rattle.record_text.specs.Texts.{is_line_end, is_too_long, IsRecordText};
ghost use Rattle.record_text.specs.Faults.{IsLineFault, IsBad};
ghost use Rattle.game_record.specs.Replay.{StopsBy};
ghost use Rattle.record_text.specs.Drafts.{TakesLine};

use crate::draft::Draft;
use crate::form::cut_at;
use crate::laws::record_texts_have_no_fault;
use crate::read_line::read_line;
use game_record::{BadRecord, Next, Record, RecordFault, RecordStop, Stage};
use std::alloc::Global;

/// How many bytes a record has at most.
pub const MOST_RECORD_BYTES: usize = 1_048_576;

/// How many line ends a record has at most.
const MOST_LINES: usize = 65_536;

/// The record of which this is the text, or the first wrong line and what is wrong with it. It asks for memory, and may answer
/// `NoMemory`.
pub fn read_record(alloc: Global, text: &[u8]) -> Result<Record, RecordStop>
    ensures ok { IfOk result (IsRecordText text.now) }
    ensures err { IfErr result (StopsBy (IsBad text.now)) }
    ensures complete { (rec : RecordRead)
        → IsRecordText text.now rec → IfErr result (λ stop. stop ≡ RecordStop.NoMemory) }
{
    // So a record's text is refused for want of memory alone.
    record_texts_have_no_fault();
    read_text(alloc, text)
}

fn read_text(alloc: Global, text: &[u8]) -> Result<Record, RecordStop>
    ensures ok { IfOk result (IsRecordText text.now) }
    ensures err { IfErr result (StopsBy (IsBad text.now)) }
{
    if is_too_long(text) {
        return stop(0, RecordFault::TooLong);
    }
    let mut draft = Draft::new(alloc);
    let mut stage = Stage::first();
    let mut number = 1;
    let mut rest = text;
    while let Some((line, more)) = cut_at(rest, b'\n') {
        stage = take_line(alloc, stage, &mut draft, number, line)?;
        number += 1;
        rest = more;
    }
    if !is_whole(stage, rest) {
        return stop(number, RecordFault::Unended);
    }
    Ok(draft.finish())
}

/// Whether a record that has come so far is whole, with nothing behind it.
fn is_whole(stage: Stage, rest: &[u8]) -> bool
    ensures { IsTrue result ↔ ((rest.now ≡ []) × (stage.next ≡ Next.Nothing)) }
{
    rest.is_empty() && stage.next == Next::Nothing
}

fn stop(line: u32, fault: RecordFault) -> Result<Record, RecordStop>
    ensures { result ≡ Err (RecordStop.Bad (record { line = line; fault = fault })) }
{
    Err(RecordStop::Bad(BadRecord { line, fault }))
}

/// Takes one line: how far the record has come with it.
fn take_line(
    alloc: Global,
    stage: Stage,
    draft: &mut Draft,
    number: u32,
    line: &[u8],
) -> Result<Stage, RecordStop>
    requires { stage.games ≤ 1048576 }
    ensures ok { IfOk result (λ after. TakesLine stage draft.old line.now after draft.new) }
    ensures err { IfErr result (StopsBy (λ bad.
        (bad.line ≡ number) × IsLineFault stage line.now bad.fault)) }
{
    let (said, next) = match read_line(stage, line) {
        Ok(read) => read,
        Err(fault) => {
            return Err(RecordStop::Bad(BadRecord {
                line: number,
                fault,
            }));
        }
    };
    let after = stage.with(&said, next);
    draft.add(alloc, said)?;
    Ok(after)
}

fn is_too_long(text: &[u8]) -> bool
    ensures { result ≡ is_too_long text.now }
{
    text.len() > MOST_RECORD_BYTES || line_ends(text) > MOST_LINES
}

fn line_ends(text: &[u8]) -> usize
    ensures { result ≡ count_by is_line_end text.now }
{
    let mut ends = 0;
    for byte in text {
        if *byte == b'\n' {
            ends += 1;
        }
    }
    ends
}
