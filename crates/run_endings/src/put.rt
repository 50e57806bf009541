ghost use Rattle.std.specs.Prelude.{◌≡◌, ◌⊎◌, IsTrue, IsFalse};
ghost use Rattle.equity_report.specs.declared.refusal.Refusal.TheVariants.{Memory};
ghost use Rattle.equity_report.specs.Refusals.{status_of, refusal_text};
ghost use Rattle.run_endings.specs.Endings.{PutsEnding, WasPut, no_text, status_at};

use crate::ending::RunStop;
use equity_report::{Refusal, write_refusal};
use hyper_outside::{BadWords, WordsKind};
use outside_log::Sink;

/// The status of a run that did all that it was asked for.
pub const DONE: u8 = 0;

/// Puts a refusal's line, and answers its status. Where that fails too, the status stays.
fn refuse<O: Sink>(out: &mut O, refusal: &Refusal) -> u8
    ensures status { result ≡ status_of refusal.now }
    ensures told { WasPut (O.output out.old) (O.output out.new) (refusal_text refusal.now) }
{
    let _ = write_refusal(out, refusal);
    refusal.status()
}

/// Ends a run: puts the line of the refusal where one is due, and answers the status.
pub fn end<O: Sink>(out: &mut O, ending: Result<(), RunStop>) -> u8
    ensures status { result ≡ status_at ending }
    ensures line { PutsEnding ending (O.output out.old) (O.output out.new) }
{
    match ending {
        Ok(()) => DONE,
        Err(RunStop::NotWritten) => refuse(out, &Refusal::Write),
        Err(RunStop::Refused(refusal)) => refuse(out, &refusal),
    }
}

/// Refuses words that couldn't be had, and answers the status. Where one isn't text, whose place can't be told, the
/// line of that refusal is put, or a front of it where that failed. Else there was no memory for them, and nothing is
/// put.
pub fn refuse_unread<O: Sink>(out: &mut O, not_text: bool) -> u8
    ensures status { IsTrue not_text → result ≡ status_of no_text }
    ensures told { IsTrue not_text
        → WasPut (O.output out.old) (O.output out.new) (refusal_text no_text) }
    ensures refused { (result ≡ status_of no_text) ⊎ (result ≡ status_of Memory) }
    ensures memory { IsFalse not_text → result ≡ status_of Memory }
    ensures nothing { IsFalse not_text → O.output out.new ≡ O.output out.old }
{
    if not_text {
        refuse(
            out,
            &Refusal::Words(BadWords {
                kind: WordsKind::Word,
                place: 0,
            }),
        )
    } else {
        Refusal::Memory.status()
    }
}
