ghost use Rattle.std.specs.Prelude.{◌≡◌, ℕ, List, [], ◌∷◌, Some};
ghost use Rattle.outside_log.specs.Log.{Found};
ghost use Rattle.system_files.specs.Written.{output_of};
ghost use Rattle.run_endings.specs.Notes.{PutsNotes};
ghost use Rattle.run_endings.specs.Endings.{Ending, IsStatus};
ghost use Rattle.top_call.specs.Outcomes.{LeavesAllFiles, RunsAsAsked, asked, asks_list};

use crate::top::run;
use progress_line::{ProgressGate, WipingWriter};
use refusal_notes::put_unread_note;
use run_endings::refuse_unread;
use std::alloc::Global;
use std::io::{Eprint, Write};
use std::rt::{Clock, Env, Files as System};
use std::thread::Threads;
use std::{env, io};
use system_files::{RealFiles, RealSink};

/// The words after the program's name. A word that isn't text is `InvalidData`.
fn words_of<R: Env + AllocGlobal>(rt: &R) -> io::Result<Vec<String>> {
    let mut words = Vec::new(rt.alloc());
    for word in env::args(rt)?.skip(1) {
        words.push(word)?;
    }
    Ok(words)
}

/// Runs the program on these words, over the files of the system and these writers of the output and of notes, and answers its status, with
/// the log of what calls have done and were answered, and with what was put to both. Which files may have stood there at first, `found`, is
/// free: what a clause says of a file that was read holds of that of any files that agree with all answers. The gate tells on standard error
/// how far a run that solves or checks has come, in a line that is wiped before anything is put.
pub fn run_real<'g, 'a, R: Threads + Sync + Eprint + Clock + System, W: Write, E: Write>(
    rt: &'a R,
    alloc: Global,
    words: &[String],
    writer: W,
    errors: E,
    gate: &'g ProgressGate<'a, R>,
) -> (
    u8,
    RealFiles<&'a R>,
    RealSink<WipingWriter<'g, 'a, R, W>>,
    RealSink<WipingWriter<'g, 'a, R, E>>,
)
    ghost found: { List (List ℕ × List ℕ) }
    ensures { (ending : Ending)
        × RunsAsAsked (asked words.now) (Found found ∷ []) result.1.log.events
        (record { told = Some []; faults = 0 }) (output_of result.2) result.0 ending
        × (LeavesAllFiles (asked words.now) ending
        → result.1.log.events ≡ Found found ∷ [])
        × PutsNotes (asks_list (asked words.now)) ending
        (record { told = Some []; faults = 0 }) (output_of result.3) }
{
    let mut files = RealFiles::new(rt, alloc);
    let mut out = RealSink::new(WipingWriter::new(gate, writer));
    let mut notes = RealSink::new(WipingWriter::new(gate, errors));
    let status = run(rt, alloc, words, &mut files, &mut out, &mut notes, gate);
    gate.wipe();
    (status, files, out, notes)
}

/// Runs the program on its own words, over standard output, real files and a writer of notes, and answers the status with which it ends. What
/// its words are no contract can say; `run_real`, `refuse_unread` and `put_unread_note` say what is done with them. How far a run has come is
/// told only where it is to be shown.
pub fn start<
    R: Threads + Sync + Env + Print + Eprint + Clock + System + AllocGlobal,
    E: Write + Drop,
>(rt: &R, errors: E, shows: bool) -> u8
    ensures { IsStatus result }
{
    let out = io::writer(rt);
    let gate = ProgressGate::new(rt, shows);
    match words_of(rt) {
        Ok(words) => run_real(rt, rt.alloc(), words.as_slice(), out, errors, &gate).0,
        Err(error) => {
            let not_text = error.kind() == io::ErrorKind::InvalidData;
            put_unread_note(&mut RealSink::new(errors), not_text);
            refuse_unread(&mut RealSink::new(out), not_text)
        }
    }
}
