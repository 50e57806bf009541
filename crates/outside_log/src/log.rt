ghost use Rattle.std.specs.Prelude.{◌≡◌, ◌≤◌, List, [], ◌∷◌, ◌++◌, IfOk, length};
ghost use Rattle.std.specs.Borrow.{ftrue};
ghost use Rattle.outside_log.specs.Log.{Event};

use crate::outside::Files;
use hyper_outside::Failed;
use std::marker::Model;

/// What calls have done and were answered, the oldest first. Only proofs read it: it takes no memory and no time.
#[derive(Drop)]
pub struct Log {
    pub ghost events: { List Event },
}

impl Model for Log {
    ghost also_owns = { λ _. ftrue };
}

/// An event, as code tells it.
#[derive(Clone, Copy)]
pub enum Told<'a> {
    /// The name was said to have so many bytes, or not to be there.
    Sized(&'a str, Option<u64>),
    /// These bytes were read of it, from this place on, where there was room for so many.
    Read(&'a str, u64, usize, &'a [u8]),
    /// A call that reads failed.
    ReadFailed(&'a str),
    /// A file was begun that is to take the name's place.
    Started(&'a str),
    /// These bytes were added to it.
    Appended(&'a str, &'a [u8]),
    /// It took the name's place.
    Finished(&'a str),
    /// It was given up.
    GivenUp(&'a str),
    /// The call failed, and it is gone.
    Failed(&'a str),
    /// These bytes were put to the output.
    Put(&'a [u8]),
}

impl Log {
    ghost use Rattle.outside_log.specs.Log.{event_of};
    ghost use Rattle.outside_log.specs.Readings.{sized_event, read_event};
    ghost use Rattle.outside_log.specs.Told.{event_of_told};

    /// A log that has begun with any events.
    pub fn new() -> Log
        ghost begun: { List Event }
        ensures { result.events ≡ begun }
    {
        Log {}
    }

    /// The log that files have now.
    pub fn of<F: Files>(files: &F) -> Log
        ghost events: { List Event }
        requires { events ≡ F.log files.now }
        ensures { result.events ≡ F.log files.now }
    {
        let _ = files;
        Log::new()
    }

    /// The log with this event at its end.
    #[inline(always)]
    pub fn then(&self, _told: &Told<'_>) -> Log
        ensures { result.events ≡ self.now.events ++ event_of_told _told.now ∷ [] }
    {
        Log {}
    }

    /// The log with a call at its end that asked for the size of this name.
    pub fn then_size(&self, name: &str, answer: &Result<Option<u64>, Failed>) -> Log
        ensures { result.events ≡ self.now.events ++ sized_event name.now answer.now ∷ [] }
    {
        match answer {
            Ok(size) => self.then(&Told::Sized(name, *size)),
            Err(_) => self.then(&Told::ReadFailed(name)),
        }
    }

    /// The log with a read of this name at its end, from the place `at` on, which the buffer had room for and has at its front.
    pub fn then_read(&self, name: &str, at: u64, buf: &[u8], answer: &Result<usize, Failed>) -> Log
        requires { IfOk answer.now (λ count. count ≤ length buf.now) }
        ensures { result.events
            ≡ self.now.events ++ read_event name.now at (length buf.now) buf.now answer.now ∷ [] }
    {
        match answer {
            Ok(count) => self.then(&Told::Read(name, at, buf.len(), &buf[..*count])),
            Err(_) => self.then(&Told::ReadFailed(name)),
        }
    }

    /// The log with a call on this name at its end: this event, or that the call failed.
    pub fn then_answer(&self, told: &Told<'_>, name: &str, answer: &Result<(), Failed>) -> Log
        ensures { result.events ≡ self.now.events
            ++ event_of (event_of_told told.now) name.now answer.now ∷ [] }
    {
        match answer {
            Ok(()) => self.then(told),
            Err(_) => self.then(&Told::Failed(name)),
        }
    }
}
