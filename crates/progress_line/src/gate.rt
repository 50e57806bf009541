ghost use Rattle.std.specs.Prelude.{◌≡◌};

use crate::line::{Progress, progress_line};
use hyper_outside::Gate;
use std::io::Eprint;
use std::rt::Clock;
use std::sync::atomic::{AtomicU32, AtomicU64, Ordering};

/// How long a line stands before it is written anew, in milliseconds.
const PAUSE: u64 = 500;

/// What has a terminal clear the rest of a line.
const WIPE: &str = "\x1b[K";

/// What has a terminal cut what is longer than a row at its right edge, in place of going on in the next row; and what ends that.
const CUT: &str = "\x1b[?7l";

const UNCUT: &str = "\x1b[?7h";

/// A gate that lets all pass, and tells on standard error how far a run has come, from where it says how many rounds are to come: in one
/// line, which it writes anew at most twice a second and which a terminal cuts to its width. It changes nothing else.
#[derive(Drop)]
pub struct ProgressGate<'a, R> {
    rt: &'a R,
    shows: bool,
    /// How many rounds are to come; 0 where that wasn't said.
    rounds: AtomicU32,
    /// How many blocks a round has.
    blocks: AtomicU32,
    /// When they were said to come, in milliseconds.
    began: AtomicU64,
    passed: AtomicU64,
    /// When the line is to be written next, in milliseconds; 0 where none stands.
    next: AtomicU64,
}

/// The time of the clock in milliseconds. `None` where the clock can't be read.
fn milliseconds<R: Clock>(rt: &R) -> Option<u64> {
    let now = rt.monotonic().ok()?;
    Some(
        now.as_secs()
            .saturating_mul(1000)
            .saturating_add(u64::from(now.subsec_millis())),
    )
}

impl<'a, R: Clock + Eprint> ProgressGate<'a, R> {
    /// A gate that tells nothing yet, and never does where it isn't to show how far a run has come.
    pub fn new(rt: &'a R, shows: bool) -> Self
        ensures { result.shows ≡ shows }
    {
        ProgressGate {
            rt,
            shows,
            rounds: AtomicU32::new(0),
            blocks: AtomicU32::new(0),
            began: AtomicU64::new(0),
            passed: AtomicU64::new(0),
            next: AtomicU64::new(0),
        }
    }

    /// Wipes the line, where one stands. It is written again when the next block is passed.
    pub fn wipe(&self) {
        if self.next.swap(0, Ordering::SeqCst) > 0 {
            let _ = eprint!(self.rt; "\r{WIPE}");
        }
    }

    /// Whether the line is due, and this worker the one to write it.
    fn is_due(&self, now: u64) -> bool {
        let next = self.next.load(Ordering::SeqCst);
        now >= next
            && self
                .next
                .compare_exchange(
                    next,
                    now.saturating_add(PAUSE),
                    Ordering::SeqCst,
                    Ordering::SeqCst,
                )
                .is_ok()
    }

    /// How far the run had come at this time in milliseconds, when so many blocks were passed.
    fn progress(&self, now: u64, passed: u64) -> Progress
        ensures { result.passed ≡ passed }
    {
        Progress {
            rounds: self.rounds.load(Ordering::SeqCst),
            blocks: self.blocks.load(Ordering::SeqCst),
            passed,
            seconds: now.saturating_sub(self.began.load(Ordering::SeqCst)) / 1000,
        }
    }
}

impl<'a, R: Clock + Eprint> Gate for ProgressGate<'a, R> {
    fn expect(&self, rounds: u32, blocks: u32) {
        if self.shows {
            let now = milliseconds(self.rt).unwrap_or(0);
            self.began.store(now, Ordering::SeqCst);
            self.passed.store(0, Ordering::SeqCst);
            self.blocks.store(blocks, Ordering::SeqCst);
            self.rounds.store(rounds, Ordering::SeqCst);
        }
    }

    fn pass(&self, _worker: u32, _block: u64) {
        if self.rounds.load(Ordering::SeqCst) == 0 {
            return;
        }
        let passed = self.passed.fetch_add(1, Ordering::SeqCst);
        let Some(now) = milliseconds(self.rt) else {
            return;
        };
        if self.is_due(now) {
            let line = progress_line(&self.progress(now, passed));
            let _ = eprint!(self.rt; "\r{CUT}{}{WIPE}{UNCUT}", line.as_str());
        }
    }
}
