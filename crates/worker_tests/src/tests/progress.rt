//! The line that tells how far a solve has come.
use crate::tests::test_asserts::same;
use hyper_outside::Gate;
use progress_line::{ProgressGate, WipingWriter};
use std::alloc::Global;
use std::cell::Cell;
use std::fmt::Display;
use std::io::{self, Write};
use std::rt::Clock;
use std::time::Duration;

/// A clock that is set by hand, and a terminal that shows what was written last.
#[derive(Drop)]
struct Stage {
    alloc: Global,
    seconds: Cell<u64>,
    shown: Cell<String>,
}

impl Clock for Stage {
    fn monotonic(&self) -> io::Result<Duration> {
        Ok(Duration::from_secs(self.seconds.get()))
    }

    fn since_1970(&self) -> io::Result<Duration> {
        self.monotonic()
    }
}

impl Eprint for Stage {
    fn eprint<D: Display + Drop>(&self, value: D) -> io::Result<()> {
        let _before = self.shown.replace(value.to_string(self.alloc)?);
        Ok(())
    }

    fn eprintln<D: Display + Drop>(&self, value: D) -> io::Result<()> {
        self.eprint(value)
    }
}

/// Rounds, blocks of a round, blocks passed, seconds gone, and the line.
const LINES: [(u32, u32, u64, u64, &str); 7] = [
    (
        64,
        3276,
        0,
        0,
        "\r\x1b[?7lround 1 of 64, 0 %, 0 s gone\x1b[K\x1b[?7h",
    ),
    (
        64,
        3276,
        104832,
        120,
        "\r\x1b[?7lround 33 of 64, 50 %, 120 s gone, 120 s left\x1b[K\x1b[?7h",
    ),
    (
        64,
        3276,
        209664,
        240,
        "\r\x1b[?7lround 64 of 64, 100 %, 240 s gone, 0 s left\x1b[K\x1b[?7h",
    ),
    (
        10,
        10,
        9,
        7,
        "\r\x1b[?7lround 1 of 10, 9 %, 7 s gone\x1b[K\x1b[?7h",
    ),
    (
        10,
        10,
        10,
        7,
        "\r\x1b[?7lround 2 of 10, 10 %, 7 s gone, 63 s left\x1b[K\x1b[?7h",
    ),
    (
        1,
        26,
        13,
        7,
        "\r\x1b[?7lround 1 of 1, 50 %, 7 s gone, 7 s left\x1b[K\x1b[?7h",
    ),
    (
        2,
        26,
        60,
        9,
        "\r\x1b[?7lround 2 of 2, 100 %, 9 s gone, 0 s left\x1b[K\x1b[?7h",
    ),
];

/// Nothing is shown, and the clock stands at so many seconds.
fn stage_at(alloc: Global, seconds: u64) -> Stage {
    Stage {
        alloc,
        seconds: Cell::new(seconds),
        shown: Cell::new(String::new(alloc)),
    }
}

#[test]
fn lines_tell_rounds_shares_and_seconds(rt: HostRuntime) {
    for (rounds, blocks, passed, seconds, line) in LINES.iter() {
        let stage = stage_at(rt.alloc(), 40);
        let gate = ProgressGate::new(&stage, true);
        stage.seconds.set(100);
        gate.expect(*rounds, *blocks);
        for block in 0..*passed {
            gate.pass(0, block);
        }
        stage.seconds.set(seconds.saturating_add(100));
        gate.pass(0, *passed);
        let shown = stage.shown.replace(String::new(rt.alloc()));
        same(&rt, &shown.as_str(), line, passed);
    }
}

// Whether it is to show the line, and whether it was said what is to come.
#[test]
fn untold_or_unshown_there_is_no_line(rt: HostRuntime) {
    for (shows, said) in [(false, true), (true, false), (false, false)] {
        let stage = stage_at(rt.alloc(), 0);
        let gate = ProgressGate::new(&stage, shows);
        if said {
            gate.expect(2, 26);
        }
        gate.pass(0, 0);
        gate.wipe();
        let shown = stage.shown.replace(String::new(rt.alloc()));
        same(&rt, &shown.as_str(), &"", &(shows, said));
    }
}

// What is written stands in a line of its own, once, whether the line stood before or not.
#[test]
fn the_line_is_wiped_before_a_report(rt: HostRuntime) {
    let stage = stage_at(rt.alloc(), 9);
    let gate = ProgressGate::new(&stage, true);
    let mut report = WipingWriter::new(&gate, Vec::new(rt.alloc()));
    for due in ["", "\r\x1b[K", "\r\x1b[K"] {
        let written = report.write(b"solved").is_ok();
        let shown = stage.shown.replace(String::new(rt.alloc()));
        same(&rt, &(written, shown.as_str()), &(true, due), &due);
        gate.expect(2, 26);
        gate.pass(0, 0);
    }
}
