ghost use Rattle.std.specs.Prelude.{◌≡◌};

use crate::gate::ProgressGate;
use std::io::{self, Eprint, Write};
use std::rt::Clock;

/// A writer that has a gate wipe its line before it writes, so that what it writes to a terminal stands in lines of its own.
#[derive(Drop)]
pub struct WipingWriter<'a, 'r, R, W> {
    gate: &'a ProgressGate<'r, R>,
    writer: W,
}

impl<'a, 'r, R, W> WipingWriter<'a, 'r, R, W> {
    /// Writes to this writer.
    pub fn new(gate: &'a ProgressGate<'r, R>, writer: W) -> Self
        ensures { result.writer ≡ writer }
    {
        WipingWriter { gate, writer }
    }
}

impl<'a, 'r, R: Clock + Eprint, W: Write> Write for WipingWriter<'a, 'r, R, W> {
    ghost contents = { λ w. W.contents w.writer };

    fn write(&mut self, buf: &[u8]) -> io::Result<usize> {
        self.gate.wipe();
        self.writer.write(buf)
    }

    fn flush(&mut self) -> io::Result<()> {
        self.writer.flush()
    }
}
