ghost use Rattle.std.specs.Prelude.{◌≡◌, [], Some};

use crate::writing::write_out;
use hyper_outside::Failed;
use outside_log::{Log, Sink, Told};
use std::io::Write;

/// A writer of std, with a count of its faults. It tells the bytes that the writer took.
#[derive(Drop)]
pub struct RealSink<W> {
    inner: W,
    faults: u64,
    log: Log,
}

impl<W> RealSink<W> {
    ghost use Rattle.system_files.specs.Written.{output_of};

    /// A sink that writes to this writer, with no byte and no fault yet.
    pub fn new(inner: W) -> Self
        ensures inner { result.inner ≡ inner }
        ensures output { output_of result ≡ record { told = Some []; faults = 0 } }
    {
        RealSink {
            inner,
            faults: 0,
            log: Log::new(),
        }
    }
}

impl<W: Write> Sink for RealSink<W> {
    ghost use Rattle.outside_log.specs.Sink.{Puts};
    ghost use Rattle.system_files.specs.Written.{Takes, output_of};

    ghost output = { output_of };

    /// Hands the bytes to the writer, once and in order. `Failed` comes where the writer failed or took none; then
    /// it has taken a front of them.
    fn put(&mut self, bytes: &[u8]) -> Result<(), Failed>
        ensures put { Puts (output_of self.old) (output_of self.new) bytes.now result }
        ensures taken { Takes (W.contents self.old.inner)
            (W.contents self.new.inner) bytes.now result }
    {
        let count = write_out(&mut self.inner, bytes);
        self.log = self.log.then(&Told::Put(&bytes[..count]));
        if count < bytes.len() {
            self.faults = self.faults.saturating_add(1);
            return Err(Failed);
        }
        Ok(())
    }
}
