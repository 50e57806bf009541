ghost use Rattle.std.specs.Prelude.{◌≡◌, ◌≤◌, List, [], ◌∷◌, ◌++◌, IfOk, length};
ghost use Rattle.outside_log.specs.Log.{Event, Started, Appended, Finished, GivenUp, event_of};
ghost use Rattle.outside_log.specs.Readings.{sized_event, read_event};
ghost use Rattle.outside_log.specs.Sink.{Output, Puts};

use hyper_outside::Failed;

/// Where the output goes.
pub trait Sink {
    /// The bytes that were put, where it tells them, and how often it has failed.
    ghost output: { Self → Output };

    /// Adds the bytes. After `Failed`, which comes only where the count of faults rose, a front of them was added.
    fn put(&mut self, bytes: &[u8]) -> Result<(), Failed>
        ensures { Puts (output self.old) (output self.new) bytes.now result };
}

/// Files by their names. A file is written aside, and then takes its name's place whole. Each call adds one event to the log, also where
/// it fails.
pub trait Files {
    /// What calls have done and were answered, the oldest first.
    ghost log: { Self → List Event };

    /// How many bytes stand under the name, `None` where it isn't there.
    fn size(&mut self, name: &str) -> Result<Option<u64>, Failed>
        ensures { log self.new ≡ log self.old ++ sized_event name.now result ∷ [] };

    /// Reads bytes of the file from the place `at` on to the front of `buf`, and answers how many. It is none only where `buf` is
    /// empty, the name isn't there or `at` is the size or more.
    fn read_at(&mut self, name: &str, at: u64, buf: &mut [u8]) -> Result<usize, Failed>
        ensures within { IfOk result (λ count. count ≤ length buf.old) }
        ensures log { log self.new
            ≡ log self.old ++ read_event name.now at (length buf.old) buf.new result ∷ [] };

    /// Begins a file that is to take the name's place, with no bytes. One that was begun before and didn't end is given up.
    fn start(&mut self, name: &str) -> Result<(), Failed>
        ensures { log self.new
            ≡ log self.old ++ event_of (Started name.now) name.now result ∷ [] };

    /// Adds the bytes at the end of the file that was begun. `Failed` also where none was begun for the name.
    fn append(&mut self, name: &str, bytes: &[u8]) -> Result<(), Failed>
        ensures { log self.new
            ≡ log self.old ++ event_of (Appended name.now bytes.now) name.now result ∷ [] };

    /// Has the file that was begun take its name's place, for good. `Failed` also where none was begun for the name.
    fn finish(&mut self, name: &str) -> Result<(), Failed>
        ensures { log self.new
            ≡ log self.old ++ event_of (Finished name.now) name.now result ∷ [] };

    /// Gives up the file that was begun.
    fn give_up(&mut self, name: &str)
        ensures { log self.new ≡ log self.old ++ GivenUp name.now ∷ [] };
}
