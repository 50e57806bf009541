ghost use Rattle.std.specs.Prelude.{◌≡◌, replicate, slice_index};
ghost use Rattle.game_census.specs.Calls.{call_number, counted_call};

use crate::call::{CALLS, Call};

/// How often each call came.
#[derive(Clone, Copy)]
pub(crate) struct Tally {
    counts: [u64; CALLS],
}

impl Tally {
    /// None came.
    pub(crate) fn new() -> Tally
        ensures { result.counts ≡ replicate 24 0 }
    {
        Tally { counts: [0; CALLS] }
    }

    /// One more call came.
    pub(crate) fn add(&mut self, call: Call)
        ensures { self.new.counts ≡ counted_call self.old.counts call }
    {
        let number = call.number();
        self.counts[number] = self.counts[number].saturating_add(1);
    }

    /// How often a call came.
    pub(crate) fn count(&self, call: Call) -> u64
        ensures { result ≡ slice_index self.now.counts (call_number call) }
    {
        self.counts[call.number()]
    }
}
