ghost use Rattle.std.specs.Prelude.{◌≡◌, OnOk, OnErr};
ghost use Rattle.memory_files.specs.Calls.{CallList, no_calls, with_failing, called, listed, front_of};

use hyper_outside::NoMemory;
use std::alloc::Global;
use std::marker::Model;

/// Counts calls from 1, and knows which of them are to fail.
#[derive(Drop)]
pub struct Calls {
    made: u64,
    failing: Vec<(u64, usize)>,
}

impl Model for Calls {
    ghost use Rattle.memory_files.specs.Calls.{CallList};

    ghost Value = { CallList };

    ghost view = { λ c. record { made = c.made; failing = c.failing.items } };
}

impl Calls {
    pub fn new(alloc: Global) -> Calls
        ensures { result ≡ no_calls }
    {
        Calls {
            made: 0,
            failing: Vec::new(alloc),
        }
    }

    /// Lists a call that is to fail, with the length of the front that it still adds.
    pub fn fail(&mut self, call: u64, prefix: usize) -> Result<(), NoMemory>
        ensures ok { OnOk result (self.new ≡ with_failing self.old call prefix) }
        ensures err { OnErr result (self.new ≡ self.old) }
    {
        self.failing.push((call, prefix))?;
        Ok(())
    }

    /// Counts a call. The length of the front that it still adds, if it is to fail.
    pub fn count(&mut self) -> Option<usize>
        ensures counts { self.new ≡ called self.old }
        ensures listed { result ≡ listed self.new }
    {
        self.made = self.made.saturating_add(1);
        let made = self.made;
        self.failing
            .iter()
            .find(|&&(call, _)| call == made)
            .map(|&(_, prefix)| prefix)
    }
}

/// All of the bytes, or the front that a failing call still adds.
pub fn front(bytes: &[u8], failing: Option<usize>) -> &[u8]
    ensures { result.now ≡ front_of failing bytes.now }
{
    match failing {
        Some(prefix) if prefix < bytes.len() => &bytes[..prefix],
        _ => bytes,
    }
}
