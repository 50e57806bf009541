ghost use Rattle.std.specs.Prelude.{◌≡◌, nat_le, not, length, IfOk, OnOk, OnErr, is_ok};
ghost use Rattle.outside_log.specs.Sink.{Puts};
ghost use Rattle.memory_files.specs.Calls.{with_failing};
ghost use Rattle.memory_files.specs.Pile.{honest_with, no_bytes, with_room, after_honest, put_fails, after_put, honest_output, demanding_output};

use crate::calls::{Calls, front};
use crate::pile::Pile;
use hyper_outside::{Failed, NoMemory};
use outside_log::Sink;
use std::alloc::Global;
use std::marker::Model;

/// A sink in memory that is taken at its start. It fails only where bytes don't fit in the room that is left.
#[derive(Drop)]
pub struct HonestSink {
    pile: Pile,
    faults: u64,
}

impl Model for HonestSink {
    ghost use Rattle.memory_files.specs.Pile.{Honest};

    ghost Value = { Honest };

    ghost view = { λ s. record { pile = s.pile; faults = s.faults } };
}

impl HonestSink {
    /// An empty sink with room for so many bytes.
    pub fn with_room(alloc: Global, bytes: usize) -> Result<HonestSink, NoMemory>
        ensures { IfOk result (λ sink. sink ≡ honest_with bytes) }
    {
        let mut pile = Pile::new(alloc);
        pile.take_room(bytes)?;
        Ok(HonestSink { pile, faults: 0 })
    }

    /// The bytes that were put.
    pub fn put_bytes(&self) -> &[u8]
        ensures { result.now ≡ self.now.pile.bytes }
    {
        self.pile.bytes()
    }
}

impl Sink for HonestSink {
    ghost output = { honest_output };

    /// `Failed` exactly where the bytes don't fit in the room left, and then nothing is added.
    fn put(&mut self, bytes: &[u8]) -> Result<(), Failed>
        ensures put { Puts (honest_output self.old) (honest_output self.new) bytes.now result }
        ensures answer { is_ok result ≡ nat_le (length bytes.now) self.old.pile.room }
        ensures after { self.new ≡ after_honest self.old bytes.now }
    {
        if bytes.len() > self.pile.room() {
            self.faults = self.faults.saturating_add(1);
            return Err(Failed);
        }
        self.pile.add(bytes);
        Ok(())
    }
}

/// A sink in memory that fails on demand. It also fails where bytes don't fit in the room that is left.
#[derive(Drop)]
pub struct MemSink {
    pile: Pile,
    calls: Calls,
    faults: u64,
}

impl Model for MemSink {
    ghost use Rattle.memory_files.specs.Pile.{Demanding};

    ghost Value = { Demanding };

    ghost view = { λ s. record { pile = s.pile; calls = s.calls; faults = s.faults } };
}

impl MemSink {
    /// An empty sink with no room.
    pub fn new(alloc: Global) -> MemSink
        ensures { result ≡ no_bytes }
    {
        MemSink {
            pile: Pile::new(alloc),
            calls: Calls::new(alloc),
            faults: 0,
        }
    }

    /// Takes room for so many bytes more.
    pub fn room(&mut self, bytes: usize) -> Result<(), NoMemory>
        ensures ok { OnOk result
            (self.new ≡ record self.old { pile = with_room self.old.pile bytes }) }
        ensures err { OnErr result (self.new ≡ self.old) }
    {
        self.pile.take_room(bytes)
    }

    /// Lists a call that is to fail, counted from 1, and how many bytes it still adds.
    pub fn fail_call(&mut self, call: u64, prefix: usize) -> Result<(), NoMemory>
        ensures ok { OnOk result
            (self.new ≡ record self.old { calls = with_failing self.old.calls call prefix }) }
        ensures err { OnErr result (self.new ≡ self.old) }
    {
        self.calls.fail(call, prefix)
    }

    /// The bytes that were put.
    pub fn put_bytes(&self) -> &[u8]
        ensures { result.now ≡ self.now.pile.bytes }
    {
        self.pile.bytes()
    }
}

impl Sink for MemSink {
    ghost output = { demanding_output };

    /// `Failed` exactly where the call is listed or the bytes don't fit in the room left. Where they don't fit
    /// nothing is added.
    fn put(&mut self, bytes: &[u8]) -> Result<(), Failed>
        ensures put { Puts (demanding_output self.old)
            (demanding_output self.new) bytes.now result }
        ensures answer { is_ok result ≡ not (put_fails self.old bytes.now) }
        ensures after { self.new ≡ after_put self.old bytes.now }
    {
        let failing = self.calls.count();
        if bytes.len() > self.pile.room() {
            self.faults = self.faults.saturating_add(1);
            return Err(Failed);
        }
        self.pile.add(front(bytes, failing));
        if failing.is_none() {
            return Ok(());
        }
        self.faults = self.faults.saturating_add(1);
        Err(Failed)
    }
}
