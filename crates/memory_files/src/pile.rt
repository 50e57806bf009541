ghost use Rattle.std.specs.Prelude.{◌≡◌, ◌+◌, ◌≤◌, [], length, OnOk, OnErr};
ghost use Rattle.memory_files.specs.Pile.{Pile, more};

use hyper_outside::NoMemory;
use std::alloc::Global;
use std::marker::Model;

/// Bytes with room for more, in memory that is taken before.
#[derive(Drop)]
pub struct Pile {
    bytes: Vec<u8>,
    room: usize,
}

impl Model for Pile {
    ghost use Rattle.std.specs.Prelude.{◌+◌, ◌≤◌, vec_len, vec_capacity};
    ghost use Rattle.memory_files.specs.Pile.{Pile};

    ghost Value = { Pile };

    ghost view = { λ p. record { bytes = p.bytes.items; room = p.room } };

    ghost invariant = { λ p. vec_len p.bytes + p.room ≤ vec_capacity p.bytes };
}

impl Pile {
    pub fn new(alloc: Global) -> Pile
        ensures { result ≡ record { bytes = []; room = 0 } }
    {
        Pile {
            bytes: Vec::new(alloc),
            room: 0,
        }
    }

    /// Takes room for more bytes.
    pub fn take_room(&mut self, bytes: usize) -> Result<(), NoMemory>
        ensures ok { OnOk result (self.new ≡ record self.old { room = self.old.room + bytes }) }
        ensures err { OnErr result (self.new ≡ self.old) }
    {
        let room = self.room.checked_add(bytes).ok_or(NoMemory)?;
        self.bytes.reserve(room)?;
        self.room = room;
        Ok(())
    }

    pub fn room(&self) -> usize
        ensures { result ≡ self.now.room }
    {
        self.room
    }

    pub fn bytes(&self) -> &[u8]
        ensures { result.now ≡ self.now.bytes }
    {
        self.bytes.as_slice()
    }

    /// Adds bytes at the end.
    pub fn add(&mut self, bytes: &[u8])
        requires { length bytes.now ≤ self.old.room }
        ensures { self.new ≡ more self.old bytes.now }
    {
        let _ = self.bytes.extend_from_slice(bytes);
        self.room -= bytes.len();
    }
}
