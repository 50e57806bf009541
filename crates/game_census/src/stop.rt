ghost use Rattle.std.specs.Prelude.{◌≡◌, ◌<◌, ◌↔◌, IsOk, IsOkUnless, length};
ghost use Rattle.game_census.specs.declared.stop.Stop.TheVariants.{Memory, Unprinted, Unsaved};
ghost use Rattle.game_census.specs.Stops.{told_of};

use database_file::LoadStop;
use hyper_outside::{Failed, NoMemory};
use std::alloc::AllocError;
use std::io;

/// Why a run ended before it had counted all.
#[derive(Clone, Copy)]
pub(crate) enum Stop {
    /// The words ask for nothing that it counts.
    BadWords,
    /// There is no file of this name.
    NoFile,
    /// The file isn't one of bounds.
    NoBounds,
    /// The file can't be read.
    Unread,
    /// There was no memory.
    Memory,
    /// A line couldn't be printed.
    Unprinted,
    /// The file couldn't be written.
    Unsaved,
}

impl Stop {
    /// What is told of it.
    pub(crate) fn text(self) -> &'static str
        ensures { 0 < length result.now }
    {
        match self {
            Stop::BadWords => {
                "the words are cube FILE PART PARTS, or widths CHECKERS STAKES ROUNDS [FILE]"
            }
            Stop::NoFile => "there is no file of this name",
            Stop::NoBounds => "the file isn't one of bounds",
            Stop::Unread => "the file can't be read",
            Stop::Memory => "there isn't memory enough",
            Stop::Unprinted => "a line couldn't be printed",
            Stop::Unsaved => "the file couldn't be written",
        }
    }
}

/// A stop where a line couldn't be printed.
pub(crate) fn printed(line: io::Result<()>) -> Result<(), Stop>
    ensures ok { IsOk result ↔ IsOk line }
    ensures only { IsOkUnless result Unprinted }
{
    match line {
        Ok(()) => Ok(()),
        Err(_) => Err(Stop::Unprinted),
    }
}

impl From<LoadStop> for Stop {
    ghost from_gives = { λ stop given. given ≡ told_of stop };

    fn from(stop: LoadStop) -> Self {
        match stop {
            LoadStop::Missing => Stop::NoFile,
            LoadStop::BadFile(_) => Stop::NoBounds,
            LoadStop::ReadFault => Stop::Unread,
            LoadStop::NoMemory => Stop::Memory,
        }
    }
}

impl From<NoMemory> for Stop {
    ghost from_gives = { λ _ given. given ≡ Memory };

    fn from(_no_memory: NoMemory) -> Self {
        Stop::Memory
    }
}

impl From<AllocError> for Stop {
    ghost from_gives = { λ _ given. given ≡ Memory };

    fn from(_no_memory: AllocError) -> Self {
        Stop::Memory
    }
}

impl From<Failed> for Stop {
    ghost from_gives = { λ _ given. given ≡ Unsaved };

    fn from(_failed: Failed) -> Self {
        Stop::Unsaved
    }
}
