ghost use Rattle.std.specs.Prelude.{◌≡◌};
ghost use Rattle.database_file.specs.Stops.{loading_stopped, looking_stopped};
ghost use Rattle.database_file.specs.declared.stop.LoadStop.TheVariants.{BadFile as Bad, ReadFault, NoMemory};

use crate::pages::PagesStop;
use base_head::BadFile;
use hyper_outside::{Failed, LookStop, NoMemory};

/// Why a file could not be loaded.
#[derive(Clone, Copy)]
pub enum LoadStop {
    /// There is no file of this name.
    Missing,
    /// It isn't a file of bounds.
    BadFile(BadFile),
    /// A call of the files failed.
    ReadFault,
    /// There was no memory.
    NoMemory,
}

impl From<Failed> for LoadStop {
    ghost from_gives = { λ _ stop. stop ≡ ReadFault };

    fn from(_failed: Failed) -> Self {
        LoadStop::ReadFault
    }
}

impl From<BadFile> for LoadStop {
    ghost from_gives = { λ bad stop. stop ≡ Bad bad };

    fn from(bad: BadFile) -> Self {
        LoadStop::BadFile(bad)
    }
}

impl From<NoMemory> for LoadStop {
    ghost from_gives = { λ _ stop. stop ≡ NoMemory };

    fn from(_no_memory: NoMemory) -> Self {
        LoadStop::NoMemory
    }
}

impl From<PagesStop> for LoadStop {
    ghost from_gives = { λ stop given. given ≡ loading_stopped stop };

    fn from(stop: PagesStop) -> Self {
        match stop {
            PagesStop::ReadFault => LoadStop::ReadFault,
            PagesStop::BadPage(flaw) => LoadStop::BadFile(BadFile::from(flaw)),
            PagesStop::NoMemory => LoadStop::NoMemory,
        }
    }
}

impl From<PagesStop> for LookStop {
    ghost from_gives = { λ stop given. given ≡ looking_stopped stop };

    fn from(stop: PagesStop) -> Self {
        match stop {
            PagesStop::ReadFault => LookStop::ReadFault,
            PagesStop::BadPage(flaw) => LookStop::BadPage {
                fault: flaw.fault,
                at: flaw.at,
            },
            PagesStop::NoMemory => LookStop::NoMemory,
        }
    }
}
