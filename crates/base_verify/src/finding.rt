ghost use Rattle.std.specs.Prelude.{◌≡◌};
ghost use Rattle.base_verify.specs.declared.finding.VerifyStop.TheVariants.{NoMemory as NoRoom};

use directed_fixed::{End, Fixed};
use hyper_outside::NoMemory;
use position_rank::Position;
use std::alloc::AllocError;

/// A word that is tighter than the turn over the words of its list.
#[derive(Clone, Copy)]
pub struct Finding {
    /// The position of its state.
    pub position: Position,
    /// The kind of its state.
    pub kind: usize,
    /// Whether it is the lower or the upper word of the state.
    pub side: End,
    /// The word.
    pub stored: Fixed,
    /// This end of the turn.
    pub computed: Fixed,
}

/// Why words weren't found to be consistent.
#[derive(Clone, Copy)]
pub enum VerifyStop {
    /// They aren't, and this is the first word that tells it.
    Inconsistent(Finding),
    /// There was no memory.
    NoMemory,
}

impl From<AllocError> for VerifyStop {
    ghost from_gives = { λ _ stop. stop ≡ NoRoom };

    fn from(_error: AllocError) -> Self {
        VerifyStop::NoMemory
    }
}

impl From<NoMemory> for VerifyStop {
    ghost from_gives = { λ _ stop. stop ≡ NoRoom };

    fn from(_no_memory: NoMemory) -> Self {
        VerifyStop::NoMemory
    }
}
