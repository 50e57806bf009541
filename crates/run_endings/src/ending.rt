use equity_report::Refusal;
use hyper_outside::{Failed, NoMemory};

/// Why a command ended before all was done.
#[derive(Clone, Copy)]
pub enum RunStop {
    /// It was refused, and nothing was put but the lines of a ladder's scores.
    Refused(Refusal),
    /// Writing a file or the output failed.
    NotWritten,
}

impl From<Refusal> for RunStop {
    ghost use Rattle.std.specs.Prelude.{◌≡◌};
    ghost use Rattle.run_endings.specs.declared.ending.RunStop.TheVariants.{Refused};

    ghost from_gives = { λ refusal stop. stop ≡ Refused refusal };

    fn from(refusal: Refusal) -> Self {
        RunStop::Refused(refusal)
    }
}

impl From<Failed> for RunStop {
    ghost use Rattle.std.specs.Prelude.{◌≡◌};
    ghost use Rattle.run_endings.specs.declared.ending.RunStop.TheVariants.{NotWritten};

    ghost from_gives = { λ _ stop. stop ≡ NotWritten };

    fn from(_failed: Failed) -> Self {
        RunStop::NotWritten
    }
}

impl From<NoMemory> for RunStop {
    ghost use Rattle.std.specs.Prelude.{◌≡◌};
    ghost use Rattle.equity_report.specs.declared.refusal.Refusal.TheVariants.{Memory};
    ghost use Rattle.run_endings.specs.declared.ending.RunStop.TheVariants.{Refused};

    ghost from_gives = { λ _ stop. stop ≡ Refused Memory };

    fn from(_stop: NoMemory) -> Self {
        RunStop::Refused(Refusal::Memory)
    }
}
