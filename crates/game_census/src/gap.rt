ghost use Rattle.std.specs.Prelude.{◌≡◌, ◌-ℤ◌};
ghost use Rattle.game_census.specs.Gaps.{gap_from, farthest, nearest};

use directed_fixed::{Fixed, Pair};
use position_rank::Position;

/// How much more one choice leads to than another: at least `low` and at most `up` units.
#[derive(Clone, Copy)]
pub(crate) struct Gap {
    pub(crate) low: i64,
    pub(crate) up: i64,
}

/// How many units more the first has than the second.
fn difference(one: Fixed, another: Fixed) -> i64
    ensures { result ≡ (one -ℤ another) }
{
    one.units() - another.units()
}

impl Gap {
    /// How much more the first leads to than the second.
    pub(crate) fn between(one: Pair, another: Pair) -> Gap
        ensures { result ≡ gap_from one another }
    {
        Gap {
            low: difference(one.lower(), another.upper()),
            up: difference(one.upper(), another.lower()),
        }
    }

    /// By how many units the two differ at most.
    fn farthest(self) -> u64
        ensures { result ≡ farthest self }
    {
        self.low.unsigned_abs().max(self.up.unsigned_abs())
    }
}

/// A position with the gap between two choices in it.
#[derive(Clone, Copy)]
pub(crate) struct Near {
    pub(crate) position: Position,
    pub(crate) gap: Gap,
}

/// Of two positions the one whose choices are known to differ by less, and of equals the one that was found.
pub(crate) fn nearest(found: Option<Near>, next: &Near) -> Near
    ensures { result ≡ nearest found next.now }
{
    match found {
        Some(near) if near.gap.farthest() <= next.gap.farthest() => near,
        _ => *next,
    }
}
