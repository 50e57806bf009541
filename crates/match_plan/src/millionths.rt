ghost use Rattle.std.specs.Prelude.{◌≡◌, ◌<◌, ◌≤◌, ◌^◌};
ghost use Rattle.match_plan.specs.Quotients.{quotient_down, quotient_up};

/// A quotient in millionths, rounded outwards.
#[derive(Clone, Copy)]
pub struct Millionths {
    /// It is at least so many.
    pub low: u64,
    /// It is at most so many.
    pub high: u64,
}

/// How many millionths a part is of a whole, rounded down.
pub(crate) fn millionths_down(part: u64, whole: u64) -> u64
    requires part { part ≤ 2 ^ 33 }
    requires whole { 0 < whole }
    ensures { result ≡ quotient_down part whole }
{
    1_000_000 * part / whole
}

/// How many millionths a part is of a whole, rounded up.
pub(crate) fn millionths_up(part: u64, whole: u64) -> u64
    requires part { part ≤ 2 ^ 33 }
    requires whole { 0 < whole }
    ensures { result ≡ quotient_up part whole }
{
    (1_000_000 * part).div_ceil(whole)
}
