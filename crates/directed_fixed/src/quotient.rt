ghost use Rattle.std.specs.Prelude.{◌≡◌, ◌<◌, ℕ, ℤ, pos, ◌+ℤ◌, ◌*ℤ◌, ◌≤ℤ◌, ◌<ℤ◌};

/// The greatest whole number that isn't above the exact quotient.
pub fn floor_div(sum: i64, by: u32) -> i64
    requires { 0 < by }
    ensures below { (pos by *ℤ result) ≤ℤ sum }
    ensures greatest { sum <ℤ (pos by *ℤ result +ℤ pos by) }
{
    sum.div_euclid(i64::from(by))
}

/// The least whole number that isn't below the exact quotient.
pub fn ceil_div(sum: i64, by: u32) -> i64
    requires { 0 < by }
    ensures above { sum ≤ℤ (pos by *ℤ result) }
    ensures least { (pos by *ℤ result) <ℤ (sum +ℤ pos by) }
{
    let by = i64::from(by);
    let down = sum.div_euclid(by);
    if sum.rem_euclid(by) == 0 {
        down
    } else {
        down + 1
    }
}
