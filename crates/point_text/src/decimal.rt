ghost use Rattle.std.specs.Prelude.{◌≡◌, ◌^◌, ◌+◌, ◌<◌, ◌++◌, ℕ, ℤ, pos, ◌+ℤ◌, ◌*ℤ◌, ◌≤ℤ◌, ◌<ℤ◌, length};
ghost use Rattle.std.specs.Fmt.{signed_decimal};
ghost use Rattle.point_text.specs.Decimal.{millionths_down, millionths_up, six_digits, millionths_text};
ghost use Rattle.directed_fixed.specs.Bounds.{IsWithinUnits};

use arrayvec::ArrayString;
use directed_fixed::{Fixed, ONE};
use itoa::Buffer;

/// The greatest number of points with six decimals that isn't above the value, as `-2.833334`.
pub fn print_down(value: Fixed) -> ArrayString<32>
    ensures text { result.bytes ≡ millionths_text (millionths_down value) }
    ensures below { (pos (2 ^ 32) *ℤ millionths_down value) ≤ℤ (value *ℤ pos 1000000) }
    ensures greatest { (value *ℤ pos 1000000)
        <ℤ (pos (2 ^ 32) *ℤ (millionths_down value +ℤ pos 1)) }
{
    print_millionths(millionths_below(value.units()))
}

/// The least number of points with six decimals that isn't below the value.
pub fn print_up(value: Fixed) -> ArrayString<32>
    ensures text { result.bytes ≡ millionths_text (millionths_up value) }
    ensures above { (value *ℤ pos 1000000) ≤ℤ (pos (2 ^ 32) *ℤ millionths_up value) }
    ensures least { (pos (2 ^ 32) *ℤ millionths_up value)
        <ℤ (value *ℤ pos 1000000 +ℤ pos (2 ^ 32)) }
{
    print_millionths(-millionths_below(-value.units()))
}

/// How many units the value has, as `-12169074006`.
pub fn print_units(value: Fixed) -> ArrayString<32>
    ensures { result.bytes ≡ signed_decimal value }
{
    let mut text = ArrayString::new();
    text.push_str(Buffer::new().format(value.units()));
    text
}

// Whole points and the rest apart, so that no product leaves 64 bits.
fn millionths_below(units: i64) -> i64
    requires { IsWithinUnits (pos (2 ^ 56)) units }
    ensures value { result ≡ millionths_down units }
    ensures within { IsWithinUnits (pos (2 ^ 56)) result }
{
    units.div_euclid(ONE) * 1_000_000 + units.rem_euclid(ONE) * 1_000_000 / ONE
}

fn print_millionths(millionths: i64) -> ArrayString<32>
    ensures { result.bytes ≡ millionths_text millionths }
{
    let mut text = ArrayString::new();
    if millionths < 0 {
        text.push('-');
    }
    let size = millionths.unsigned_abs();
    text.push_str(Buffer::new().format(size / 1_000_000));
    text.push('.');
    push_six_digits(&mut text, size % 1_000_000);
    text
}

fn push_six_digits(text: &mut ArrayString<32>, number: u64)
    requires { length text.old.bytes + 6 < 33 }
    ensures { text.new.bytes ≡ text.old.bytes ++ six_digits number }
{
    for power in [100_000, 10_000, 1_000, 100, 10, 1] {
        text.push(char::from(b'0' + (number / power % 10) as u8));
    }
}
