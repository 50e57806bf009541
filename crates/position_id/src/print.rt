ghost use Rattle.std.specs.Prelude.{◌≡◌, ◌+◌, ◌≤◌, ◌++◌, length};
ghost use Rattle.position_rank.specs.Placement.{IsLayout};
ghost use Rattle.position_id.specs.Ids.{id_line, id_text, id_told, key_bits, key_bytes, number_of_bits, place_bits, side_bits};

use arrayvec::{ArrayString, ArrayVec};
use base64::engine::general_purpose::STANDARD_NO_PAD;
use position_rank::{Layout, Position};

/// How many signs an ID has.
pub const ID_LENGTH: usize = 14;

/// The text of an ID.
pub type IdText = ArrayString<ID_LENGTH>;

/// The bytes of a key.
pub(crate) const KEY_BYTES: usize = 10;

/// The bits of a key.
pub(crate) const KEY_BITS: usize = 80;

pub(crate) type Bits = ArrayVec<bool, KEY_BITS>;

const BAR: u8 = 25;

/// The position's ID, which tells the checkers on the board and none that is off.
pub fn print_id(position: &Position) -> IdText
    ensures { result.bytes ≡ id_text position.now }
{
    let key = key_bytes(position);
    let mut signs = [0; ID_LENGTH];
    let Ok(_) = STANDARD_NO_PAD.encode_slice(&key, &mut signs) else {
        unreachable!();
    };
    let Ok(text) = IdText::from_byte_string(&signs) else {
        unreachable!();
    };
    text
}

/// The position's ID as a line of a report, as `id AACgAgAAKgAAAA`, with its line feed.
pub fn id_line(position: &Position) -> ArrayString<18>
    ensures { result.bytes ≡ id_line position.now }
{
    let mut line = ArrayString::new();
    line.push_str("id ");
    line.push_str(print_id(position).as_str());
    line.push_str("\n");
    line
}

/// The line of the position's ID where it is asked for, else nothing.
pub fn id_told(asked: bool, position: &Position) -> ArrayString<18>
    ensures bytes { result.bytes ≡ id_told asked position.now }
    ensures length { length result.bytes ≤ 18 }
{
    if asked {
        id_line(position)
    } else {
        ArrayString::new()
    }
}

fn key_bytes(position: &Position) -> ArrayVec<u8, KEY_BYTES>
    ensures { result.items ≡ key_bytes position.now }
{
    let bits = key_bits(position);
    let mut key = ArrayVec::new();
    for byte in 0..KEY_BYTES {
        key.push(number_of_bits(&bits[8 * byte..8 * byte + 8]));
    }
    key
}

fn number_of_bits(bits: &[bool]) -> u8
    requires { length bits.now ≤ 8 }
    ensures { result ≡ number_of_bits bits.now }
{
    let mut number = 0;
    for bit in (0..bits.len()).rev() {
        number = u8::from(bits[bit]) + 2 * number;
    }
    number
}

fn key_bits(position: &Position) -> Bits
    ensures bits { result.items ≡ key_bits position.now }
    ensures length { length result.items ≡ 80 }
{
    let mut bits = Bits::new();
    push_side(&mut bits, &position.other());
    push_side(&mut bits, &position.mover());
    for _ in bits.len()..KEY_BITS {
        bits.push(false);
    }
    bits
}

fn push_side(bits: &mut Bits, side: &Layout)
    requires room { length bits.old.items ≤ 28 }
    requires side { IsLayout side.now }
    ensures bits { bits.new.items ≡ bits.old.items ++ side_bits side.now }
    ensures length { length bits.new.items ≤ length bits.old.items + 28 }
{
    for place in 1..BAR + 1 {
        push_place(bits, side.count(place));
    }
}

fn push_place(bits: &mut Bits, checkers: u8)
    requires { length bits.old.items + checkers + 1 ≤ 80 }
    ensures bits { bits.new.items ≡ bits.old.items ++ place_bits checkers }
    ensures length { length bits.new.items ≡ length bits.old.items + checkers + 1 }
{
    for _ in 0..checkers {
        bits.push(true);
    }
    bits.push(false);
}
