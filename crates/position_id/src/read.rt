ghost use Rattle.std.specs.Prelude.{◌≡◌, ◌==◌, ◌+◌, ◌++◌, ◌≤◌, ◌↔◌, All, IfOk, IfSome, IsSome, false, length};
ghost use Rattle.std.specs.List.{list_any};
ghost use Rattle.position_rank.specs.Placement.{IsLive, IsPosition};
ghost use Rattle.position_text.specs.Text.{all_off, read_places, share_point};
ghost use Rattle.position_id.specs.Readings.{bits_of_bytes, has_id_form, low_bits, mover_told, other_told, places_told, read_id, some_behind, with_off};

use crate::print::{Bits, ID_LENGTH, KEY_BYTES};
use arrayvec::ArrayVec;
use base64::engine::general_purpose::STANDARD_NO_PAD;
use position_rank::{Layout, Position};
use position_text::{BadPosition, MOST_CHECKERS};

const OFF: u8 = 0;

const BAR: u8 = 25;

/// The places of a side's checkers.
type Side = ArrayVec<u8, 80>;

/// The live position that an ID tells, where the side with fewer checkers on the board has borne off the others. `Shape` comes where the
/// text isn't the base64 of ten bytes, or tells a checker behind the places of both sides; then `Count` where no side has a
/// checker on the board or one has more than three, `SharedPoint` where both sides hold a point, and `Over` where a side has none on the
/// board.
pub fn read_id(text: &str) -> Result<Position, BadPosition>
    ensures position { result ≡ read_id text.now }
    ensures valid { IfOk result IsPosition }
    ensures live { IfOk result IsLive }
{
    if text.len() != ID_LENGTH {
        return Err(BadPosition::Shape);
    }
    let mut key = [0; KEY_BYTES];
    if STANDARD_NO_PAD
        .decode_slice(text.as_bytes(), &mut key)
        .is_err()
    {
        return Err(BadPosition::Shape);
    }
    let (mover, other) = read_sides(&key_bits(&key)).ok_or(BadPosition::Shape)?;
    set_up(&with_off(&mover, &other), &with_off(&other, &mover))
}

/// Whether a word has as many signs as an ID and no space, as no text of a position has.
pub fn has_id_form(word: &str) -> bool
    ensures { result ≡ has_id_form word.now }
{
    word.len() == ID_LENGTH && !has_space(word.as_bytes())
}

fn has_space(bytes: &[u8]) -> bool
    ensures { result ≡ list_any (λ byte. byte == 32) bytes.now }
{
    bytes.iter().any(|byte| *byte == b' ')
}

fn key_bits(key: &[u8]) -> Bits
    requires { length key.now ≡ 10 }
    ensures bits { result.items ≡ bits_of_bytes key.now }
    ensures length { length result.items ≡ 80 }
{
    let mut bits = Bits::new();
    for byte in key {
        push_bits(&mut bits, *byte);
    }
    bits
}

fn push_bits(bits: &mut Bits, byte: u8)
    requires { length bits.old.items ≤ 72 }
    ensures bits { bits.new.items ≡ bits.old.items ++ low_bits 8 byte }
    ensures length { length bits.new.items ≡ length bits.old.items + 8 }
{
    let mut rest = byte;
    for _ in 0..8_u8 {
        bits.push(rest % 2 == 1);
        rest /= 2;
    }
}

/// The places of the checkers on the board, the mover's first. `None` exactly where a checker stands behind the places of both sides.
fn read_sides(bits: &[bool]) -> Option<(Side, Side)>
    requires { length bits.now ≤ 80 }
    ensures places { IsSome result ↔ (some_behind (places_told 1 bits.now) ≡ false) }
    ensures mover { IfSome result (λ sides.
        sides.0.items ≡ mover_told (places_told 1 bits.now)) }
    ensures other { IfSome result (λ sides.
        sides.1.items ≡ other_told (places_told 1 bits.now)) }
{
    let mut mover = Side::new();
    let mut other = Side::new();
    let mut place = 1;
    for bit in bits {
        if !*bit {
            place += 1;
        } else if place <= BAR {
            other.push(place);
        } else if place <= 2 * BAR {
            mover.push(place - BAR);
        } else {
            return None;
        }
    }
    Some((mover, other))
}

/// A side's places with those of its checkers that are off.
fn with_off(mine: &[u8], theirs: &[u8]) -> Side
    requires mine { length mine.now ≤ 80 }
    requires theirs { length theirs.now ≤ 80 }
    ensures { result.items ≡ with_off mine.now theirs.now }
{
    let mut side = Side::new();
    for _ in mine.len()..theirs.len() {
        side.push(OFF);
    }
    let Ok(()) = side.try_extend_from_slice(mine) else {
        unreachable!();
    };
    side
}

/// The position with a checker on each of these places.
fn set_up(mover: &[u8], other: &[u8]) -> Result<Position, BadPosition>
    requires mover { All (λ place. place ≤ 25) mover.now }
    requires other { All (λ place. place ≤ 25) other.now }
    ensures placement { result ≡ read_places mover.now other.now }
    ensures position { IfOk result IsPosition }
    ensures live { IfOk result IsLive }
{
    if mover.len() != other.len() || mover.is_empty() || mover.len() > MOST_CHECKERS {
        return Err(BadPosition::Count);
    }
    let mover = Layout::from_places(mover).map_err(|_| BadPosition::Count)?;
    let other = Layout::from_places(other).map_err(|_| BadPosition::Count)?;
    let position = Position::new(mover, other).ok_or(BadPosition::Count)?;
    if sides_share_point(&position) {
        return Err(BadPosition::SharedPoint);
    }
    if is_off(&mover) || is_off(&other) {
        return Err(BadPosition::Over);
    }
    Ok(position)
}

fn sides_share_point(position: &Position) -> bool
    ensures { result ≡ share_point position.now }
{
    !position.mover().is_apart(&position.other())
}

fn is_off(side: &Layout) -> bool
    ensures { result ≡ all_off side.now }
{
    side.count(OFF) == side.checkers()
}
