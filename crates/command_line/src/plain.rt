ghost use Rattle.std.specs.Prelude.{◌≡◌, ◌≤◌, ◌+◌, ◌*◌, [], IfOk, false, nat_lt, length, fold, option_map};
ghost use Rattle.std.specs.List.{flat_map, list_any};
ghost use Rattle.position_rank.specs.Placement.{IsPosition, IsLive};
ghost use Rattle.position_text.specs.Text.{words};
ghost use Rattle.roll_table.specs.Text.{read_roll};
ghost use Rattle.command_line.specs.Plain.{plain_signs, whole_place, add_place, has_plain_form, plain_form, read_plain_position, higher_first, plain_roll};

use arrayvec::ArrayString;
use position_rank::Position;
use position_text::{BadPosition, push_word, read_position};
use roll_table::{BadRoll, Roll};

/// The most bytes of a position's text.
const LONGEST_POSITION: usize = 256;

/// A text of which each sign may have become three.
type Signs = ArrayString<768>;

/// The plain form of a position's text, in which a `b` may have become `bar`.
pub type PlainPosition = ArrayString<1600>;

/// The plain form of a position's text, as `bar 3 / 6 off` of `B 3/6  OFF`: its words in small letters with single spaces, each slash a word,
/// and `bar` for a `b` alone. `None` exactly where the text has more than 256 bytes or one beyond ASCII.
pub fn plain_position(text: &str) -> Option<PlainPosition>
    ensures { option_map (λ plain. plain.bytes) result ≡ plain_form text.now }
{
    if text.len() > LONGEST_POSITION || has_other_signs(text.as_bytes()) {
        return None;
    }
    Some(join_places(spread_signs(text).as_str()))
}

/// The live position that a text describes by its plain form. The first fault of that is answered, and `Place` where it has none.
pub(crate) fn read_plain_position(text: &str) -> Result<Position, BadPosition>
    ensures given { result ≡ read_plain_position text.now }
    ensures position { IfOk result IsPosition }
    ensures live { IfOk result IsLive }
{
    match plain_position(text) {
        Some(plain) => read_position(plain.as_str()),
        None => Err(BadPosition::Place),
    }
}

/// Whether a byte isn't ASCII.
fn has_other_signs(bytes: &[u8]) -> bool
    ensures { result ≡ list_any (λ byte. nat_lt 127 byte) bytes.now }
{
    bytes.iter().any(|byte| *byte > 127)
}

/// With each slash apart, spaces for tabs and small letters.
fn spread_signs(text: &str) -> Signs
    requires short { length text.now ≤ 256 }
    requires ascii { list_any (λ byte. nat_lt 127 byte) text.now ≡ false }
    ensures { result.bytes ≡ flat_map plain_signs text.now }
{
    let mut signs = Signs::new();
    for byte in text.as_bytes() {
        match *byte {
            b'/' => signs.push_str(" / "),
            b'\t' => signs.push_str(" "),
            other => signs.push(char::from(other.to_ascii_lowercase())),
        }
    }
    signs
}

/// The words of a text with single spaces.
fn join_places(text: &str) -> PlainPosition
    requires { length text.now ≤ 768 }
    ensures { result.bytes ≡ fold add_place [] (words text.now) }
{
    let mut plain = PlainPosition::new();
    for word in text.split(' ') {
        if !word.is_empty() {
            push_word(&mut plain, whole_place(word));
        }
    }
    plain
}

/// The place's name in full.
fn whole_place(word: &str) -> &str
    ensures place { result.now ≡ whole_place word.now }
    ensures length { length result.now ≤ 2 * length word.now + 1 }
{
    if word == "b" { "bar" } else { word }
}

/// The roll that a text shows by its plain form: two digits from 1 to 6 in either order, between which a minus or a space may stand. `Shape`
/// comes where it shows none.
pub(crate) fn read_plain_roll(text: &str) -> Result<Roll, BadRoll>
    ensures { result ≡ read_roll (plain_roll text.now) }
{
    match *text.as_bytes() {
        [a, b] | [a, b'-' | b' ', b] => read_dice(a, b),
        _ => Err(BadRoll::Shape),
    }
}

/// The roll of two digits.
fn read_dice(a: u8, b: u8) -> Result<Roll, BadRoll>
    ensures { result ≡ read_roll (higher_first a b) }
{
    match (a, b) {
        (b'1'..=b'6', b'1'..=b'6') => Roll::new(a - b'0', b - b'0').ok_or(BadRoll::Shape),
        _ => Err(BadRoll::Shape),
    }
}
