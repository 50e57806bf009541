ghost use Rattle.std.specs.Prelude.{◌≡◌, ◌+◌, ◌≤◌, length};
ghost use Rattle.position_text.specs.Text.{place, place_text};
ghost use Rattle.position_text.specs.TextParts.{add_word};

use arrayvec::ArrayString;
use itoa::Buffer;

/// The text of a place: `off` for 0, a point by its number, or `bar` for 25.
pub fn place_name(place: u8) -> ArrayString<3>
    ensures text { result.bytes ≡ place_text place }
    ensures short { length result.bytes ≤ 3 }
{
    let mut name = ArrayString::new();
    match place {
        0 => name.push_str("off"),
        25 => name.push_str("bar"),
        _ => name.push_str(Buffer::new().format(place)),
    }
    name
}

/// The place with this text, 0 to 25, or `None` where it is that of no place.
pub fn read_place(word: &str) -> Option<u8>
    ensures { result ≡ place word.now }
{
    (0..26).find(|place| place_name(*place).as_str() == word)
}

/// Adds a word behind a text, after a space where the text isn't empty.
pub fn push_word<const N: usize>(text: &mut ArrayString<N>, word: &str)
    requires { length text.old.bytes + 1 + length word.now ≤ N }
    ensures { text.new.bytes ≡ add_word text.old.bytes word.now }
{
    if !text.is_empty() {
        text.push(' ');
    }
    text.push_str(word);
}
