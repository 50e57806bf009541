ghost use Rattle.std.specs.Prelude.{◌≡◌, ℕ, List, IsTrue, Some};
ghost use Rattle.cube_actions.specs.declared.name.KindName.{KindName};
ghost use Rattle.cube_actions.specs.Names.{is_kind_name};
ghost use Rattle.cube_text.specs.Texts.{kind_text, read_name, side_text, owner_text};

use arrayvec::ArrayString;
use cube_actions::{KindName, Side, every_name};
use itoa::Buffer;

/// The kind of a text such as `centred` or `near:2:far`. `None` exactly where no kind has that text.
pub fn read_kind(text: &str) -> Option<KindName>
    ensures { result ≡ read_name text.now }
{
    let names = every_name();
    names
        .as_slice()
        .iter()
        .copied()
        .find(|name| print_kind(*name).as_str() == text)
}

/// `alone`, `centred`, `mine` or `theirs`; in a match who moves, what the cube shows, and who owns it, as `near:2:far`.
pub fn print_kind(name: KindName) -> ArrayString<16>
    ensures { result.bytes ≡ kind_text name }
{
    let mut text = ArrayString::new();
    match name {
        KindName::Alone => text.push_str("alone"),
        KindName::Centred => text.push_str("centred"),
        KindName::Mine => text.push_str("mine"),
        KindName::Theirs => text.push_str("theirs"),
        KindName::InMatch { mover, cube, owner } => {
            text.push_str(side_text(mover));
            text.push(':');
            text.push_str(Buffer::new().format(cube));
            text.push(':');
            text.push_str(owner.map_or("centred", side_text));
        }
    }
    text
}

/// A kind's text is read as that kind.
pub fn printed_kinds_are_read()
    ensures { (name : KindName) → IsTrue (is_kind_name name)
        → read_name (kind_text name) ≡ Some name }
{}

/// A text that is read is the text of the kind that it is read as, which is the name of a kind.
pub fn read_kinds_are_printed()
    ensures { (text : List ℕ) (name : KindName) → read_name text ≡ Some name
        → IsTrue (is_kind_name name) × (kind_text name ≡ text) }
{}

fn side_text(side: Side) -> &'static str
    ensures { result.now ≡ side_text side }
{
    match side {
        Side::Near => "near",
        Side::Far => "far",
    }
}
