ghost use Rattle.std.specs.Prelude.{◌≡◌, ◌≤◌, ◌++◌, codes, length};
ghost use Rattle.std.specs.Fmt.{signed_decimal};
ghost use Rattle.cube_text.specs.Texts.{kind_text};
ghost use Rattle.equity_report.specs.Unheld.{end_text, unheld_text};

use crate::text::Report;
use cube_actions::KindName;
use cube_text::print_kind;
use directed_fixed::{End, Fixed};
use point_text::print_units;
use position_rank::Position;
use position_text::print_position;

/// A word of a file that is tighter than the turn over the file's words.
#[derive(Clone, Copy)]
pub struct Unheld {
    /// Whether it is the lower or the upper word of its state.
    pub side: End,
    /// The kind of its state.
    pub kind: KindName,
    /// The word.
    pub stored: Fixed,
    /// This end of the turn.
    pub computed: Fixed,
    /// The position of its state.
    pub position: Position,
}

fn end_text(side: End) -> &'static str
    ensures text { result.now ≡ end_text side }
    ensures short { length result.now ≤ 5 }
{
    match side {
        End::Lower => "lower",
        End::Upper => "upper",
    }
}

fn add_state(line: &mut Report, side: End, kind: KindName)
    requires { length line.old.bytes ≤ 60 }
    ensures bytes { line.new.bytes
        ≡ line.old.bytes ++ (end_text side ++ codes " " ++ kind_text kind) }
    ensures length { length line.new.bytes ≤ 100 }
{
    line.push_str(end_text(side));
    line.push_str(" ");
    line.push_str(print_kind(kind).as_str());
}

fn add_values(line: &mut Report, stored: Fixed, computed: Fixed)
    requires { length line.old.bytes ≤ 101 }
    ensures bytes { line.new.bytes ≡ line.old.bytes
        ++ (signed_decimal stored ++ codes " " ++ signed_decimal computed) }
    ensures length { length line.new.bytes ≤ 200 }
{
    line.push_str(print_units(stored).as_str());
    line.push_str(" ");
    line.push_str(print_units(computed).as_str());
}

/// Adds what tells a word that doesn't hold.
pub(crate) fn add_unheld(line: &mut Report, unheld: &Unheld)
    requires { length line.old.bytes ≤ 40 }
    ensures bytes { line.new.bytes ≡ line.old.bytes ++ unheld_text unheld.now }
    ensures length { length line.new.bytes ≤ 400 }
{
    line.push_str("inconsistent ");
    add_state(line, unheld.side, unheld.kind);
    line.push_str(" ");
    add_values(line, unheld.stored, unheld.computed);
    line.push_str(" ");
    line.push_str(print_position(&unheld.position).as_str());
}
