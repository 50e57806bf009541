ghost use Rattle.std.specs.Prelude.{◌≡◌, ◌≤◌, ◌++◌, ◌+◌, codes, length};
ghost use Rattle.position_text.specs.Text.{position_text};
ghost use Rattle.equity_report.specs.Files.{rounds_text, written_text};
ghost use Rattle.cube_text.specs.Texts.{kind_text};
ghost use Rattle.equity_report.specs.Reports.{line, pair_text, points_text};

use crate::text::{GameName, Report, add_counted, add_game, add_points, add_units};
use cube_actions::KindName;
use cube_text::print_kind;
use directed_fixed::Pair;
use position_rank::Position;
use position_text::print_position;

/// Adds the line of a position, with which a report begins.
pub fn add_position(report: &mut Report, position: &Position)
    requires { length report.old.bytes ≤ 600 }
    ensures bytes { report.new.bytes
        ≡ report.old.bytes ++ line (codes "position") (position_text position.now) }
    ensures length { length report.new.bytes ≤ length report.old.bytes + 42 }
{
    report.push_str("position ");
    report.push_str(print_position(position).as_str());
    report.push_str("\n");
}

/// Adds the line of a kind.
pub fn add_kind(report: &mut Report, kind: KindName)
    requires { length report.old.bytes ≤ 700 }
    ensures bytes { report.new.bytes ≡ report.old.bytes ++ line (codes "kind") (kind_text kind) }
    ensures length { length report.new.bytes ≤ length report.old.bytes + 22 }
{
    report.push_str("kind ");
    report.push_str(print_kind(kind).as_str());
    report.push_str("\n");
}

/// Adds a line of what something is worth, in points, rounded outwards, behind a word for it.
pub fn add_worth(report: &mut Report, word: &str, pair: Pair)
    requires word { length word.now ≤ 16 }
    requires room { length report.old.bytes ≤ 2000 }
    ensures bytes { report.new.bytes ≡ report.old.bytes ++ line word.now (points_text pair) }
    ensures length { length report.new.bytes ≤ length report.old.bytes + 90 }
{
    report.push_str(word);
    report.push_str(" ");
    add_points(report, pair);
    report.push_str("\n");
}

/// Adds the line of a pair in a game without a cube, in points, rounded outwards, and in units.
pub fn add_alone(report: &mut Report, pair: Pair)
    requires { length report.old.bytes ≤ 700 }
    ensures { report.new.bytes ≡ report.old.bytes ++ line (codes "alone") (pair_text pair) }
{
    report.push_str("alone ");
    add_points(report, pair);
    report.push_str(" ");
    add_units(report, pair);
    report.push_str("\n");
}

/// Adds a game and how many rounds it was solved by.
pub fn add_rounds(report: &mut Report, game: GameName, rounds: u32)
    requires { length report.old.bytes ≤ 1000 }
    ensures bytes { report.new.bytes ≡ report.old.bytes ++ rounds_text game rounds }
    ensures length { length report.new.bytes ≤ length report.old.bytes + 138 }
{
    add_game(report, game);
    report.push_str(" ");
    add_counted(report, "rounds", u64::from(rounds));
}

/// Adds the line of a file that was written, whose name has at most 255 bytes, and how many bytes it has.
pub fn add_written(report: &mut Report, file: &str, bytes: u64)
    requires name { length file.now ≤ 255 }
    requires room { length report.old.bytes ≤ 1000 }
    ensures bytes { report.new.bytes ≡ report.old.bytes ++ written_text file.now bytes }
    ensures length { length report.new.bytes ≤ length report.old.bytes + 299 }
{
    report.push_str("file ");
    report.push_str(file);
    report.push_str(" ");
    add_counted(report, "bytes", bytes);
    report.push_str("\n");
}
