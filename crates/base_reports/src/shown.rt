ghost use Rattle.std.specs.Prelude.{◌≡◌, ◌≤◌, ◌++◌, ◌+◌, ◌*◌, length};
ghost use Rattle.std.specs.List.{flat_map};
ghost use Rattle.outside_log.specs.Sink.{Puts};
ghost use Rattle.base_reports.specs.Shown.{row_text, shown_text};

use cube_actions::KindName;
use cube_text::print_kind;
use directed_fixed::Pair;
use equity_report::{GameName, Report, add_points, add_position, add_rounds, add_units};
use hyper_outside::Failed;
use outside_log::Sink;
use position_board::board_told;
use position_id::id_told;
use position_rank::Position;

/// A kind of state with a position's pair in it.
#[derive(Clone, Copy, Default)]
pub struct KindRow {
    pub kind: KindName,
    pub pair: Pair,
}

fn add_row(report: &mut Report, row: &KindRow)
    requires { length report.old.bytes ≤ 2700 }
    ensures bytes { report.new.bytes ≡ report.old.bytes ++ row_text row.now }
    ensures length { length report.new.bytes ≤ length report.old.bytes + 149 }
{
    report.push_str(print_kind(row.kind).as_str());
    report.push_str(" ");
    add_points(report, row.pair);
    report.push_str(" ");
    add_units(report, row.pair);
    report.push_str("\n");
}

fn add_rows(report: &mut Report, rows: &[KindRow])
    requires many { length rows.now ≤ 14 }
    requires room { length report.old.bytes ≤ 750 }
    ensures { report.new.bytes ≡ report.old.bytes ++ flat_map row_text rows.now }
{
    'rows: for row in rows {
        add_row(report, row);
    }
}

/// Puts a position, its board and its ID where they are asked for, and its pairs in a game after so many rounds, one for each of at most 14
/// kinds. `Failed` comes only where `put` failed; then a front of the text was put.
pub fn write_shown<O: Sink>(
    out: &mut O,
    board: bool,
    id: bool,
    position: &Position,
    game: GameName,
    rounds: u32,
    rows: &[KindRow],
) -> Result<(), Failed>
    requires { length rows.now ≤ 14 }
    ensures { Puts (O.output out.old) (O.output out.new)
        (shown_text board id position.now game rounds rows.now) result }
{
    let mut report = Report::new();
    report.push_str(board_told(board, position).as_str());
    add_position(&mut report, position);
    report.push_str(id_told(id, position).as_str());
    add_rounds(&mut report, game, rounds);
    report.push_str("\n");
    add_rows(&mut report, rows);
    out.put(report.as_str().as_bytes())
}
