ghost use Rattle.std.specs.Prelude.{◌≡◌, ◌≤◌, ◌++◌, codes, decimal, length};
ghost use Rattle.outside_log.specs.Sink.{Puts};
ghost use Rattle.equity_report.specs.Reports.{line};
ghost use Rattle.solve_reports.specs.Races.{race_text};

use directed_fixed::Pair;
use equity_report::{Report, add_alone, add_number, add_position};
use hyper_outside::Failed;
use outside_log::Sink;
use position_board::board_told;
use position_rank::Position;

fn add_turns(report: &mut Report, turns: u32)
    requires { length report.old.bytes ≤ 600 }
    ensures bytes { report.new.bytes ≡ report.old.bytes ++ line (codes "turns") (decimal turns) }
    ensures length { length report.new.bytes ≤ 640 }
{
    report.push_str("turns ");
    add_number(report, u64::from(turns));
    report.push_str("\n");
}

/// Puts the turns that are left of a race and its pair, in three lines: the position, the turns, and both ends in points, rounded outwards, and
/// in units. `Failed` comes only where `put` failed; then a front of the text was put.
pub fn write_race<O: Sink>(
    out: &mut O,
    board: bool,
    position: &Position,
    turns: u32,
    pair: Pair,
) -> Result<(), Failed>
    ensures { Puts (O.output out.old) (O.output out.new)
        (race_text board position.now turns pair) result }
{
    let mut report = Report::new();
    report.push_str(board_told(board, position).as_str());
    add_position(&mut report, position);
    add_turns(&mut report, turns);
    add_alone(&mut report, pair);
    out.put(report.as_str().as_bytes())
}
