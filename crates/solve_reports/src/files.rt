ghost use Rattle.std.specs.Prelude.{◌≡◌, ◌≤◌, ◌++◌, ◌+◌, length};
ghost use Rattle.outside_log.specs.Sink.{Puts};
ghost use Rattle.solve_reports.specs.Files.{solved_size_text, solved_text};

use directed_fixed::Fixed;
use equity_report::{GameName, Report, add_counted, add_number, add_rounds, add_written};
use hyper_outside::Failed;
use outside_log::Sink;
use point_text::print_up;

/// A game that was solved.
#[derive(Clone, Copy)]
pub struct Solved {
    pub game: GameName,
    pub rounds: u32,
    pub workers: u32,
    /// How many live positions the game has.
    pub positions: u64,
    /// How many kinds of state it has.
    pub kinds: u64,
    /// The width of the widest pair.
    pub widest: Fixed,
    /// How many bytes its file has.
    pub bytes: u64,
}

fn add_size(report: &mut Report, solved: &Solved)
    requires { length report.old.bytes ≤ 1000 }
    ensures bytes { report.new.bytes ≡ report.old.bytes ++ solved_size_text solved.now }
    ensures length { length report.new.bytes ≤ length report.old.bytes + 200 }
{
    report.push_str("positions ");
    add_number(report, solved.positions);
    report.push_str(" ");
    add_counted(report, "kinds", solved.kinds);
    report.push_str(" widest ");
    report.push_str(print_up(solved.widest).as_str());
    report.push_str("\n");
}

/// Puts the report of a game that was solved and of the file of this name, of at most 255 bytes. `Failed` comes only where `put` failed; then
/// a front of the text was put.
pub fn write_solved<O: Sink>(out: &mut O, solved: &Solved, file: &str) -> Result<(), Failed>
    requires { length file.now ≤ 255 }
    ensures { Puts (O.output out.old) (O.output out.new) (solved_text solved.now file.now) result }
{
    let mut report = Report::new();
    report.push_str("solved ");
    add_rounds(&mut report, solved.game, solved.rounds);
    report.push_str(" ");
    add_counted(&mut report, "workers", u64::from(solved.workers));
    report.push_str("\n");
    add_size(&mut report, solved);
    add_written(&mut report, file, solved.bytes);
    out.put(report.as_str().as_bytes())
}
