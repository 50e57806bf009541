ghost use Rattle.std.specs.Prelude.{◌≡◌, ◌≤◌, ◌++◌, ◌+◌, length};
ghost use Rattle.outside_log.specs.Sink.{Puts};
ghost use Rattle.solve_reports.specs.Ladder.{ladder_end_text, ladder_score_text, match_text, work_text};

use cube_actions::Score;
use cube_text::print_score;
use directed_fixed::{Fixed, Pair};
use equity_report::{Report, add_counted, add_points};
use hyper_outside::Failed;
use outside_log::Sink;
use point_text::print_up;

fn add_match(report: &mut Report, checkers: u8, match_length: u8)
    requires { length report.old.bytes ≤ 1000 }
    ensures bytes { report.new.bytes ≡ report.old.bytes ++ match_text checkers match_length }
    ensures length { length report.new.bytes ≤ length report.old.bytes + 75 }
{
    add_counted(report, "checkers", u64::from(checkers));
    report.push_str(" ");
    add_counted(report, "length", u64::from(match_length));
}

fn add_work(report: &mut Report, rounds: u32, workers: u32)
    requires { length report.old.bytes ≤ 1000 }
    ensures bytes { report.new.bytes ≡ report.old.bytes ++ work_text rounds workers }
    ensures length { length report.new.bytes ≤ length report.old.bytes + 75 }
{
    add_counted(report, "rounds", u64::from(rounds));
    report.push_str(" ");
    add_counted(report, "workers", u64::from(workers));
}

/// Puts the line of a score that was solved: the pair of its start, rounded outwards, and the width of its widest pair, rounded up, both in
/// points of 2^32 units. `Failed` comes only where `put` failed; then a front of the line was put.
pub fn write_ladder_score<O: Sink>(
    out: &mut O,
    score: Score,
    start: Pair,
    widest: Fixed,
) -> Result<(), Failed>
    ensures { Puts (O.output out.old) (O.output out.new)
        (ladder_score_text score start widest) result }
{
    let mut line = Report::new();
    line.push_str("score ");
    line.push_str(print_score(score).as_str());
    line.push_str(" start ");
    add_points(&mut line, start);
    line.push_str(" widest ");
    line.push_str(print_up(widest).as_str());
    line.push_str("\n");
    out.put(line.as_str().as_bytes())
}

/// Puts the last line of a ladder: the checkers a side, the length of the match in points, and the rounds and the workers of each score.
/// `Failed` comes only where `put` failed; then a front of the line was put.
pub fn write_ladder_end<O: Sink>(
    out: &mut O,
    checkers: u8,
    match_length: u8,
    rounds: u32,
    workers: u32,
) -> Result<(), Failed>
    ensures { Puts (O.output out.old) (O.output out.new)
        (ladder_end_text checkers match_length rounds workers) result }
{
    let mut line = Report::new();
    line.push_str("ladder ");
    add_match(&mut line, checkers, match_length);
    line.push_str(" ");
    add_work(&mut line, rounds, workers);
    line.push_str("\n");
    out.put(line.as_str().as_bytes())
}
