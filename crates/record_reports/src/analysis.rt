ghost use Rattle.std.specs.Prelude.{◌≡◌, ◌≤◌, ◌++◌, ◌+◌, length};
ghost use Rattle.std.specs.List.{flat_map};
ghost use Rattle.outside_log.specs.Sink.{Puts};
ghost use Rattle.record_analysis.specs.Totals.{losses_by, total_of};
ghost use Rattle.record_reports.specs.Analyses.{analysis_text, choice_text, decision_text, judged_text, lost_text, made_text, total_text, totals_text};

use directed_fixed::Pair;
use equity_report::{Report, add_counted, add_number, add_points};
use game_record::{Decision, Player};
use hyper_outside::Failed;
use outside_log::Sink;
use record_analysis::{Analysis, Judged};
use turn_rule::Choice;

pub(crate) fn choice_text(choice: &Choice) -> &'static str
    ensures text { result.now ≡ choice_text choice.now }
    ensures short { length result.now ≤ 16 }
{
    match choice {
        Choice::Played { .. } => "play",
        Choice::Offered(_) => "offer",
        Choice::Answered(_) => "answer",
    }
}

/// Adds where a decision stands in its record, whose it was and what was decided.
fn add_decision(line: &mut Report, decision: &Decision)
    requires { length line.old.bytes ≤ 0 }
    ensures bytes { line.new.bytes ≡ line.old.bytes ++ decision_text decision.now }
    ensures length { length line.new.bytes ≤ 100 }
{
    add_number(line, u64::from(decision.game));
    line.push_str(" ");
    add_number(line, u64::from(decision.line));
    line.push_str(" ");
    line.push_str(decision.player.letter());
    line.push_str(" ");
    line.push_str(choice_text(&decision.choice));
}

/// Adds a decision and what it loses.
fn add_lost(line: &mut Report, decision: &Decision, loss: Pair)
    requires { length line.old.bytes ≤ 0 }
    ensures { line.new.bytes ≡ line.old.bytes ++ lost_text decision.now loss }
{
    add_decision(line, decision);
    line.push_str(" ");
    add_points(line, loss);
    line.push_str("\n");
}

/// The line of a decision, which is empty where it wasn't judged.
fn judged_line(judged: &Judged) -> Report
    ensures { result.bytes ≡ judged_text judged.now }
{
    let mut line = Report::new();
    if let Some(loss) = judged.loss {
        add_lost(&mut line, &judged.decision, loss);
    }
    line
}

fn put_judged<O: Sink>(out: &mut O, judged: &Judged) -> Result<(), Failed>
    ensures { Puts (O.output out.old) (O.output out.new) (judged_text judged.now) result }
{
    out.put(judged_line(judged).as_str().as_bytes())
}

fn put_list<O: Sink>(out: &mut O, list: &[Judged]) -> Result<(), Failed>
    ensures { Puts (O.output out.old) (O.output out.new) (flat_map judged_text list.now) result }
{
    'decisions: for judged in list {
        put_judged(out, judged)?;
    }
    Ok(())
}

/// Adds how many decisions of a player were judged, and what they lose together.
fn add_total(report: &mut Report, player: Player, analysis: &Analysis)
    requires { length report.old.bytes ≤ 400 }
    ensures bytes { report.new.bytes
        ≡ report.old.bytes ++ total_text player (total_of (losses_by player analysis.now)) }
    ensures length { length report.new.bytes ≤ length report.old.bytes + 130 }
{
    let total = analysis.total(player);
    report.push_str(player.letter());
    report.push_str(" ");
    add_counted(report, "decisions", u64::from(total.decisions));
    report.push_str(" loss ");
    add_points(report, Pair::new(total.lower, total.upper));
    report.push_str("\n");
}

fn add_totals(report: &mut Report, analysis: &Analysis)
    requires { length report.old.bytes ≤ 200 }
    ensures { report.new.bytes ≡ report.old.bytes ++ totals_text analysis.now }
{
    add_total(report, Player::A, analysis);
    add_total(report, Player::B, analysis);
}

pub(crate) fn put_totals<O: Sink>(out: &mut O, analysis: &Analysis) -> Result<(), Failed>
    ensures { Puts (O.output out.old) (O.output out.new) (totals_text analysis.now) result }
{
    let mut totals = Report::new();
    add_totals(&mut totals, analysis);
    out.put(totals.as_str().as_bytes())
}

/// Puts a line for each decision that was judged, in the order of the record: the number of its game, the number of its line, the player,
/// whether it is a play, an offer or an answer, and what it loses at least and at most in points, rounded outwards. Then each player's total.
/// It takes no memory. `Failed` comes only where `put` failed; then a front of the text was put.
pub fn write_analysis<O: Sink>(out: &mut O, analysis: &Analysis) -> Result<(), Failed>
    ensures { Puts (O.output out.old) (O.output out.new) (analysis_text analysis.now) result }
{
    put_list(out, analysis.as_slice())?;
    put_totals(out, analysis)
}

/// Puts the report of a record that was made: how many lines and bytes it has, and each player's total. `Failed` comes only where `put`
/// failed; then a front of the text was put.
pub fn write_made<O: Sink>(
    out: &mut O,
    lines: u32,
    bytes: u32,
    analysis: &Analysis,
) -> Result<(), Failed>
    ensures { Puts (O.output out.old) (O.output out.new)
        (made_text lines bytes analysis.now) result }
{
    let mut report = Report::new();
    report.push_str("made ");
    add_counted(&mut report, "lines", u64::from(lines));
    report.push_str(" ");
    add_counted(&mut report, "bytes", u64::from(bytes));
    report.push_str("\n");
    add_totals(&mut report, analysis);
    out.put(report.as_str().as_bytes())
}
