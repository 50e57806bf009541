ghost use Rattle.std.specs.Prelude.{◌≡◌, ◌≤◌, ◌<◌, ◌++◌, ◌+◌, ◌*◌, All, codes, length};
ghost use Rattle.outside_log.specs.Sink.{Puts};
ghost use Rattle.play_text.specs.Notation.{CanFollow};
ghost use Rattle.move_rules.specs.declared.play.TheConstants.{MOST_PLAYS};
ghost use Rattle.roll_table.specs.Text.{roll_text};
ghost use Rattle.cube_text.specs.Texts.{kind_text};
ghost use Rattle.equity_report.specs.Reports.{line};
ghost use Rattle.base_reports.specs.Advice.{action_text, advised_text, answer_advised, beaver_text, cube_report, ranked_text, ranked_texts, ranking_text};

use arrayvec::ArrayString;
use cube_actions::KindName;
use cube_text::print_kind;
use directed_fixed::{Fixed, Pair};
use equity_report::{
    Report, add_kind, add_number, add_points, add_position, add_worth, answer_text, offer_text,
};
use hyper_outside::Failed;
use outside_log::Sink;
use play_analyser::{CubeAction, CubeAdvice, PlayRow, Ranking};
use play_text::print_play;
use point_text::print_up;
use position_board::board_told;
use position_rank::Position;
use roll_table::Roll;

/// A report of all plays of a roll.
type LongReport = ArrayString<12288>;

/// Adds a line of what is advised and what it loses at most.
fn add_advised(report: &mut Report, word: &str, choice: &str, bound: Fixed)
    requires word { length word.now ≤ 16 }
    requires choice { length choice.now ≤ 16 }
    requires room { length report.old.bytes ≤ 2000 }
    ensures bytes { report.new.bytes
        ≡ report.old.bytes ++ advised_text word.now choice.now bound }
    ensures length { length report.new.bytes ≤ length report.old.bytes + 80 }
{
    report.push_str(word);
    report.push_str(" ");
    report.push_str(choice);
    report.push_str(" loss ");
    report.push_str(print_up(bound).as_str());
    report.push_str("\n");
}

/// The line of a play with its number.
fn ranked_line(position: &Position, number: u64, row: &PlayRow) -> Report
    requires { CanFollow position.now row.now.entry.play.items }
    ensures bytes { result.bytes ≡ ranked_text position.now number row.now }
    ensures length { length result.bytes ≤ 140 }
{
    let mut line = Report::new();
    add_number(&mut line, number);
    line.push_str(" ");
    add_points(&mut line, row.pair);
    line.push_str(" ");
    line.push_str(print_play(position, &row.entry.play).as_str());
    line.push_str("\n");
    line
}

fn add_ranked(report: &mut LongReport, position: &Position, rows: &[PlayRow])
    requires plays { All (λ row. CanFollow position.now row.entry.play.items) rows.now }
    requires many { length rows.now ≤ MOST_PLAYS }
    requires room { length report.old.bytes ≤ 650 }
    ensures bytes { report.new.bytes
        ≡ report.old.bytes ++ ranked_texts position.now 1 rows.now }
    ensures length { length report.new.bytes ≤ 12100 }
{
    'rows: for i in 0..rows.len() {
        let line = ranked_line(position, i as u64 + 1, &rows[i]);
        report.push_str(line.as_str());
    }
}

/// The line of a roll and a kind.
fn add_roll(report: &mut Report, roll: Roll, kind: KindName)
    requires { length report.old.bytes ≤ 600 }
    ensures bytes { report.new.bytes
        ≡ report.old.bytes ++ line (codes "roll") (roll_text roll ++ codes " kind " ++ kind_text kind) }
    ensures length { length report.new.bytes ≤ length report.old.bytes + 30 }
{
    report.push_str("roll ");
    report.push_str(roll.print().as_str());
    report.push_str(" kind ");
    report.push_str(print_kind(kind).as_str());
    report.push_str("\n");
}

/// Puts the plays of a roll from the best to the worst: the position, with its board before it where that is asked for, the roll and the kind, for each play its number from 1 on, what the mover
/// has after it at least and at most in points, and its moves, and then what the first loses at most, rounded up. `Failed` comes only where
/// `put` failed; then a front of the text was put.
pub fn write_ranking<O: Sink>(
    out: &mut O,
    board: bool,
    position: &Position,
    roll: Roll,
    kind: KindName,
    ranking: &Ranking,
) -> Result<(), Failed>
    requires { All (λ row. CanFollow position.now row.entry.play.items) ranking.now.rows.items }
    ensures { Puts (O.output out.old) (O.output out.new)
        (ranking_text board position.now roll kind ranking.now) result }
{
    let mut head = Report::new();
    head.push_str(board_told(board, position).as_str());
    add_position(&mut head, position);
    add_roll(&mut head, roll, kind);
    let mut report = LongReport::new();
    report.push_str(head.as_str());
    add_ranked(&mut report, position, ranking.rows.as_slice());
    let mut end = Report::new();
    add_advised(&mut end, "best", "1", ranking.loss_bound);
    report.push_str(end.as_str());
    out.put(report.as_str().as_bytes())
}

fn add_beaver(report: &mut Report, beaver: Option<Pair>)
    requires { length report.old.bytes ≤ 1500 }
    ensures bytes { report.new.bytes ≡ report.old.bytes ++ beaver_text beaver }
    ensures length { length report.new.bytes ≤ length report.old.bytes + 90 }
{
    if let Some(pair) = beaver {
        add_worth(report, "double-beaver", pair);
    }
}

fn add_answer(report: &mut Report, action: Option<CubeAction>)
    requires { length report.old.bytes ≤ 1500 }
    ensures bytes { report.new.bytes ≡ report.old.bytes ++ answer_advised action }
    ensures length { length report.new.bytes ≤ length report.old.bytes + 80 }
{
    match action {
        None => report.push_str("no cube action\n"),
        Some(action) => {
            let answer = answer_text(action.answer);
            add_advised(report, "answer", answer, action.answer_bound);
        }
    }
}

fn add_action(report: &mut Report, action: Option<CubeAction>)
    requires { length report.old.bytes ≤ 900 }
    ensures bytes { report.new.bytes ≡ report.old.bytes ++ action_text action }
{
    match action {
        None => report.push_str("no cube action\n"),
        Some(action) => {
            add_worth(report, "double-take", action.take);
            add_beaver(report, action.beaver);
            add_worth(report, "double-pass", action.pass);
            add_advised(
                report,
                "offer",
                offer_text(action.offer),
                action.offer_bound,
            );
            add_answer(report, Some(action));
        }
    }
}

/// Puts what to do with the cube before a roll: the position and the kind, what rolling is worth and what each answer to a double leads to, in
/// points, and the offer and the answer that are advised, each with what it loses at most, rounded up; or `no cube action` where this side may
/// not double. Where the answer is asked for, it stands before all that, and then the board, where that is. `Failed` comes only where `put` failed; then a front of the text was
/// put.
pub fn write_cube<O: Sink>(
    out: &mut O,
    board: bool,
    take: bool,
    position: &Position,
    kind: KindName,
    advice: &CubeAdvice,
) -> Result<(), Failed>
    ensures { Puts (O.output out.old) (O.output out.new)
        (cube_report board take position.now kind advice.now) result }
{
    let mut report = Report::new();
    if take {
        add_answer(&mut report, advice.action);
    }
    report.push_str(board_told(board, position).as_str());
    add_position(&mut report, position);
    add_kind(&mut report, kind);
    add_worth(&mut report, "no-double", advice.no_double);
    add_action(&mut report, advice.action);
    out.put(report.as_str().as_bytes())
}
