ghost use Rattle.std.specs.Prelude.{◌≡◌, ◌≤◌, ◌++◌, ◌+◌, ◌*◌, All, OnOk, length};
ghost use Rattle.std.specs.List.{flat_map};
ghost use Rattle.play_text.specs.Notation.{CanFollow};
ghost use Rattle.base_reports.specs.Lists.{best_fields, next_field, pair_fields, best_play_line, refused_line, row_fields, shown_line};

use crate::shown::KindRow;
use cube_actions::KindName;
use cube_text::print_kind;
use directed_fixed::Pair;
use equity_report::{Refusal, Report, add_refusal};
use hyper_outside::NoMemory;
use play_analyser::{PlayRow, Ranking};
use play_text::print_play;
use point_text::{print_down, print_units, print_up};
use position_rank::Position;
use position_text::print_position;
use roll_table::Roll;

/// Adds a field behind a tab.
fn add_field(line: &mut Report, text: &str)
    requires text { length text.now ≤ 48 }
    requires room { length line.old.bytes ≤ 3000 }
    ensures bytes { line.new.bytes ≡ line.old.bytes ++ next_field text.now }
    ensures length { length line.new.bytes ≤ length line.old.bytes + length text.now + 1 }
{
    line.push_str("\t");
    line.push_str(text);
}

fn add_pair(line: &mut Report, pair: Pair)
    requires { length line.old.bytes ≤ 2850 }
    ensures bytes { line.new.bytes ≡ line.old.bytes ++ pair_fields pair }
    ensures length { length line.new.bytes ≤ length line.old.bytes + 132 }
{
    add_field(line, print_down(pair.lower()).as_str());
    add_field(line, print_up(pair.upper()).as_str());
    add_field(line, print_units(pair.lower()).as_str());
    add_field(line, print_units(pair.upper()).as_str());
}

fn add_row(line: &mut Report, row: &KindRow)
    requires { length line.old.bytes ≤ 2800 }
    ensures bytes { line.new.bytes ≡ line.old.bytes ++ row_fields row.now }
    ensures length { length line.new.bytes ≤ length line.old.bytes + 165 }
{
    add_field(line, print_kind(row.kind).as_str());
    add_pair(line, row.pair);
}

fn add_rows(line: &mut Report, rows: &[KindRow])
    requires many { length rows.now ≤ 14 }
    requires room { length line.old.bytes ≤ 100 }
    ensures bytes { line.new.bytes ≡ line.old.bytes ++ flat_map row_fields rows.now }
    ensures length { length line.new.bytes ≤ 2500 }
{
    'rows: for row in rows {
        add_row(line, row);
    }
}

/// Adds the line of a position with its pairs, one for each of at most 14 kinds. It asks for memory, and may answer `NoMemory`.
pub fn add_shown(text: &mut Vec<u8>, position: &Position, rows: &[KindRow]) -> Result<(), NoMemory>
    requires { length rows.now ≤ 14 }
    ensures { OnOk result (text.new.items
        ≡ text.old.items ++ shown_line position.now rows.now) }
{
    let mut line = Report::new();
    line.push_str(print_position(position).as_str());
    add_rows(&mut line, rows);
    line.push_str("\n");
    text.extend_from_slice(line.as_str().as_bytes())?;
    Ok(())
}

/// Adds the first of some plays with its pair.
fn add_best(line: &mut Report, position: &Position, rows: &[PlayRow])
    requires plays { All (λ row. CanFollow position.now row.entry.play.items) rows.now }
    requires room { length line.old.bytes ≤ 200 }
    ensures bytes { line.new.bytes ≡ line.old.bytes ++ best_fields position.now rows.now }
    ensures length { length line.new.bytes ≤ length line.old.bytes + 200 }
{
    if let Some(row) = rows.first() {
        add_field(line, print_play(position, &row.entry.play).as_str());
        add_pair(line, row.pair);
    }
}

/// Adds the line of a position, a roll and a kind with the first of the roll's plays, its pair, and what it loses at most. It asks for memory,
/// and may answer `NoMemory`.
pub fn add_best_play(
    text: &mut Vec<u8>,
    position: &Position,
    roll: Roll,
    kind: KindName,
    ranking: &Ranking,
) -> Result<(), NoMemory>
    requires { All (λ row. CanFollow position.now row.entry.play.items) ranking.now.rows.items }
    ensures { OnOk result (text.new.items
        ≡ text.old.items ++ best_play_line position.now roll kind ranking.now) }
{
    let mut line = Report::new();
    line.push_str(print_position(position).as_str());
    add_field(&mut line, roll.print().as_str());
    add_field(&mut line, print_kind(kind).as_str());
    add_best(&mut line, position, ranking.rows.as_slice());
    add_field(&mut line, print_up(ranking.loss_bound).as_str());
    line.push_str("\n");
    text.extend_from_slice(line.as_str().as_bytes())?;
    Ok(())
}

/// Adds the line of what is refused, as `! 2 position 4`. It asks for memory, and may answer `NoMemory`.
pub fn add_refused(text: &mut Vec<u8>, refusal: &Refusal) -> Result<(), NoMemory>
    ensures { OnOk result (text.new.items ≡ text.old.items ++ refused_line refusal.now) }
{
    let mut line = Report::new();
    line.push_str("! ");
    add_refusal(&mut line, refusal);
    line.push_str("\n");
    text.extend_from_slice(line.as_str().as_bytes())?;
    Ok(())
}
