ghost use Rattle.std.specs.Prelude.{◌≡◌, ◌≤◌, ◌++◌, ℕ, List, All, OnOk, length};
ghost use Rattle.std.specs.List.{flat_map};
ghost use Rattle.outside_log.specs.Sink.{Puts};
ghost use Rattle.base_scan.specs.Found.{IsFoundState};
ghost use Rattle.whole_file_reports.specs.Scans.{found_end_text, found_text, scan_text};

use base_scan::{Found, State};
use cube_text::print_kind;
use equity_report::{Report, add_counted, add_number, add_points};
use hyper_outside::Failed;
use interval_words::Words;
use outside_log::Sink;
use position_text::print_position;

/// How many bytes of lines may wait where one more is added.
const WAITING: usize = 2800;

/// Adds the line of a state that was found.
fn add_found(lines: &mut Report, words: &Words, state: &State)
    requires state { IsFoundState words.now.game state.now }
    requires room { length lines.old.bytes ≤ 2800 }
    ensures { lines.new.bytes ≡ lines.old.bytes ++ found_text words.now state.now }
{
    let kind = usize::from(state.kind);
    lines.push_str(print_kind(words.stakes().kind_name(kind)).as_str());
    lines.push_str(" ");
    lines.push_str(print_position(&state.position).as_str());
    lines.push_str(" ");
    add_points(lines, words.pair(&state.position, kind));
    lines.push_str("\n");
}

/// Puts the lines that wait, unless one more fits behind them.
fn make_room<O: Sink>(out: &mut O, lines: &mut Report) -> Result<(), Failed>
    ensures put { (text rest : List ℕ) × Puts (O.output out.old) (O.output out.new) text result
        × (lines.old.bytes ≡ text ++ rest) × OnOk result (lines.new.bytes ≡ rest) }
    ensures room { OnOk result (length lines.new.bytes ≤ 2800) }
{
    if lines.len() > WAITING {
        out.put(lines.as_str().as_bytes())?;
        lines.clear();
    }
    Ok(())
}

fn put_states<O: Sink>(out: &mut O, words: &Words, states: &[State]) -> Result<(), Failed>
    requires { All (IsFoundState words.now.game) states.now }
    ensures { Puts (O.output out.old) (O.output out.new)
        (flat_map (found_text words.now) states.now) result }
{
    let mut lines = Report::new();
    'states: for state in states {
        make_room(out, &mut lines)?;
        add_found(&mut lines, words, state);
    }
    out.put(lines.as_str().as_bytes())
}

/// Puts the last line: how many states were found, and how many there are.
fn put_end<O: Sink>(out: &mut O, found: usize, all: usize) -> Result<(), Failed>
    ensures { Puts (O.output out.old) (O.output out.new) (found_end_text found all) result }
{
    let mut line = Report::new();
    line.push_str("found ");
    add_number(&mut line, found as u64);
    line.push_str(" ");
    add_counted(&mut line, "of", all as u64);
    line.push_str("\n");
    out.put(line.as_str().as_bytes())
}

/// Puts a line for each state that was found, in their order: its kind, its position, and its pair by these words in points, rounded
/// outwards. Then how many these are of all states. It takes no memory. `Failed` comes only where `put` failed; then a front of the
/// text was put.
pub fn write_scan<O: Sink>(out: &mut O, words: &Words, found: &Found) -> Result<(), Failed>
    requires { All (IsFoundState words.now.game) found.now }
    ensures { Puts (O.output out.old) (O.output out.new) (scan_text words.now found.now) result }
{
    let states = found.as_slice();
    put_states(out, words, states)?;
    put_end(out, states.len(), words.states())
}
