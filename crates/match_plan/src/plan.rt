ghost use Rattle.std.specs.Prelude.{◌≡◌, ◌≤◌, ◌+◌, ◌++◌, length};
ghost use Rattle.outside_log.specs.Sink.{Puts};
ghost use Rattle.point_text.specs.Decimal.{millionths_down, millionths_text, millionths_up, size_text, six_digits};
ghost use Rattle.cube_actions.specs.Ladder.{ladder};
ghost use Rattle.cube_actions.specs.MatchKinds.{kind_may_double};
ghost use Rattle.cube_text.specs.Texts.{side_text};
ghost use Rattle.cube_actions.specs.Starts.{Covers, start_pair};
ghost use Rattle.match_plan.specs.Plans.{can_be_doubled, share_text, plan_text, score_lines, side_line, start_line, take_text};

use crate::millionths::Millionths;
use crate::values::{gammon_price_at, take_point_at};
use arrayvec::ArrayString;
use cube_actions::{Phase, Score, Side, Starts, ladder};
use cube_text::print_score;
use directed_fixed::Pair;
use hyper_outside::Failed;
use itoa::Buffer;
use outside_log::Sink;
use point_text::{print_down, print_up};

/// The text of a plan, which has at most 18 scores.
type Plan = ArrayString<8192>;

fn side_text(side: Side) -> &'static str
    ensures text { result.now ≡ side_text side }
    ensures short { length result.now ≤ 4 }
{
    match side {
        Side::Near => "near",
        Side::Far => "far",
    }
}

fn push_six_digits(text: &mut Plan, number: u64)
    requires { length text.old.bytes ≤ 8000 }
    ensures bytes { text.new.bytes ≡ text.old.bytes ++ six_digits number }
    ensures length { length text.new.bytes ≤ length text.old.bytes + 6 }
{
    for power in [100_000, 10_000, 1_000, 100, 10, 1] {
        text.push(char::from(b'0' + (number / power % 10) as u8));
    }
}

/// Adds a number of millionths with six decimals.
fn add_millionths(text: &mut Plan, millionths: u64)
    requires { length text.old.bytes ≤ 7900 }
    ensures bytes { text.new.bytes ≡ text.old.bytes ++ size_text millionths }
    ensures length { length text.new.bytes ≤ length text.old.bytes + 27 }
{
    text.push_str(Buffer::new().format(millionths / 1_000_000));
    text.push('.');
    push_six_digits(text, millionths % 1_000_000);
}

/// Adds both ends, or that it isn't known.
fn add_found(text: &mut Plan, found: Option<Millionths>)
    requires { length text.old.bytes ≤ 7800 }
    ensures bytes { text.new.bytes ≡ text.old.bytes ++ share_text found }
    ensures length { length text.new.bytes ≤ length text.old.bytes + 55 }
{
    match found {
        Some(found) => {
            add_millionths(text, found.low);
            text.push_str(" ");
            add_millionths(text, found.high);
        }
        None => text.push_str("open"),
    }
}

/// Whether the other side may turn the centred cube.
fn can_be_doubled(score: Score, side: Side) -> bool
    ensures { result ≡ can_be_doubled score side }
{
    score.phase != Phase::Crawford && score.needs(side.other()) > 1
}

/// Adds the take point of a side at a score, or that it can't be doubled there.
fn add_take(text: &mut Plan, score: Score, side: Side, starts: &Starts)
    requires room { length text.old.bytes ≤ 7700 }
    requires covered { Covers starts.now score }
    ensures bytes { text.new.bytes ≡ text.old.bytes ++ take_text starts.now score side }
    ensures length { length text.new.bytes ≤ length text.old.bytes + 55 }
{
    if can_be_doubled(score, side) {
        add_found(text, take_point_at(score, side, starts));
    } else {
        text.push_str("none");
    }
}

/// Adds what a side has at a score.
fn add_side(text: &mut Plan, score: Score, side: Side, starts: &Starts)
    requires room { length text.old.bytes ≤ 7500 }
    requires covered { Covers starts.now score }
    ensures bytes { text.new.bytes ≡ text.old.bytes ++ side_line starts.now score side }
    ensures length { length text.new.bytes ≤ length text.old.bytes + 140 }
{
    text.push_str(print_score(score).as_str());
    text.push_str(" ");
    text.push_str(side_text(side));
    text.push_str(" take ");
    add_take(text, score, side, starts);
    text.push_str(" price ");
    add_found(text, gammon_price_at(score, side, starts));
    text.push_str("\n");
}

/// Adds what the near side has of a game at a score before the first play.
fn add_start(text: &mut Plan, score: Score, start: Pair)
    requires { length text.old.bytes ≤ 7500 }
    ensures bytes { text.new.bytes ≡ text.old.bytes ++ start_line score start }
    ensures length { length text.new.bytes ≤ length text.old.bytes + 82 }
{
    text.push_str(print_score(score).as_str());
    text.push_str(" start ");
    text.push_str(print_down(start.lower()).as_str());
    text.push_str(" ");
    text.push_str(print_up(start.upper()).as_str());
    text.push_str("\n");
}

/// Adds the three lines of a score.
fn add_score(text: &mut Plan, score: Score, start: Pair, starts: &Starts)
    requires room { length text.old.bytes ≤ 7000 }
    requires start { start ≡ start_pair starts.now score }
    requires covered { Covers starts.now score }
    ensures bytes { text.new.bytes ≡ text.old.bytes ++ score_lines starts.now score }
    ensures length { length text.new.bytes ≤ length text.old.bytes + 362 }
{
    add_start(text, score, start);
    add_side(text, score, Side::Near, starts);
    add_side(text, score, Side::Far, starts);
}

/// Puts the plan of a match whose starts hold a pair for every score of its ladder. For each score in order it has three lines: the pair of
/// its start, rounded outwards, and for the near and the far side the take point, `none` where the side can't be doubled, and the gammon
/// price, each with six decimals or `open` where it isn't known. `Failed` comes only where `put` failed; then a front of the text was put.
pub fn write_plan<O: Sink>(out: &mut O, starts: &Starts) -> Result<(), Failed>
    requires { length starts.now.pairs ≡ length (ladder starts.now.match_length) }
    ensures { Puts (O.output out.old) (O.output out.new) (plan_text starts.now) result }
{
    let mut text = Plan::new();
    let scores = ladder(starts.match_length());
    for (number, score) in scores.as_slice().iter().enumerate() {
        add_score(&mut text, *score, starts.pair(number), starts);
    }
    out.put(text.as_str().as_bytes())
}
