ghost use Rattle.std.specs.Prelude.{◌≡◌, ℕ, ◌+◌, ◌++◌, ◌-◌, ◌≤◌, true, false, List, length, All, MatchOption};
ghost use Rattle.roll_table.specs.Rolls.{Dice, IsRoll, dice_of};
ghost use Rattle.move_rules.specs.Sequences.{IsLegal, IsSequence};
ghost use Rattle.move_rules.specs.Written.{AreStepsOf, Leaves};
ghost use Rattle.position_rank.specs.Placement.{Placement};
ghost use Rattle.position_text.specs.Text.{place, place_text};
ghost use Rattle.position_text.specs.TextParts.{add_word};
ghost use Rattle.move_rules.specs.Ends.{next_board};
ghost use Rattle.play_text.specs.Notation.{mark, step_word, step_text, HitsPoint, IsPlayText, is_hit, play_text, CanFollow};

use arrayvec::ArrayString;
use move_rules::{Move, Play, Step, Written, after_move, hits};
use position_rank::Position;
use position_text::{place_name, push_word, read_place};

/// The steps of a play's text, as `bar/20* 6/off`, or none for `-`. `None` exactly where it is no such text.
pub fn read_play(text: &str) -> Option<Written>
    ensures { MatchOption result
        ((steps : List Step) → IsPlayText text.now steps → ⊥)
        (λ written. IsPlayText text.now written.items) }
{
    let mut written = Written::new();
    if text == "-" {
        return Some(written);
    }
    for word in text.split(' ') {
        if written.is_full() {
            return None;
        }
        written.push(read_step(word)?);
    }
    Some(written)
}

/// The text of a play that can be made from this position, as `bar/20* 6/off`, or `-` for no moves.
pub fn print_play(position: &Position, play: &Play) -> ArrayString<48>
    requires { CanFollow position.now play.now.items }
    ensures { result.bytes ≡ play_text position.now play.now.items }
{
    let mut text = ArrayString::new();
    if play.is_empty() {
        text.push('-');
    }
    let mut now = *position;
    for step in play.iter() {
        push_word(&mut text, step_name(&now, *step).as_str());
        now = after(&now, *step);
    }
    text
}

/// No text is that of two plays.
pub fn texts_tell_plays()
    ensures { (text : List ℕ) (steps others : List Step)
        → IsPlayText text steps → IsPlayText text others → steps ≡ others }
{}

/// The text of a play of at most four moves is that of its steps, which is what reading it gives.
pub fn printed_plays_are_read()
    ensures { (p : Placement) (moves : List Move) → CanFollow p moves → length moves ≤ 4
        → (steps : List Step) × AreStepsOf p moves steps × IsPlayText (play_text p moves) steps }
{}

/// What is printed for a legal play is read as steps that `match_play` takes, with the play's end: they are right and leave it, and
/// every sequence for which they are written has that end. The dice may be told differently, as where `1/off 1/off` is played with
/// 3 and then 2, and read as 2 and then 3.
pub fn printed_plays_are_taken()
    ensures taken { (p : Placement) (roll : Dice) (moves : List Move) (q : Placement)
        (steps : List Step)
        → IsRoll roll → IsLegal p roll moves q → IsPlayText (play_text p moves) steps
        → Leaves p roll steps q }
    ensures end { (p : Placement) (roll : Dice) (steps : List Step) (moves others : List Move)
        (q end : Placement)
        → IsSequence p (dice_of roll) moves q → AreStepsOf p moves steps
        → IsSequence p (dice_of roll) others end → AreStepsOf p others steps → end ≡ q }
{}

fn read_step(word: &str) -> Option<Step>
    ensures { MatchOption result
        ((step : Step) → HitsPoint step → word.now ≡ step_text step → ⊥)
        (λ step. HitsPoint step × (word.now ≡ step_text step)) }
{
    let (from, rest) = word.split_once('/')?;
    let (to, hit) = cut_mark(rest);
    let from = read_place(from)?;
    let to = read_place(to)?;
    if to >= from || (hit && to == 0) {
        return None;
    }
    Some(Step { from, to, hit })
}

/// A text without the star at its end, and whether it had one.
fn cut_mark(text: &str) -> (&str, bool)
    ensures cut { text.now ≡ result.0.now ++ mark result.1 }
    ensures none { result.1 ≡ false → (front : List ℕ) → text.now ≡ front ++ mark true → ⊥ }
{
    match text.strip_suffix('*') {
        Some(front) => (front, true),
        None => (text, false),
    }
}

fn step_name(position: &Position, step: Move) -> ArrayString<8>
    requires { step.from ≤ 25 }
    ensures { result.bytes ≡ step_word step.from (step.from - step.die) (is_hit position.now step) }
{
    let mut name = ArrayString::new();
    name.push_str(place_name(step.from).as_str());
    name.push('/');
    name.push_str(place_name(step.from.saturating_sub(step.die)).as_str());
    if hits(position, step) {
        name.push('*');
    }
    name
}

/// The position after a move, or the same where it can't be made.
fn after(position: &Position, step: Move) -> Position
    requires die { 1 ≤ step.die }
    requires from { 1 ≤ step.from }
    requires place { step.from ≤ 25 }
    ensures { result ≡ next_board position.now step }
{
    after_move(position, step.die, step.from).unwrap_or(*position)
}
