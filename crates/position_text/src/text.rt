ghost use Rattle.std.specs.Prelude.{◌≡◌, ◌↔◌, ◌+◌, ◌*◌, ◌≤◌, ◌&&◌, ℕ, [], ◌∷◌, ◌++◌, All, Ok, IfOk, IfSome, IsSome, IsTrue, count_by, fold, length, map, sum, replicate, take};
ghost use Rattle.std.specs.List.{before_first, after_first, filter_map};
ghost use Rattle.position_rank.specs.Placement.{Placement, IsPosition, IsLive};
ghost use Rattle.position_text.specs.Text.{place, place_text, words, is_slash, before_slash, after_slash, kept_places, have_shape, are_places, share_point, all_off, read_places, read_position, places_of, position_text};
ghost use Rattle.position_text.specs.TextParts.{add_word};

use crate::place::{place_name, push_word, read_place};
use arrayvec::{ArrayString, ArrayVec};
use position_rank::{Layout, Position};

/// How many checkers a side of a position that is read has at most.
pub const MOST_CHECKERS: usize = 3;

/// Of the places of a side one more than that are kept, which shows that there are too many.
const KEPT: usize = MOST_CHECKERS + 1;

type Side = ArrayVec<u8, KEPT>;

/// Why a text isn't that of a position.
#[derive(Clone, Copy)]
pub enum BadPosition {
    /// A word is empty, or the slash doesn't stand exactly once.
    Shape = 1,
    /// A word is neither a place nor the slash.
    Place = 2,
    /// The sides have different numbers of places, or none, or too many.
    Count = 3,
    /// Both sides hold one point.
    SharedPoint = 4,
    /// A side has all its checkers off.
    Over = 5,
}

/// The live position that a text describes, as `6 off / bar 3`. Of several errors the first in the order of
/// `BadPosition` is answered.
pub fn read_position(text: &str) -> Result<Position, BadPosition>
    ensures text { result ≡ read_position text.now }
    ensures position { IfOk result IsPosition }
    ensures live { IfOk result IsLive }
{
    if !has_shape(text) {
        return Err(BadPosition::Shape);
    }
    let (mover, other) = read_sides(text).ok_or(BadPosition::Place)?;
    set_up(&mover, &other)
}

/// The places of each side from the bar downwards, the mover's first, as `6 off / bar 3`.
pub fn print_position(position: &Position) -> ArrayString<32>
    ensures { result.bytes ≡ position_text position.now }
{
    let mut text = ArrayString::new();
    push_side(&mut text, &position.mover());
    push_word(&mut text, "/");
    push_side(&mut text, &position.other());
    text
}

/// Reading what a live position prints gives the position back.
pub fn printed_positions_are_read()
    ensures { (p : Placement) → IsPosition p → IsLive p
        → read_position (position_text p) ≡ Ok p }
{}

fn has_shape(text: &str) -> bool
    ensures { result ≡ have_shape (words text.now) }
{
    text.split(' ').all(|word| !word.is_empty())
        && text.split(' ').filter(|word| *word == "/").count() == 1
}

/// The first few places of each side. `None` exactly where a word is neither a place nor the slash.
fn read_sides(text: &str) -> Option<(Side, Side)>
    requires { count_by is_slash (words text.now) ≡ 1 }
    ensures places { IsSome result
        ↔ IsTrue (are_places (before_slash (words text.now))
        && are_places (after_slash (words text.now))) }
    ensures mover { IfSome result (λ sides.
        sides.0.items ≡ kept_places (before_slash (words text.now))) }
    ensures other { IfSome result (λ sides.
        sides.1.items ≡ kept_places (after_slash (words text.now))) }
{
    let mut mover = Side::new();
    let mut other = Side::new();
    let mut past_slash = false;
    for word in text.split(' ') {
        if word == "/" {
            past_slash = true;
        } else {
            let place = read_place(word)?;
            if past_slash {
                keep(&mut other, place);
            } else {
                keep(&mut mover, place);
            }
        }
    }
    Some((mover, other))
}

fn keep(side: &mut Side, place: u8)
    ensures { side.new.items ≡ take KEPT (side.old.items ++ place ∷ []) }
{
    if !side.is_full() {
        side.push(place);
    }
}

/// The position with a checker on each of these places.
fn set_up(mover: &[u8], other: &[u8]) -> Result<Position, BadPosition>
    requires mover { All (λ place. place ≤ 25) mover.now }
    requires other { All (λ place. place ≤ 25) other.now }
    ensures placement { result ≡ read_places mover.now other.now }
    ensures position { IfOk result IsPosition }
    ensures live { IfOk result IsLive }
{
    if mover.len() != other.len() || mover.is_empty() || mover.len() > MOST_CHECKERS {
        return Err(BadPosition::Count);
    }
    let mover = Layout::from_places(mover).map_err(|_| BadPosition::Count)?;
    let other = Layout::from_places(other).map_err(|_| BadPosition::Count)?;
    let position = Position::new(mover, other).ok_or(BadPosition::Count)?;
    if sides_share_point(&position) {
        return Err(BadPosition::SharedPoint);
    }
    if is_off(&mover) || is_off(&other) {
        return Err(BadPosition::Over);
    }
    Ok(position)
}

fn sides_share_point(position: &Position) -> bool
    ensures { result ≡ share_point position.now }
{
    for point in 1..25 {
        if position.mover_at(point) > 0 && position.other_at(25 - point) > 0 {
            return true;
        }
    }
    false
}

fn is_off(side: &Layout) -> bool
    ensures { result ≡ all_off side.now }
{
    side.count(0) == side.checkers()
}

fn push_side(text: &mut ArrayString<32>, side: &Layout)
    requires { length text.old.bytes + 4 * sum side.now ≤ 32 }
    ensures words { text.new.bytes
        ≡ fold add_word text.old.bytes (map place_text (places_of side.now)) }
    ensures length { length text.new.bytes ≤ length text.old.bytes + 4 * sum side.now }
{
    for place in (0..26).rev() {
        push_place(text, place, side.count(place));
    }
}

fn push_place(text: &mut ArrayString<32>, place: u8, times: u8)
    requires place { place ≤ 25 }
    requires room { length text.old.bytes + 4 * times ≤ 32 }
    ensures words { text.new.bytes
        ≡ fold add_word text.old.bytes (replicate times (place_text place)) }
    ensures length { length text.new.bytes ≤ length text.old.bytes + 4 * times }
{
    for _ in 0..times {
        push_word(text, place_name(place).as_str());
    }
}
