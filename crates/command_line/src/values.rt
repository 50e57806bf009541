ghost use Rattle.std.specs.Prelude.{◌≡◌, ◌==◌, ℕ, ◌≤◌, IfOk, IfSome, length, option_map, ◌<◌};
ghost use Rattle.std.specs.List.{list_any};
ghost use Rattle.position_rank.specs.Placement.{IsPosition, IsLive};
ghost use Rattle.command_line.specs.Values.{number_within, long_number, long_number_given, number_given, number_or, rule_or, kind_given, is_name_within, name_within, file_name, other_name, prefix, position_given, read_given, roll_given, seen_by_doubler, shown_given, take_given, points_of, millionths_behind, millionths_of, width_of, width_given, usual_rounds, roll_named};
ghost use Rattle.roll_table.specs.Rolls.{IsRoll};
ghost use Rattle.command_line.specs.Words.{is_option, is_option_named, is_faulty};

use crate::command::Shown;
use crate::plain::{read_plain_position, read_plain_roll};
use crate::stop::WordsFault;
use cube_actions::{KindName, MoneyRule};
use cube_text::{read_kind, read_rule};
use directed_fixed::Fixed;
use position_id::{has_id_form, read_id};
use position_rank::Position;
use position_text::BadPosition;
use roll_table::Roll;

/// The most rounds.
pub const MOST_ROUNDS: u32 = 4096;

/// The rounds that are made where none are given, nor a width.
pub const USUAL_ROUNDS: u32 = 64;

/// The rounds of replies that are made where none are given.
pub const USUAL_REPLY_ROUNDS: u32 = 16;

/// The most workers.
pub const MOST_WORKERS: u32 = 64;

/// The most points to which a match is played.
pub const MOST_POINTS: u32 = 5;

/// The points of a match where none are given.
pub const USUAL_POINTS: u32 = 3;

/// The most games of a record that is made.
pub const MOST_GAMES: u32 = 1000;

/// The most decisions that are shown of those that lost most.
const MOST_WORST: u32 = 100;

/// The most points of a width that is given.
const WIDEST_POINTS: u64 = 64;

/// How many millionths a point has.
const MILLIONTHS: u64 = 1_000_000;

/// The most bytes of a word.
pub const LONGEST_WORD: usize = 4096;

/// The most bytes of a file's name.
pub const LONGEST_NAME: usize = 255;

/// The most bytes of what the names of a ladder's files begin with.
pub const LONGEST_PREFIX: usize = 240;

/// A number from 1 to this limit, in decimal digits without a leading zero.
pub(crate) fn number_within(word: &str, most: u32) -> Option<u32>
    ensures number { result ≡ number_within most word.now }
    ensures within { IfSome result (λ number. (1 ≤ number) × (number ≤ most)) }
{
    let bytes = word.as_bytes();
    if bytes.starts_with(b"0") || bytes.starts_with(b"+") {
        return None;
    }
    match word.parse::<u32>() {
        Ok(number) if number >= 1 && number <= most => Some(number),
        _ => None,
    }
}

/// A number below 2^64, in decimal digits without a leading zero.
fn long_number(word: &str) -> Option<u64>
    ensures { result ≡ long_number word.now }
{
    let bytes = word.as_bytes();
    if bytes.starts_with(b"+") || bytes.len() > 1 && bytes.starts_with(b"0") {
        return None;
    }
    word.parse::<u64>().ok()
}

/// The number below 2^64 that is given.
pub(crate) fn long_number_given(word: Option<&str>) -> Option<u64>
    ensures { result ≡ long_number_given (option_map (λ w. w.now) word.entry) }
{
    long_number(word?)
}

/// The number that is given.
pub(crate) fn number_given(word: Option<&str>, most: u32) -> Option<u32>
    ensures number { result ≡ number_given most (option_map (λ w. w.now) word.entry) }
    ensures within { IfSome result (λ number. (1 ≤ number) × (number ≤ most)) }
{
    number_within(word?, most)
}

/// The number that is given, or the usual one where none is.
pub(crate) fn number_or(word: Option<&str>, most: u32, usual: u32) -> Option<u32>
    requires usual { (1 ≤ usual) × (usual ≤ most) }
    ensures number { result ≡ number_or most usual (option_map (λ w. w.now) word.entry) }
    ensures within { IfSome result (λ number. (1 ≤ number) × (number ≤ most)) }
{
    match word {
        Some(word) => number_within(word, most),
        None => Some(usual),
    }
}

/// A number from 0 to 64.
fn points(word: &str) -> Option<u64>
    ensures number { result ≡ points_of word.now }
    ensures within { IfSome result (λ points. points ≤ 64) }
{
    let number = long_number(word)?;
    if number <= WIDEST_POINTS {
        Some(number)
    } else {
        None
    }
}

/// The millionths that one to six digits write behind a point.
fn millionths_behind(digits: &str) -> Option<u64>
    ensures number { result ≡ millionths_behind digits.now }
    ensures below { IfSome result (λ millionths. millionths < 1000000) }
{
    let bytes = digits.as_bytes();
    if bytes.len() > 6 || bytes.starts_with(b"+") {
        return None;
    }
    let number = digits.parse::<u64>().ok()?;
    Some(number * 10u64.pow(6 - bytes.len() as u32))
}

/// The millionths of a number of points, behind which a point and more digits may stand.
fn millionths(word: &str) -> Option<u64>
    ensures number { result ≡ millionths_of word.now }
    ensures below { IfSome result (λ millionths. millionths < 65000000) }
{
    match word.split_once('.') {
        Some((whole, behind)) => Some(points(whole)? * MILLIONTHS + millionths_behind(behind)?),
        None => Some(points(word)? * MILLIONTHS),
    }
}

/// A width above 0 and of at most 64 points, rounded down to units.
fn width(word: &str) -> Option<Fixed>
    ensures { result ≡ width_of word.now }
{
    let millionths = millionths(word)?;
    if millionths == 0 || millionths > WIDEST_POINTS * MILLIONTHS {
        return None;
    }
    Fixed::new(((millionths << 32) / MILLIONTHS) as i64)
}

/// The rounds that are made where none are given: the most where a width is, so that it is reached.
pub(crate) fn usual_rounds(width: Option<&str>) -> u32
    ensures rounds { result ≡ usual_rounds (option_map (λ w. w.now) width.entry) }
    ensures within { (1 ≤ result) × (result ≤ 4096) }
{
    match width {
        Some(_) => MOST_ROUNDS,
        None => USUAL_ROUNDS,
    }
}

/// The width that is given, `Some(None)` where none is.
pub(crate) fn width_given(word: Option<&str>) -> Option<Option<Fixed>>
    ensures { result ≡ width_given (option_map (λ w. w.now) word.entry) }
{
    match word {
        Some(word) => width(word).map(Some),
        None => Some(None),
    }
}

/// The rule that is given, or the usual one where none is.
pub(crate) fn rule_or(word: Option<&str>, usual: MoneyRule) -> Option<MoneyRule>
    ensures { result ≡ rule_or usual (option_map (λ w. w.now) word.entry) }
{
    match word {
        Some(word) => read_rule(word),
        None => Some(usual),
    }
}

/// The kind of state that is given, `Some(None)` where none is.
pub(crate) fn kind_given(word: Option<&str>) -> Option<Option<KindName>>
    ensures { result ≡ kind_given (option_map (λ w. w.now) word.entry) }
{
    match word {
        Some(word) => read_kind(word).map(Some),
        None => Some(None),
    }
}

/// The live position that a word gives, or what is wrong with it.
pub fn position_given(word: &str) -> Result<Position, WordsFault>
    ensures given { result ≡ position_given word.now }
    ensures position { IfOk result IsPosition }
    ensures live { IfOk result IsLive }
{
    read_given(word).map_err(WordsFault::Position)
}

/// The position of an ID, or of the plain form of a text.
fn read_given(word: &str) -> Result<Position, BadPosition>
    ensures given { result ≡ read_given word.now }
    ensures position { IfOk result IsPosition }
    ensures live { IfOk result IsLive }
{
    if has_id_form(word) {
        read_id(word)
    } else {
        read_plain_position(word)
    }
}

/// The roll of two dice that a word gives, or what is wrong with it.
pub fn roll_named(word: &str) -> Result<Roll, WordsFault>
    ensures given { result ≡ roll_named word.now }
    ensures roll { IfOk result IsRoll }
{
    read_plain_roll(word).map_err(WordsFault::Roll)
}

/// The roll that is given, if one is.
pub(crate) fn roll_given(word: Option<&str>) -> Result<Option<Roll>, WordsFault>
    ensures { result ≡ roll_given (option_map (λ w. w.now) word.entry) }
{
    match word {
        Some(word) => match roll_named(word) {
            Ok(roll) => Ok(Some(roll)),
            Err(fault) => Err(fault),
        },
        None => Ok(None),
    }
}

/// Whether it is 1 to so many bytes, none of them 0.
fn is_name_within(bytes: &[u8], most: usize) -> bool
    ensures { result ≡ is_name_within most bytes.now }
{
    if bytes.is_empty() || bytes.len() > most {
        return false;
    }
    !has_zero(bytes)
}

fn has_zero(bytes: &[u8]) -> bool
    ensures { result ≡ list_any (λ byte. byte == 0) bytes.now }
{
    bytes.iter().any(|byte| *byte == 0)
}

/// The name that is given, if it has at most so many bytes.
fn name_within<'a>(word: Option<&'a str>, most: usize) -> Option<&'a str>
    ensures { option_map (λ w. w.now) result
        ≡ name_within most (option_map (λ w. w.now) word.entry) }
{
    let word = word?;
    if is_name_within(word.as_bytes(), most) {
        Some(word)
    } else {
        None
    }
}

/// The file's name that is given.
pub(crate) fn file_name<'a>(word: Option<&'a str>) -> Option<&'a str>
    ensures { option_map (λ w. w.now) result
        ≡ file_name (option_map (λ w. w.now) word.entry) }
{
    name_within(word, LONGEST_NAME)
}

/// What is given that the names of a ladder's files begin with.
pub(crate) fn prefix<'a>(word: Option<&'a str>) -> Option<&'a str>
    ensures name { option_map (λ w. w.now) result
        ≡ prefix (option_map (λ w. w.now) word.entry) }
    ensures short { IfSome result (λ prefix. length prefix.now ≤ 240) }
{
    name_within(word, LONGEST_PREFIX)
}

/// The file's name that is given, if it isn't this one.
pub(crate) fn other_name<'a>(name: &str, word: Option<&'a str>) -> Option<&'a str>
    ensures { option_map (λ w. w.now) result
        ≡ other_name name.now (option_map (λ w. w.now) word.entry) }
{
    let word = file_name(word)?;
    if word == name { None } else { Some(word) }
}

/// Whether the word is an option.
pub(crate) fn is_option(word: &[u8]) -> bool
    ensures { result ≡ is_option word.now }
{
    word.starts_with(b"--")
}

/// Whether the word is this option, alone or with its value behind an `=`.
pub(crate) fn is_option_named(word: &str, option: &str) -> bool
    ensures { result ≡ is_option_named option.now word.now }
{
    match word.split_once('=') {
        Some((name, _)) => name == option,
        None => word == option,
    }
}

/// Whether the word can't stand in any command.
pub(crate) fn is_faulty(word: &[u8]) -> bool
    ensures { result ≡ is_faulty word.now }
{
    if word.is_empty() || word.len() > LONGEST_WORD {
        return true;
    }
    if is_option(word) {
        word.len() == 2 || word.ends_with(b"=")
    } else {
        word.starts_with(b"-")
    }
}

/// Whether the answer to a double is asked for. `None` exactly where a roll is given too.
pub(crate) fn take_given(set: bool, roll: Option<&str>) -> Option<bool>
    ensures { result ≡ take_given set (option_map (λ w. w.now) roll.entry) }
{
    if set && roll.is_some() {
        None
    } else {
        Some(set)
    }
}

/// The position as the doubler sees it, where the side that was doubled gives it as it sees it.
pub(crate) fn seen_by_doubler(take: bool, position: Position) -> Position
    ensures { result ≡ seen_by_doubler take position }
{
    if take { position.swap() } else { position }
}

/// Which decisions are shown, all with their positions where boards alone are asked for. `None` exactly where the number of those that
/// lost most is out of its form, or all are asked for too.
pub(crate) fn shown_given(full: bool, board: bool, worst: Option<&str>) -> Option<Shown>
    ensures { result ≡ shown_given full board (option_map (λ w. w.now) worst.entry) }
{
    match worst {
        Some(_) if full => None,
        Some(word) => number_within(word, MOST_WORST).map(Shown::Worst),
        None if full || board => Some(Shown::Full),
        None => Some(Shown::Losses),
    }
}
