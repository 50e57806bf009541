ghost use Rattle.std.specs.Prelude.{◌≡◌, ℕ, List, option_map};
ghost use Rattle.record_text.specs.FormWords.{form, form_if_any};
ghost use Rattle.record_text.specs.Forms.{cut_at, cut, same_text, is_word, are_words, begins_with_digit, player_of, go_on_as_words, stakes_form, needs_form, away_form, game_form, winner_form, end_form, roll_form, deed_form, words_form, form_of, kind_of_form};

use crate::words::is;
use game_record::{LineKind, Player};

/// A line with the words that are to be read: all but a roll's play are single words.
#[derive(Clone, Copy)]
pub(crate) enum Form<'a> {
    Title,
    Checkers(&'a [u8]),
    Stakes(&'a [u8]),
    MatchOf(&'a [u8]),
    Game(&'a [u8]),
    AwayGame {
        number: &'a [u8],
        a: &'a [u8],
        b: &'a [u8],
    },
    Roll {
        player: Player,
        roll: &'a [u8],
        play: &'a [u8],
    },
    Double(Player),
    Take(Player),
    Pass(Player),
    Beaver(Player),
    End {
        winner: Player,
        points: &'a [u8],
    },
    Stop,
    Close,
}

impl Form<'_> {
    pub(crate) fn kind(self) -> LineKind
        ensures { result ≡ kind_of_form (form self.entry) }
    {
        match self {
            Form::Title => LineKind::OfTitle,
            Form::Checkers(_) => LineKind::OfCheckers,
            Form::Stakes(_) | Form::MatchOf(_) => LineKind::OfStakes,
            Form::Game(_) => LineKind::OfGame(false),
            Form::AwayGame { .. } => LineKind::OfGame(true),
            Form::Roll { player, .. } => LineKind::OfRoll(player),
            Form::Double(player) => LineKind::OfDouble(player),
            Form::Take(player) | Form::Beaver(player) => LineKind::OfTake(player),
            Form::Pass(player) => LineKind::OfPass(player),
            Form::End { .. } => LineKind::OfEnd,
            Form::Stop => LineKind::OfStop,
            Form::Close => LineKind::OfClose,
        }
    }
}

/// What stands before the first such byte, and what behind it.
pub(crate) fn cut_at(text: &[u8], byte: u8) -> Option<(&[u8], &[u8])>
    ensures { option_map (λ parts. (parts.0.now, parts.1.now)) result ≡ cut_at byte text.now }
{
    let at = text.iter().position(|other| *other == byte)?;
    Some((&text[..at], &text[at + 1..]))
}

fn cut(text: &[u8]) -> Option<(&[u8], &[u8])>
    ensures { option_map (λ parts. (parts.0.now, parts.1.now)) result ≡ cut text.now }
{
    cut_at(text, b' ')
}

/// The form that a line has, if it has one.
pub(crate) fn form_of(line: &[u8]) -> Option<Form<'_>>
    ensures { form_if_any result ≡ form_of line.now }
{
    if is(line, "hypergammon record 1") {
        Some(Form::Title)
    } else if is(line, "stop") {
        Some(Form::Stop)
    } else if is(line, "close") {
        Some(Form::Close)
    } else {
        let (first, rest) = cut(line)?;
        form_of_words(first, rest)
    }
}

fn form_of_words<'a>(first: &'a [u8], rest: &'a [u8]) -> Option<Form<'a>>
    ensures { form_if_any result ≡ words_form (Some (first.now, rest.now)) }
{
    if is(first, "checkers") {
        is_word(rest).then_some(Form::Checkers(rest))
    } else if is(first, "stakes") {
        stakes_form(rest)
    } else if is(first, "game") {
        game_form(rest)
    } else if is(first, "end") {
        end_form(rest)
    } else {
        deed_form(player_of(first)?, rest)
    }
}

fn stakes_form(rest: &[u8]) -> Option<Form<'_>>
    ensures { form_if_any result ≡ stakes_form rest.now (cut rest.now) }
{
    match cut(rest) {
        Some((name, length)) => {
            (is(name, "match") && is_word(length)).then_some(Form::MatchOf(length))
        }
        None => is_word(rest).then_some(Form::Stakes(rest)),
    }
}

fn game_form(rest: &[u8]) -> Option<Form<'_>>
    ensures { form_if_any result ≡ game_form rest.now (cut rest.now) }
{
    match cut(rest) {
        Some((number, more)) => away_form(number, more),
        None => is_word(rest).then_some(Form::Game(rest)),
    }
}

fn away_form<'a>(number: &'a [u8], rest: &'a [u8]) -> Option<Form<'a>>
    ensures { form_if_any result ≡ away_form number.now (cut rest.now) }
{
    let (away, needs) = cut(rest)?;
    if !is(away, "away") || !is_word(number) {
        return None;
    }
    let (a, b) = cut(needs)?;
    (is_word(a) && is_word(b)).then_some(Form::AwayGame { number, a, b })
}

fn end_form(rest: &[u8]) -> Option<Form<'_>>
    ensures { form_if_any result ≡ end_form (cut rest.now) }
{
    let (player, points) = cut(rest)?;
    let winner = player_of(player)?;
    is_word(points).then_some(Form::End { winner, points })
}

fn deed_form(player: Player, rest: &[u8]) -> Option<Form<'_>>
    ensures { form_if_any result ≡ deed_form rest.now (Some player) }
{
    if is(rest, "double") {
        Some(Form::Double(player))
    } else if is(rest, "take") {
        Some(Form::Take(player))
    } else if is(rest, "pass") {
        Some(Form::Pass(player))
    } else if is(rest, "beaver") {
        Some(Form::Beaver(player))
    } else {
        roll_form(player, rest)
    }
}

fn roll_form(player: Player, rest: &[u8]) -> Option<Form<'_>>
    ensures { form_if_any result ≡ roll_form player (cut rest.now) }
{
    let (roll, play) = cut(rest)?;
    (begins_with_digit(roll) && are_words(play)).then_some(Form::Roll { player, roll, play })
}

fn player_of(word: &[u8]) -> Option<Player>
    ensures { result ≡ player_of word.now }
{
    if is(word, "A") {
        Some(Player::A)
    } else if is(word, "B") {
        Some(Player::B)
    } else {
        None
    }
}

/// It isn't empty and has no space.
fn is_word(text: &[u8]) -> bool
    ensures { result ≡ is_word text.now }
{
    !text.is_empty() && !text.contains(&b' ')
}

/// No word of it is empty.
fn are_words(text: &[u8]) -> bool
    ensures { result ≡ are_words text.now }
{
    let mut word_is_empty = true;
    for byte in text {
        if *byte == b' ' && word_is_empty {
            return false;
        }
        word_is_empty = *byte == b' ';
    }
    !word_is_empty
}

fn begins_with_digit(word: &[u8]) -> bool
    ensures { result ≡ begins_with_digit word.now }
{
    matches!(word, [b'0'..=b'9', ..])
}
