ghost use Rattle.std.specs.Prelude.{◌≡◌, ◌≤◌, ℕ, ◌+◌, ◌↔◌, IsTrue, List, decimal, MatchOption, IfOk, IsErr};
ghost use Rattle.std.specs.Str.{IsAscii};
ghost use Rattle.roll_table.specs.Rolls.{Dice, IsRoll};
ghost use Rattle.roll_table.specs.Text.{roll_text};
ghost use Rattle.play_text.specs.Notation.{IsPlayText};
ghost use Rattle.cube_text.specs.Texts.{IsNoRule, rule_text};
ghost use Rattle.game_record.specs.Lines.{UpTo};
ghost use Rattle.record_text.specs.Forms.{same_text};
ghost use Rattle.record_text.specs.Faults.{IsNoNumber, IsNoPlay};

use cube_actions::MoneyRule;
use cube_text::read_rule;
use itoa::Buffer;
use move_rules::Written;
use play_text::read_play;
use roll_table::Roll;

/// A number from 1 to this one.
pub(crate) fn number_up_to(most: u8, word: &[u8]) -> Option<u8>
    ensures { MatchOption result
        (IsNoNumber most word.now)
        (λ n. UpTo most n × (word.now ≡ decimal n)) }
{
    for number in 1..=most {
        if is_number(word, u32::from(number)) {
            return Some(number);
        }
    }
    None
}

pub(crate) fn is_number(word: &[u8], number: u32) -> bool
    ensures { IsTrue result ↔ (word.now ≡ decimal number) }
{
    word == Buffer::new().format(number).as_bytes()
}

pub(crate) fn rule_of(word: &[u8]) -> Option<MoneyRule>
    ensures { MatchOption result (IsNoRule word.now) (λ rule. word.now ≡ rule_text rule) }
{
    let Some(text) = ascii(word) else {
        return None;
    };
    read_rule(text)
}

pub(crate) fn roll_of(word: &[u8]) -> Option<Roll>
    ensures { MatchOption result
        ((roll : Dice) → IsRoll roll → word.now ≡ roll_text roll → ⊥)
        (λ roll. IsRoll roll × (word.now ≡ roll_text roll)) }
{
    let Some(text) = ascii(word) else {
        return None;
    };
    match Roll::read(text) {
        Ok(roll) => Some(roll),
        Err(_) => None,
    }
}

pub(crate) fn play_of(text: &[u8]) -> Option<Written>
    ensures { MatchOption result
        (IsNoPlay text.now)
        (λ written. IsPlayText text.now written.items) }
{
    let Some(text) = ascii(text) else {
        return None;
    };
    read_play(text)
}

pub(crate) fn is(word: &[u8], text: &str) -> bool
    ensures same { result ≡ same_text word.now text.now }
    ensures exact { IsTrue result ↔ (word.now ≡ text.now) }
{
    word == text.as_bytes()
}

fn ascii(word: &[u8]) -> Option<&str>
    ensures { MatchOption result
        (IsAscii word.now → ⊥)
        (λ text. text.now ≡ word.now) }
{
    match std::str::from_utf8(word) {
        Ok(text) => Some(text),
        Err(_) => None,
    }
}
