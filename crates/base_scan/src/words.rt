ghost use Rattle.std.specs.Prelude.{◌≡◌, ◌<◌, ◌^◌, ◌++◌, ℕ, ℤ, false, true, List, MatchOption, decimal};
ghost use Rattle.base_scan.specs.declared.condition.Comparison.{Comparison};
ghost use Rattle.base_scan.specs.declared.condition.Field.{Field};
ghost use Rattle.base_scan.specs.declared.condition.Test.{Test};
ghost use Rattle.base_scan.specs.Conditions.{IsNumberText, IsTestText, comparison_text, field_text, minus_text, not_text};
ghost use Rattle.base_scan.specs.Cuts.{MakeUp, IsCutAt};

use crate::condition::{Comparison, Field, Test};

/// The numbers of tests are below this, on both sides of 0: they have at most twelve digits.
const NUMBERS: u64 = 1_000_000_000_000;

fn read_field(name: &str) -> Option<Field>
    ensures { MatchOption result ((field : Field) → name.now ≡ field_text field → ⊥)
        (λ field. name.now ≡ field_text field) }
{
    match name {
        "lower" => Some(Field::LowerWord),
        "upper" => Some(Field::UpperWord),
        "width" => Some(Field::Width),
        "kind" => Some(Field::KindNumber),
        "pips" => Some(Field::Pips),
        "opips" => Some(Field::OtherPips),
        "off" => Some(Field::Off),
        "ooff" => Some(Field::OtherOff),
        "bar" => Some(Field::OnBar),
        "obar" => Some(Field::OtherOnBar),
        "offer" => Some(Field::Offered),
        "answer" => Some(Field::Answered),
        _ => None,
    }
}

/// A number of at most twelve decimal digits, without a leading zero.
fn read_count(digits: &str) -> Option<u64>
    ensures { MatchOption result ((count : ℕ) → count < 10 ^ 12 → digits.now ≡ decimal count → ⊥)
        (λ count. (count < 10 ^ 12) × (digits.now ≡ decimal count)) }
{
    let bytes = digits.as_bytes();
    if bytes.starts_with(b"+") || bytes.len() > 1 && bytes.starts_with(b"0") {
        return None;
    }
    match digits.parse::<u64>() {
        Ok(count) if count < NUMBERS => Some(count),
        _ => None,
    }
}

/// A text without the minus before it, and whether it had one.
fn cut_minus(text: &str) -> (bool, &str)
    ensures cut { text.now ≡ minus_text result.0 ++ result.1.now }
    ensures none { result.0 ≡ false → (rest : List ℕ) → text.now ≡ minus_text true ++ rest → ⊥ }
{
    match text.strip_prefix('-') {
        Some(rest) => (true, rest),
        None => (false, text),
    }
}

fn read_number(text: &str) -> Option<i64>
    ensures { MatchOption result ((number : ℤ) → IsNumberText text.now number → ⊥)
        (λ number. IsNumberText text.now number) }
{
    let (minus, digits) = cut_minus(text);
    let count = read_count(digits)? as i64;
    Some(if minus { -count } else { count })
}

/// A text without the `!` before it, and whether it had one.
fn cut_not(text: &str) -> (bool, &str)
    ensures cut { text.now ≡ not_text result.0 ++ result.1.now }
    ensures none { result.0 ≡ false → (rest : List ℕ) → text.now ≡ not_text true ++ rest → ⊥ }
{
    match text.strip_prefix('!') {
        Some(rest) => (true, rest),
        None => (false, text),
    }
}

/// What stands before the comparison of a text, the comparison, and what stands behind it.
fn cut_comparison(text: &str) -> Option<(&str, Comparison, &str)>
    ensures { MatchOption result ((name : List ℕ) (comparison : Comparison) (number : List ℕ)
        → IsCutAt text.now name comparison number → ⊥)
        (λ parts. MakeUp text.now parts.0.now parts.1 parts.2.now) }
{
    if let Some((name, number)) = text.split_once('<') {
        return Some((name, Comparison::Below, number));
    }
    if let Some((name, number)) = text.split_once('=') {
        return Some((name, Comparison::Equal, number));
    }
    let (name, number) = text.split_once('>')?;
    Some((name, Comparison::Above, number))
}

/// The test with this text. `None` exactly where it is no test's text.
pub(crate) fn read_test(word: &str) -> Option<Test>
    ensures { MatchOption result ((test : Test) → IsTestText word.now test → ⊥)
        (λ test. IsTestText word.now test) }
{
    let (negated, rest) = cut_not(word);
    let (name, comparison, number) = cut_comparison(rest)?;
    Some(Test {
        negated,
        field: read_field(name)?,
        comparison,
        number: read_number(number)?,
    })
}
