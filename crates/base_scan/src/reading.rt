ghost use Rattle.std.specs.Prelude.{◌≡◌, ◌<◌, length, IfErr, IfOk, MatchOption};
ghost use Rattle.position_text.specs.Text.{words};
ghost use Rattle.base_scan.specs.declared.condition.Part.{Part};
ghost use Rattle.base_scan.specs.Groups.{TakesInPart, joint_of};
ghost use Rattle.base_scan.specs.Conditions.{AreConditionWords, IsFirstBad, IsWordOf, MayComeInCondition};

use crate::condition::{BadCondition, Condition, Joined, Joint, MOST_TESTS, Part};
use crate::words::read_test;
use arrayvec::ArrayVec;

/// A test that has to come begins a group.
fn joint_of(wanted: bool) -> Joint
    ensures { result ≡ joint_of wanted }
{
    if wanted { Joint::Or } else { Joint::And }
}

/// What a word is that comes next: where a test has to come, it is no bar, and where the tests are
/// full, it can be nothing.
fn next_part(word: &str, wanted: bool, full: bool) -> Option<Part>
    ensures { MatchOption result
        ((part : Part) → MayComeInCondition wanted full part → IsWordOf part word.now → ⊥)
        (λ part. MayComeInCondition wanted full part × IsWordOf part word.now) }
{
    if full {
        return None;
    }
    if word == "|" {
        return if wanted { None } else { Some(Part::Bar) };
    }
    Some(Part::Asks(read_test(word)?))
}

/// Takes one more part in, and tells whether a test has to come after it.
fn take_in(tests: &mut ArrayVec<Joined, MOST_TESTS>, wanted: bool, part: Part) -> bool
    requires { length tests.old.items < MOST_TESTS }
    ensures { TakesInPart part tests.old.items wanted tests.new.items result }
{
    match part {
        Part::Bar => true,
        Part::Asks(test) => {
            let joint = joint_of(wanted);
            tests.push(Joined { joint, test });
            false
        }
    }
}

/// The condition with this text: groups of tests with the word `|` between them, all words with
/// single spaces. A test is a field, one of `<`, `=` and `>`, and a whole number of at most twelve
/// digits, perhaps behind a `-`; a `!` before the field turns its answer round. It takes no memory.
///
/// `BadCondition` comes exactly where it is no such text, and tells the first word with which no
/// such text can go on.
pub fn read_condition(text: &str) -> Result<Condition, BadCondition>
    ensures condition { IfOk result (λ groups. AreConditionWords groups (words text.now)) }
    ensures bad { IfErr result (λ bad. IsFirstBad (words text.now) bad.word) }
{
    let mut tests: ArrayVec<Joined, MOST_TESTS> = ArrayVec::new();
    let mut wanted = true;
    let mut number = 0;
    for word in text.split(' ') {
        let Some(part) = next_part(word, wanted, tests.is_full()) else {
            return Err(BadCondition { word: number });
        };
        wanted = take_in(&mut tests, wanted, part);
        number += 1;
    }
    if wanted {
        return Err(BadCondition { word: number });
    }
    Ok(Condition::new(tests))
}
