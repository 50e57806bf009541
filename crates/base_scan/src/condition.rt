ghost use Rattle.std.specs.Prelude.{◌≡◌};
ghost use Rattle.base_scan.specs.Groups.{groups_of};

use arrayvec::ArrayVec;
use std::marker::Model;

/// How many tests a condition has at most.
pub const MOST_TESTS: usize = 64;

/// What a test asks of a state: each has a whole number.
#[derive(Clone, Copy, Default)]
pub enum Field {
    /// The lower word, in units.
    #[default]
    LowerWord,
    /// The upper word, in units.
    UpperWord,
    /// The upper word minus the lower one, in units.
    Width,
    /// The number of its kind.
    KindNumber,
    /// The sum of the places of the mover's checkers: 25 on the bar, 0 off.
    Pips,
    /// The same of the other side, in its own numbering.
    OtherPips,
    /// How many of the mover's checkers are off.
    Off,
    /// How many of the other side's are.
    OtherOff,
    /// How many of the mover's checkers are on the bar.
    OnBar,
    /// How many of the other side's are.
    OtherOnBar,
    /// 1 where the mover is advised to double, else 0.
    Offered,
    /// What the other side is advised to answer to a double: 1 to take, 2 to pass, 3 to beaver; 0
    /// where the mover may not double.
    Answered,
}

/// How a number is compared with that of a test.
#[derive(Clone, Copy, Default)]
pub enum Comparison {
    #[default]
    Below,
    Equal,
    Above,
}

/// A question to a state, which a state answers by yes or no.
#[derive(Clone, Copy, Default)]
pub struct Test {
    /// Whether the answer is turned round.
    pub negated: bool,
    pub field: Field,
    pub comparison: Comparison,
    pub number: i64,
}

/// How a test is joined to those before it.
#[derive(Clone, Copy, Default)]
pub(crate) enum Joint {
    /// It is in their group.
    #[default]
    And,
    /// It begins a group.
    Or,
}

/// A test of a condition.
#[derive(Clone, Copy, Default)]
pub(crate) struct Joined {
    pub(crate) joint: Joint,
    pub(crate) test: Test,
}

/// What a word of a condition is.
#[derive(Clone, Copy)]
pub(crate) enum Part {
    /// The bar between two groups.
    Bar,
    Asks(Test),
}

/// Groups of tests. A state meets it where all tests of some group say yes.
#[derive(Drop)]
pub struct Condition {
    tests: ArrayVec<Joined, MOST_TESTS>,
}

impl Condition {
    /// The condition of these tests.
    pub(crate) fn new(tests: ArrayVec<Joined, MOST_TESTS>) -> Condition
        ensures { result ≡ groups_of tests.items }
    {
        Condition { tests }
    }

    /// Its tests, each with how it is joined to those before it.
    pub(crate) fn tests(&self) -> &[Joined]
        ensures { groups_of result.now ≡ self.now }
    {
        self.tests.as_slice()
    }
}

impl Model for Condition {
    ghost use Rattle.std.specs.Prelude.{List};
    ghost use Rattle.base_scan.specs.declared.condition.Test.{Test};
    ghost use Rattle.base_scan.specs.Groups.{groups_of};

    ghost Value = { List (List Test) };

    ghost view = { λ a. groups_of a.tests.items };
}

/// A text isn't that of a condition.
#[derive(Clone, Copy)]
pub struct BadCondition {
    /// The number from 0 of the first word with which no text of a condition can go on, the text's
    /// end counted as a word.
    pub word: u32,
}
