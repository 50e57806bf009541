ghost use Rattle.std.specs.Prelude.{◌≡◌, ◌<◌, ◌*◌, ◌^◌, IsFalse, IsOkAnd, pos, sum};
ghost use Rattle.position_rank.specs.Placement.{IsLive, IsPosition};
ghost use Rattle.position_rank.specs.LiveRanks.{live_rank_of};
ghost use Rattle.position_rank.specs.Ranks.{square_rank_of};
ghost use Rattle.turn_rule.specs.States.{IsState, pair_of};
ghost use Rattle.interval_words.specs.WordLists.{width, words_in_list};
ghost use Rattle.turn_rule.specs.Games.{kinds_of};
ghost use Rattle.play_analyser.specs.Advice.{IsCubeAdviceOver};
ghost use Rattle.base_scan.specs.declared.condition.Field.TheVariants.{Answered, Offered};
ghost use Rattle.base_scan.specs.declared.numbers.Depth.TheVariants.{Checkers};
ghost use Rattle.base_scan.specs.Groups.{begins_group};
ghost use Rattle.base_scan.specs.Meets.{action_in, answer_number, answer_told, asks_more, compares, meets, meets_by, number_of, offer_number, offer_told, says, says_by, says_of};
ghost use Rattle.base_scan.specs.Sides.{IsSeen};

use crate::condition::{Comparison, Condition, Field, Joint, Test};
use crate::sides::Side;
use cube_actions::{Answer, Offer};
use directed_fixed::Pair;
use hyper_outside::LookStop;
use interval_words::{Words, states_are_numbered};
use play_analyser::{CubeAdvice, cube_advice, one_list_gives_the_advice};
use position_rank::Position;

/// How far a look at a state goes. A test that asks for more says yes.
#[derive(Clone, Copy)]
pub(crate) enum Depth {
    /// To the checkers of both sides.
    Checkers,
    /// To all but what is advised, which takes long to find.
    Words,
    /// To all that a test can ask for.
    Advice,
}

/// A state with what tests ask of it.
#[derive(Clone, Copy)]
pub(crate) struct Seen {
    pub(crate) position: Position,
    pub(crate) kind: usize,
    /// Its number.
    pub(crate) state: usize,
    pub(crate) mover: Side,
    pub(crate) other: Side,
}

/// What is advised over the words of a list. There always is some advice.
fn advice_over(words: &Words, position: &Position, kind: usize) -> Result<CubeAdvice, LookStop>
    requires { IsState words.now.game position.now kind }
    ensures { IsOkAnd result
        (IsCubeAdviceOver words.now.game.stakes (words_in_list words.now) position.now kind) }
{
    one_list_gives_the_advice();
    let mut reader = words.reader();
    cube_advice(words.stakes(), position, kind, &mut reader)
}

fn offer_number(offer: Offer) -> i64
    ensures { result ≡ offer_number offer }
{
    match offer {
        Offer::NoDouble => 0,
        Offer::Double => 1,
    }
}

fn answer_number(answer: Answer) -> i64
    ensures { result ≡ answer_number answer }
{
    match answer {
        Answer::Take => 1,
        Answer::Pass => 2,
        Answer::Beaver => 3,
    }
}

fn offered(advice: Result<CubeAdvice, LookStop>) -> i64
    ensures { result ≡ offer_told (action_in advice) }
{
    match advice {
        Ok(
            CubeAdvice {
                action: Some(action),
                ..
            },
        ) => offer_number(action.offer),
        _ => 0,
    }
}

fn answered(advice: Result<CubeAdvice, LookStop>) -> i64
    ensures { result ≡ answer_told (action_in advice) }
{
    match advice {
        Ok(
            CubeAdvice {
                action: Some(action),
                ..
            },
        ) => answer_number(action.answer),
        _ => 0,
    }
}

/// The number of the offer that is advised.
fn advised_offer(words: &Words, position: &Position, kind: usize) -> i64
    requires { IsState words.now.game position.now kind }
    ensures { result ≡ number_of words.now position.now kind Offered }
{
    offered(advice_over(words, position, kind))
}

/// The number of the answer that is advised.
fn advised_answer(words: &Words, position: &Position, kind: usize) -> i64
    requires { IsState words.now.game position.now kind }
    ensures { result ≡ number_of words.now position.now kind Answered }
{
    answered(advice_over(words, position, kind))
}

/// The number of a kind of a game, of which it has at most 14.
fn kind_number(words: &Words, kind: usize) -> i64
    requires { kind < kinds_of words.now.game }
    ensures { result ≡ pos kind }
{
    // That a game has at most 14 kinds is told where they are counted.
    let _kinds = words.stakes().kinds();
    kind as i64
}

/// The number of a live position's first state, behind which the others follow by their kinds.
#[inline]
pub(crate) fn first_state(words: &Words, position: &Position, square: u64) -> usize
    requires valid { IsPosition position.now }
    requires live { IsLive position.now }
    requires checkers { sum position.now.mover ≡ words.now.game.checkers }
    requires square { square ≡ square_rank_of position.now }
    ensures first { result ≡ live_rank_of position.now * kinds_of words.now.game }
    ensures small { result < 2 ^ 36 }
{
    words.index().rank_at(position, square) as usize * words.stakes().kinds()
}

/// The pair of a state.
#[inline]
fn pair_of(words: &Words, seen: &Seen) -> Pair
    requires { IsSeen words.now seen.now }
    ensures { result ≡ pair_of (words_in_list words.now) seen.now.position seen.now.kind }
{
    words.pair_at(seen.state)
}

fn width(pair: Pair) -> i64
    ensures { result ≡ width pair }
{
    pair.upper().units() - pair.lower().units()
}

/// The number of a state that a field asks for.
fn number_of(field: Field, words: &Words, seen: &Seen) -> i64
    requires { IsSeen words.now seen.now }
    ensures { result ≡ number_of words.now seen.now.position seen.now.kind field }
{
    match field {
        Field::LowerWord => pair_of(words, seen).lower().units(),
        Field::UpperWord => pair_of(words, seen).upper().units(),
        Field::Width => width(pair_of(words, seen)),
        Field::KindNumber => kind_number(words, seen.kind),
        Field::Pips => i64::from(seen.mover.pips),
        Field::OtherPips => i64::from(seen.other.pips),
        Field::Off => i64::from(seen.mover.off),
        Field::OtherOff => i64::from(seen.other.off),
        Field::OnBar => i64::from(seen.mover.on_bar),
        Field::OtherOnBar => i64::from(seen.other.on_bar),
        Field::Offered => advised_offer(words, &seen.position, seen.kind),
        Field::Answered => advised_answer(words, &seen.position, seen.kind),
    }
}

fn compares(comparison: Comparison, one: i64, other: i64) -> bool
    ensures { result ≡ compares comparison one other }
{
    match comparison {
        Comparison::Below => one < other,
        Comparison::Equal => one == other,
        Comparison::Above => one > other,
    }
}

/// What a test says of a number.
fn says(test: &Test, number: i64) -> bool
    ensures { result ≡ says test.now number }
{
    let compared = compares(test.comparison, number, test.number);
    if test.negated { !compared } else { compared }
}

/// What a test says of a state.
fn says_of(test: &Test, words: &Words, seen: &Seen) -> bool
    requires { IsSeen words.now seen.now }
    ensures { result ≡ says_of words.now seen.now.position seen.now.kind test.now }
{
    says(test, number_of(test.field, words, seen))
}

/// Whether a field asks for more than a look finds that goes so far.
#[inline]
pub(crate) fn asks_more(depth: Depth, field: Field) -> bool
    ensures { result ≡ asks_more depth field }
{
    match depth {
        Depth::Checkers => match field {
            Field::Pips | Field::OtherPips => false,
            Field::Off | Field::OtherOff => false,
            Field::OnBar | Field::OtherOnBar => false,
            _ => true,
        },
        Depth::Words => match field {
            Field::Offered | Field::Answered => true,
            _ => false,
        },
        Depth::Advice => false,
    }
}

/// What a test says of a state by a look that goes so far.
#[inline]
fn says_by(depth: Depth, test: &Test, words: &Words, seen: &Seen) -> bool
    requires { IsSeen words.now seen.now }
    ensures { result ≡ says_by depth words.now seen.now.position seen.now.kind test.now }
{
    asks_more(depth, test.field) || says_of(test, words, seen)
}

/// Whether a test begins a group.
fn begins_group(joint: Joint) -> bool
    ensures { result ≡ begins_group joint }
{
    match joint {
        Joint::And => false,
        Joint::Or => true,
    }
}

/// Whether all tests of some group say yes of a state by a look that goes so far.
#[inline]
fn meets_by(depth: Depth, condition: &Condition, words: &Words, seen: &Seen) -> bool
    requires { IsSeen words.now seen.now }
    ensures { result
        ≡ meets_by depth words.now condition.now seen.now.position seen.now.kind }
{
    let mut all = false;
    for joined in condition.tests() {
        if begins_group(joined.joint) {
            if all {
                return true;
            }
            all = says_by(depth, &joined.test, words, seen);
        } else if all {
            all = says_by(depth, &joined.test, words, seen);
        }
    }
    all
}

/// Whether a position with this state may meet a condition. Where no test asks for checkers it may.
#[inline]
pub(crate) fn may_meet(
    asks_checkers: bool,
    condition: &Condition,
    words: &Words,
    seen: &Seen,
) -> bool
    requires { IsSeen words.now seen.now }
    ensures { IsFalse result → IsFalse
        (meets_by Checkers words.now condition.now seen.now.position seen.now.kind) }
{
    !asks_checkers || meets_by(Depth::Checkers, condition, words, seen)
}

/// `meets` of a state whose numbers are at hand. Advice is looked for only where the tests that
/// don't ask for it may be met.
pub(crate) fn meets_with(condition: &Condition, words: &Words, seen: &Seen) -> bool
    requires { IsSeen words.now seen.now }
    ensures { result ≡ meets words.now condition.now seen.now.position seen.now.kind }
{
    meets_by(Depth::Words, condition, words, seen)
        && meets_by(Depth::Advice, condition, words, seen)
}

/// Whether a state meets a condition: whether all tests of some group say yes. A test says whether
/// the number that its field has for the state is below, equal to or above its own, and the other
/// way round where it is negated. It takes no memory.
pub fn meets(condition: &Condition, words: &Words, position: &Position, kind: usize) -> bool
    requires { IsState words.now.game position.now kind }
    ensures { result ≡ meets words.now condition.now position.now kind }
{
    states_are_numbered();
    let seen = Seen {
        position: *position,
        kind,
        state: first_state(words, position, position.square_rank()) + kind,
        mover: Side::of(&position.mover()),
        other: Side::of(&position.other()),
    };
    meets_with(condition, words, &seen)
}
