ghost use Rattle.std.specs.Prelude.{◌≡◌, ◌<◌, ◌≤◌, ℕ, All, length, map};
ghost use Rattle.std.specs.Int.{int_min};
ghost use Rattle.directed_fixed.specs.Bounds.{negated};
ghost use Rattle.cube_actions.specs.Stakes.{IsRightDouble, IsValid};
ghost use Rattle.turn_rule.specs.Looks.{AreStakesOf, IsSourceState, LooksUp, MeetsOnAnswers};
ghost use Rattle.cube_actions.specs.declared.action.Answer.TheVariants.{Take};
ghost use Rattle.play_analyser.specs.Losses.{loss, least_pair};
ghost use Rattle.play_analyser.specs.Choices.{IsAmongAnswers, answer_options, offer_options};
ghost use Rattle.play_analyser.specs.Sought.{ArePairsFor, IsNear, of_answer};

use crate::among::loss_among;
use arrayvec::ArrayVec;
use cube_actions::{Answer, Double, Offer, Stakes};
use directed_fixed::Pair;
use hyper_outside::LookStop;
use turn_rule::{Pairs, RollEnds};

/// What rolling is worth after each answer to a double that plays on.
pub(crate) fn answer_pairs<P: Pairs>(
    ends: &RollEnds,
    stakes: &Stakes,
    double: &Double,
    pairs: &mut P,
) -> Result<ArrayVec<Pair, 2>, LookStop>
    requires stakes { AreStakesOf (P.seen pairs.old).source stakes.now }
    requires valid { IsValid stakes.now }
    requires states { (k : ℕ) → k < (P.seen pairs.old).source.kinds
        → IsSourceState (P.seen pairs.old).source ends.now k }
    requires right { IsRightDouble stakes.now double.now }
    ensures looked { LooksUp (P.seen pairs.old) (P.seen pairs.new)
        (MeetsOnAnswers stakes.now ends.now double.now.answers.items (P.seen pairs.old).source)
        (λ found. ArePairsFor (of_answer stakes.now ends.now) double.now.answers.items
        (P.seen pairs.old).source (P.seen pairs.new).notes found.items) result }
    ensures source { (P.seen pairs.new).source ≡ (P.seen pairs.old).source }
    ensures stays { P.stays pairs.new ≡ P.stays pairs.old }
{
    let mut found = ArrayVec::new();
    for taken in double.answers.as_slice() {
        let pair = ends.roll_bounds(stakes, taken.kind, taken.factor, pairs)?;
        found.push(pair);
    }
    Ok(found)
}

/// At each end the smaller one.
#[inline]
fn smaller(one: Pair, other: Pair) -> Pair
    ensures lower { result.lower ≡ int_min one.lower other.lower }
    ensures upper { result.upper ≡ int_min one.upper other.upper }
{
    Pair::new(
        one.lower().min(other.lower()),
        one.upper().min(other.upper()),
    )
}

/// What a double gives, as the other side answers it best: at each end the least of the pass and of
/// the other answers.
pub(crate) fn doubled_pair(pass: Pair, taken: &[Pair]) -> Pair
    ensures { result ≡ least_pair pass taken.now }
{
    let mut least = pass;
    for pair in taken {
        least = smaller(least, *pair);
    }
    least
}

/// What an offer loses.
pub(crate) fn offer_loss(rolling: Pair, doubling: Pair, offer: Offer) -> Pair
    requires rolling { IsNear rolling }
    requires doubling { IsNear doubling }
    ensures { result ≡ loss (offer_options rolling doubling offer) }
{
    match offer {
        Offer::NoDouble => loss_among(rolling, &[doubling]),
        Offer::Double => loss_among(doubling, &[rolling]),
    }
}

/// What taking loses for the side that was doubled.
fn take_loss(pass: Pair, taken: &[Pair]) -> Pair
    requires pass { IsNear pass }
    requires taken { All IsNear taken.now }
    requires some { 1 ≤ length taken.now }
    requires few { length taken.now ≤ 2 }
    ensures { result ≡ loss (answer_options pass taken.now Take) }
{
    if taken.len() == 1 {
        loss_among(taken[0], &[pass])
    } else {
        loss_among(taken[0], &[pass, taken[1]])
    }
}

/// For the side that was doubled.
fn for_other_side(taken: &[Pair]) -> ArrayVec<Pair, 2>
    requires { length taken.now ≤ 2 }
    ensures { result.items ≡ map negated taken.now }
{
    let mut theirs = ArrayVec::new();
    for pair in taken {
        theirs.push(pair.neg());
    }
    theirs
}

/// What an answer loses, counted for the side that was doubled.
pub(crate) fn answer_loss(pass: Pair, taken: &[Pair], answer: Answer) -> Pair
    requires pass { IsNear pass }
    requires taken { All IsNear taken.now }
    requires few { length taken.now ≤ 2 }
    requires answer { IsAmongAnswers (length taken.now) answer }
    ensures { result ≡ loss (answer_options (negated pass) (map negated taken.now) answer) }
{
    let pass = pass.neg();
    let theirs = for_other_side(taken);
    let taken = theirs.as_slice();
    match answer {
        Answer::Take => take_loss(pass, taken),
        Answer::Beaver => loss_among(taken[1], &[taken[0], pass]),
        Answer::Pass => loss_among(pass, taken),
    }
}
