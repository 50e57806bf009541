ghost use Rattle.std.specs.Prelude.{◌≡◌, ◌≤◌, All, drop, length};
ghost use Rattle.std.specs.Option.{option_to_list};
ghost use Rattle.turn_rule.specs.Looks.{AreStakesOf, IsSourceState, LooksUp, MeetsOnTurn};
ghost use Rattle.play_analyser.specs.Advice.{
  IsAction,
  IsBestAnswer,
  IsBestOffer,
  IsCubeAdvice,
  taken_of,
};
ghost use Rattle.play_analyser.specs.Sought.{IsNear};

use crate::answers::{answer_loss, answer_pairs, doubled_pair, offer_loss};
use cube_actions::{Answer, Offer, Stakes};
use directed_fixed::{Fixed, Pair};
use hyper_outside::LookStop;
use move_rules::PlayList;
use position_rank::Position;
use turn_rule::{Pairs, RollEnds};

/// What a double would lead to, and what is advised. Each pair is what the side to move gets, in
/// units of the cube before the double, or in match equity.
#[derive(Clone, Copy)]
pub struct CubeAction {
    /// What rolling is worth after a take.
    pub take: Pair,
    /// What rolling is worth after a beaver, where there is one.
    pub beaver: Option<Pair>,
    /// What a pass gives.
    pub pass: Pair,
    /// `Double` exactly where the lower end of doubling is above that of not doubling.
    pub offer: Offer,
    /// What the advised offer loses at most.
    pub offer_bound: Fixed,
    /// The first of take, beaver and pass among those with the smallest upper end.
    pub answer: Answer,
    /// What the advised answer loses at most, for the side that was doubled.
    pub answer_bound: Fixed,
}

/// What is told to a player before he rolls.
#[derive(Clone, Copy)]
pub struct CubeAdvice {
    /// What rolling is worth.
    pub no_double: Pair,
    /// `None` exactly where he may not double.
    pub action: Option<CubeAction>,
}

fn best_offer(rolling: Pair, doubling: Pair) -> Offer
    ensures { IsBestOffer rolling doubling result }
{
    if rolling.lower().units() < doubling.lower().units() {
        Offer::Double
    } else {
        Offer::NoDouble
    }
}

/// The first of take, beaver and pass that leaves the doubler at most the least.
fn best_answer(pass: Pair, taken: &[Pair]) -> Answer
    requires some { 1 ≤ length taken.now }
    requires few { length taken.now ≤ 2 }
    ensures { IsBestAnswer pass taken.now result }
{
    let passed = pass.upper().units();
    let took = taken[0].upper().units();
    if taken.len() == 1 {
        return if took <= passed {
            Answer::Take
        } else {
            Answer::Pass
        };
    }
    let beavered = taken[1].upper().units();
    if took <= beavered && took <= passed {
        Answer::Take
    } else if beavered <= passed {
        Answer::Beaver
    } else {
        Answer::Pass
    }
}

/// What rolling is worth after the second answer, where there is one.
fn beaver_of(taken: &[Pair]) -> Option<Pair>
    requires some { 1 ≤ length taken.now }
    requires few { length taken.now ≤ 2 }
    ensures { option_to_list result ≡ drop 1 taken.now }
{
    if taken.len() == 2 {
        Some(taken[1])
    } else {
        None
    }
}

/// What is advised where rolling, a pass and the answers that play on give these.
fn action_of(rolling: Pair, pass: Pair, taken: &[Pair]) -> CubeAction
    requires rolling { IsNear rolling }
    requires pass { IsNear pass }
    requires taken { All IsNear taken.now }
    requires some { 1 ≤ length taken.now }
    requires few { length taken.now ≤ 2 }
    ensures pass { result.pass ≡ pass }
    ensures taken { taken_of result ≡ taken.now }
    ensures action { IsAction rolling result }
{
    let doubling = doubled_pair(pass, taken);
    let offer = best_offer(rolling, doubling);
    let answer = best_answer(pass, taken);
    CubeAction {
        take: taken[0],
        beaver: beaver_of(taken),
        pass,
        offer,
        offer_bound: offer_loss(rolling, doubling, offer).upper(),
        answer,
        answer_bound: answer_loss(pass, taken, answer).upper(),
    }
}

/// As `cube_advice`, of a position whose plays are at hand.
pub fn cube_advice_of<P: Pairs>(
    stakes: &Stakes,
    ends: &RollEnds,
    kind: usize,
    pairs: &mut P,
) -> Result<CubeAdvice, LookStop>
    requires stakes { AreStakesOf (P.seen pairs.old).source stakes.now }
    requires state { IsSourceState (P.seen pairs.old).source ends.now kind }
    ensures looked { LooksUp (P.seen pairs.old) (P.seen pairs.new)
        (MeetsOnTurn stakes.now ends.now kind (P.seen pairs.old).source)
        (IsCubeAdvice stakes.now ends.now kind
        (P.seen pairs.old).source (P.seen pairs.new).notes) result }
    ensures source { (P.seen pairs.new).source ≡ (P.seen pairs.old).source }
    ensures stays { P.stays pairs.new ≡ P.stays pairs.old }
{
    let no_double = ends.roll_bounds(stakes, kind, 1, pairs)?;
    match &stakes.kind(kind).double {
        None => Ok(CubeAdvice {
            no_double,
            action: None,
        }),
        Some(double) => {
            let taken = answer_pairs(ends, stakes, double, pairs)?;
            let action = action_of(no_double, double.pass, taken.as_slice());
            Ok(CubeAdvice {
                no_double,
                action: Some(action),
            })
        }
    }
}

/// What rolling, doubling and each answer give, and the offer and the answer that are advised, each
/// with what it can lose at most.
///
/// It stops where a look-up does: `ReadFault` where a call of the outside failed, `BadPage` where
/// the words of a state that may follow can't be had, `NoMemory` where there was no memory. Over
/// pairs that are sure it answers.
pub fn cube_advice<P: Pairs>(
    stakes: &Stakes,
    position: &Position,
    kind: usize,
    pairs: &mut P,
) -> Result<CubeAdvice, LookStop>
    requires stakes { AreStakesOf (P.seen pairs.old).source stakes.now }
    requires state { IsSourceState (P.seen pairs.old).source position.now kind }
    ensures looked { LooksUp (P.seen pairs.old) (P.seen pairs.new)
        (MeetsOnTurn stakes.now position.now kind (P.seen pairs.old).source)
        (IsCubeAdvice stakes.now position.now kind
        (P.seen pairs.old).source (P.seen pairs.new).notes) result }
    ensures source { (P.seen pairs.new).source ≡ (P.seen pairs.old).source }
    ensures stays { P.stays pairs.new ≡ P.stays pairs.old }
{
    let mut list = PlayList::new();
    let ends = RollEnds::of(position, &mut list);
    cube_advice_of(stakes, &ends, kind, pairs)
}
