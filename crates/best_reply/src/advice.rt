ghost use Rattle.std.specs.Prelude.{◌≡◌, ◌<◌, ◌≤◌, ◌+◌, ◌*◌, ◌^◌, ℕ, pos, ◌+ℤ◌, ◌*ℤ◌, IfOk, None, OnOk, length};
ghost use Rattle.position_rank.specs.Placement.{Placement};
ghost use Rattle.position_rank.specs.LiveRanks.{live_positions, live_rank_of};
ghost use Rattle.roll_table.specs.Rolls.{all_rolls};
ghost use Rattle.directed_fixed.specs.Bounds.{IsWithin};
ghost use Rattle.turn_rule.specs.Games.{IsGame, kinds_of};
ghost use Rattle.turn_rule.specs.States.{IsState};
ghost use Rattle.play_analyser.specs.Regrets.{play_pair};
ghost use Rattle.best_reply.specs.Tables.{IsRightBank, IsSmallSum, follow_sum, policy_of, words_by};
ghost use Rattle.best_reply.specs.Outcomes.{IsAdvisedTo, IsOutcomeOf, rank_in, won_in};

use crate::bank::Bank;
use crate::outcome::Outcome;
use crate::position_lefts::PositionLefts;
use cube_actions::Kind;
use directed_fixed::{Fixed, Pair};
use hyper_outside::NoMemory;
use interval_words::Words;
use move_rules::PlayList;
use roll_table::Roll;
use std::alloc::{AllocError, Global};
use std::marker::Model;
use turn_rule::win_of;

/// How many rolls there are, each of which has an outcome in each state.
const ROLLS: usize = 21;

/// What the mover has after a play, by these pairs: his win, or what the other side hasn't.
#[inline]
fn pair_after(outcome: Outcome, kind: &Kind, bank: &Bank) -> Pair
    requires { won_in outcome ≡ None
        → rank_in outcome * bank.now.kinds + kind.now.next < length bank.now.pairs }
    ensures { (end : Placement) → IsOutcomeOf end outcome
        → result ≡ play_pair kind.now (words_by bank.now) end }
{
    match outcome.won() {
        Some(won) => win_of(kind, won),
        None => bank.pair(outcome.rank(), kind.next).neg(),
    }
}

/// One more pair, so many times.
#[inline]
fn add_times(sum: Pair, times: u64, pair: Pair) -> Pair
    requires sum { IsSmallSum sum }
    requires times { times ≤ 2 }
    requires pair { IsWithin (pos (2 ^ 36)) pair }
    ensures lower { result.lower ≡ (sum.lower +ℤ pos times *ℤ pair.lower) }
    ensures upper { result.upper ≡ (sum.upper +ℤ pos times *ℤ pair.upper) }
{
    let times = times as u32;
    Pair::new(
        sum.lower().add(pair.lower().times(times)),
        sum.upper().add(pair.upper().times(times)),
    )
}

/// Puts the outcomes of the position with this live rank behind those of the positions before it.
fn advise_position(
    rank: u64,
    words: &Words,
    lefts: &mut PositionLefts,
    list: &mut PlayList,
    outcomes: &mut Vec<Outcome>,
) -> Result<(), AllocError>
    requires rank { rank < live_positions words.now.game.checkers }
    requires so_far { IsAdvisedTo words.now rank outcomes.old.items }
    ensures { OnOk result (IsAdvisedTo words.now (rank + 1) outcomes.new.items) }
{
    let position = words.index().unrank(rank);
    lefts.fill(&position, words.index(), list);
    for number in 0..words.stakes().kinds() {
        lefts.push_advised(number, words, outcomes)?;
    }
    Ok(())
}

/// What the plays leave that some words advise, for each state and roll, by rising live rank, then
/// kind, and then in the order of the table of rolls.
#[derive(Drop)]
pub(crate) struct Advice {
    outcomes: Vec<Outcome>,
}

impl Model for Advice {
    ghost use Rattle.std.specs.Prelude.{List};
    ghost use Rattle.best_reply.specs.declared.outcome.Outcome.{Outcome};

    ghost Value = { List Outcome };

    ghost view = { λ a. a.outcomes.items };
}

impl Advice {
    /// The advice of some words. It asks for memory: 84 bytes for each state.
    pub(crate) fn of(alloc: Global, words: &Words) -> Result<Advice, NoMemory>
        ensures { IfOk result (IsAdvisedTo words.now (live_positions words.now.game.checkers)) }
    {
        // Some state tells that there is a position.
        let states = words.states();
        let first = words.index().unrank(0);
        let mut list = PlayList::new();
        let mut lefts = PositionLefts::of(alloc, &first, words.index())?;
        let mut outcomes = Vec::with_capacity(alloc, states * ROLLS)?;
        for rank in 0..words.index().count() {
            advise_position(rank, words, &mut lefts, &mut list, &mut outcomes)?;
        }
        Ok(Advice { outcomes })
    }

    /// The sum over the 36 ways of two dice of what the advised plays leave in a kind, by these
    /// pairs, from the position with this live rank.
    pub(crate) fn follow_sum(
        &self,
        rank: u64,
        number: usize,
        rolls: &[(Roll, u64)],
        words: &Words,
        bank: &Bank,
    ) -> Pair
        requires game { IsGame words.now.game }
        requires rank { rank < live_positions words.now.game.checkers }
        requires number { number < kinds_of words.now.game }
        requires rolls { rolls.now ≡ all_rolls }
        requires advice { IsAdvisedTo words.now (live_positions words.now.game.checkers) self.now }
        requires bank { IsRightBank words.now.game bank.now }
        ensures sum { (p : Placement) → IsState words.now.game p number → live_rank_of p ≡ rank
            → result ≡ follow_sum (policy_of words.now) words.now.game.stakes
            (words_by bank.now) p number }
        ensures small { IsSmallSum result }
    {
        let kind = words.stakes().kind(number);
        let first = (rank as usize * words.stakes().kinds() + number) * ROLLS;
        let mut sum = Pair::exactly(Fixed::whole(0));
        for i in 0..rolls.len() {
            let roll = rolls[i];
            let pair = pair_after(self.outcomes[first + i], kind, bank);
            sum = add_times(sum, roll.1, pair);
        }
        sum
    }
}
