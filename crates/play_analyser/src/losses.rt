ghost use Rattle.std.specs.Prelude.{◌≡◌, ◌≤◌, pos, ◌≤ℤ◌, Any, IfOk, length};
ghost use Rattle.roll_table.specs.Rolls.{IsRoll};
ghost use Rattle.move_rules.specs.Sequences.{IsLegalEnd};
ghost use Rattle.move_rules.specs.declared.play.TheConstants.{MOST_PLAYS};
ghost use Rattle.cube_actions.specs.Stakes.{IsValid};
ghost use Rattle.turn_rule.specs.Looks.{AreStakesOf, IsSourceState, LooksUp, MeetsOnRoll, MeetsOnTurn};
ghost use Rattle.turn_rule.specs.declared.choice.Choice.TheVariants.{Played, Offered, Answered};
ghost use Rattle.play_analyser.specs.Bests.{CanBeMade, IsWeighed};
ghost use Rattle.play_analyser.specs.Choices.{IsChoice};
ghost use Rattle.play_analyser.specs.Rankings.{other_pairs};
ghost use Rattle.play_analyser.specs.Sought.{MeetsOnChoice};

use crate::advice::{CubeAdvice, cube_advice};
use crate::among::loss_among;
use crate::answers::{answer_loss, offer_loss};
use crate::best::{Best, best_answer, best_offer, doubling_of, first_row, taken_of};
use crate::play_pairs::same;
use crate::ranking::{PlayRow, rank_plays};
use arrayvec::ArrayVec;
use cube_actions::{Answer, Offer, Stakes};
use directed_fixed::Pair;
use hyper_outside::LookStop;
use move_rules::MOST_PLAYS;
use position_rank::Position;
use roll_table::Roll;
use turn_rule::{Choice, Pairs};

/// What a choice loses, and what was best.
#[derive(Clone, Copy)]
pub struct Weighed {
    pub loss: Pair,
    pub best: Best,
}

/// The pair of the play that leaves this.
fn pair_of_end(rows: &[PlayRow], end: &Position) -> Pair
    requires { Any (λ row. row.entry.end ≡ end.now) rows.now }
    ensures { Any (λ row. (row.entry.end ≡ end.now) × (row.pair ≡ result)) rows.now }
{
    for row in rows {
        if same(&row.entry.end, end) {
            return row.pair;
        }
    }
    unreachable!()
}

/// The pairs of the plays that leave another position.
fn other_pairs(rows: &[PlayRow], end: &Position) -> ArrayVec<Pair, MOST_PLAYS>
    requires { length rows.now ≤ MOST_PLAYS }
    ensures { result.items ≡ other_pairs end.now rows.now }
{
    let mut others = ArrayVec::new();
    for row in rows {
        if !same(&row.entry.end, end) {
            others.push(row.pair);
        }
    }
    others
}

/// What a play of a roll loses, and the first play of its ranking.
fn weigh_play<P: Pairs>(
    stakes: &Stakes,
    position: &Position,
    kind: usize,
    roll: Roll,
    end: &Position,
    pairs: &mut P,
) -> Result<Weighed, LookStop>
    requires stakes { AreStakesOf (P.seen pairs.old).source stakes.now }
    requires valid { IsValid stakes.now }
    requires state { IsSourceState (P.seen pairs.old).source position.now kind }
    requires roll { IsRoll roll }
    requires legal { IsLegalEnd position.now roll end.now }
    ensures looked { LooksUp (P.seen pairs.old) (P.seen pairs.new)
        (MeetsOnRoll stakes.now position.now kind roll (P.seen pairs.old).source)
        (IsWeighed stakes.now position.now kind (Played roll end.now)
        (P.seen pairs.old).source (P.seen pairs.new).notes) result }
    ensures from { IfOk result (λ weighed. pos 0 ≤ℤ weighed.loss.lower) }
    ensures made { IfOk result (λ weighed. CanBeMade position.now weighed.best.advised) }
    ensures source { (P.seen pairs.new).source ≡ (P.seen pairs.old).source }
    ensures stays { P.stays pairs.new ≡ P.stays pairs.old }
{
    let ranking = rank_plays(stakes, position, kind, roll, pairs)?;
    let rows = ranking.rows.as_slice();
    let chosen = pair_of_end(rows, end);
    let others = other_pairs(rows, end);
    Ok(Weighed {
        loss: loss_among(chosen, others.as_slice()),
        best: first_row(rows),
    })
}

/// What an offer loses, and the one that is advised.
fn weigh_offer<P: Pairs>(
    stakes: &Stakes,
    position: &Position,
    kind: usize,
    offer: Offer,
    pairs: &mut P,
) -> Result<Weighed, LookStop>
    requires stakes { AreStakesOf (P.seen pairs.old).source stakes.now }
    requires valid { IsValid stakes.now }
    requires state { IsSourceState (P.seen pairs.old).source position.now kind }
    requires choice { IsChoice stakes.now position.now kind (Offered offer) }
    ensures looked { LooksUp (P.seen pairs.old) (P.seen pairs.new)
        (MeetsOnTurn stakes.now position.now kind (P.seen pairs.old).source)
        (IsWeighed stakes.now position.now kind (Offered offer)
        (P.seen pairs.old).source (P.seen pairs.new).notes) result }
    ensures from { IfOk result (λ weighed. pos 0 ≤ℤ weighed.loss.lower) }
    ensures made { IfOk result (λ weighed. CanBeMade position.now weighed.best.advised) }
    ensures source { (P.seen pairs.new).source ≡ (P.seen pairs.old).source }
    ensures stays { P.stays pairs.new ≡ P.stays pairs.old }
{
    let CubeAdvice { no_double, action } = cube_advice(stakes, position, kind, pairs)?;
    match action {
        Some(action) => Ok(Weighed {
            loss: offer_loss(no_double, doubling_of(&action), offer),
            best: best_offer(no_double, &action),
        }),
        // He may double.
        None => unreachable!(),
    }
}

/// What an answer loses, and the one that is advised.
fn weigh_answer<P: Pairs>(
    stakes: &Stakes,
    position: &Position,
    kind: usize,
    answer: Answer,
    pairs: &mut P,
) -> Result<Weighed, LookStop>
    requires stakes { AreStakesOf (P.seen pairs.old).source stakes.now }
    requires valid { IsValid stakes.now }
    requires state { IsSourceState (P.seen pairs.old).source position.now kind }
    requires choice { IsChoice stakes.now position.now kind (Answered answer) }
    ensures looked { LooksUp (P.seen pairs.old) (P.seen pairs.new)
        (MeetsOnTurn stakes.now position.now kind (P.seen pairs.old).source)
        (IsWeighed stakes.now position.now kind (Answered answer)
        (P.seen pairs.old).source (P.seen pairs.new).notes) result }
    ensures from { IfOk result (λ weighed. pos 0 ≤ℤ weighed.loss.lower) }
    ensures made { IfOk result (λ weighed. CanBeMade position.now weighed.best.advised) }
    ensures source { (P.seen pairs.new).source ≡ (P.seen pairs.old).source }
    ensures stays { P.stays pairs.new ≡ P.stays pairs.old }
{
    let CubeAdvice { action, .. } = cube_advice(stakes, position, kind, pairs)?;
    match action {
        Some(action) => Ok(Weighed {
            loss: answer_loss(action.pass, taken_of(&action).as_slice(), answer),
            best: best_answer(&action),
        }),
        // He was doubled.
        None => unreachable!(),
    }
}

/// What a choice loses, and what was best.
///
/// It loses at most how much the best of what else could be chosen is worth more: its lower end is
/// the greatest lower end of the others above the upper end of the choice, and its upper end the
/// greatest upper end of the others above the lower end of the choice, each at least 0. What an
/// answer loses is counted for the side that was doubled. It is in units of the cube before the
/// decision, or in match equity. What was best is the first play of `rank_plays`, or what
/// `cube_advice` advises, by the same look-ups.
///
/// It stops where a look-up does: `ReadFault` where a call of the outside failed, `BadPage` where
/// the words of a state that may follow can't be had, `NoMemory` where there was no memory. Over
/// pairs that are sure it answers.
pub fn weigh<P: Pairs>(
    stakes: &Stakes,
    position: &Position,
    kind: usize,
    choice: &Choice,
    pairs: &mut P,
) -> Result<Weighed, LookStop>
    requires stakes { AreStakesOf (P.seen pairs.old).source stakes.now }
    requires state { IsSourceState (P.seen pairs.old).source position.now kind }
    requires choice { IsChoice stakes.now position.now kind choice.now }
    ensures looked { LooksUp (P.seen pairs.old) (P.seen pairs.new)
        (MeetsOnChoice stakes.now position.now kind choice.now (P.seen pairs.old).source)
        (IsWeighed stakes.now position.now kind choice.now
        (P.seen pairs.old).source (P.seen pairs.new).notes) result }
    ensures from { IfOk result (λ weighed. pos 0 ≤ℤ weighed.loss.lower) }
    ensures made { IfOk result (λ weighed. CanBeMade position.now weighed.best.advised) }
    ensures source { (P.seen pairs.new).source ≡ (P.seen pairs.old).source }
    ensures stays { P.stays pairs.new ≡ P.stays pairs.old }
{
    // The stakes are valid.
    let _ = stakes.bound();
    match choice {
        Choice::Played { roll, end } => weigh_play(stakes, position, kind, *roll, end, pairs),
        Choice::Offered(offer) => weigh_offer(stakes, position, kind, *offer, pairs),
        Choice::Answered(answer) => weigh_answer(stakes, position, kind, *answer, pairs),
    }
}
