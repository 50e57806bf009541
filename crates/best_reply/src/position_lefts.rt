ghost use Rattle.std.specs.Prelude.{◌≡◌, ◌+◌, ◌*◌, All, IfOk, OnOk, length, map, sum};
ghost use Rattle.position_rank.specs.Placement.{IsPosition, IsLive};
ghost use Rattle.turn_rule.specs.Games.{kinds_of};
ghost use Rattle.turn_rule.specs.States.{IsState};
ghost use Rattle.interval_words.specs.Numbers.{state_of};
ghost use Rattle.best_reply.specs.Tables.{weighted_kept};
ghost use Rattle.best_reply.specs.Outcomes.{AreAdvised};

use crate::outcome::Outcome;
use crate::roll_lefts::RollLefts;
use hyper_outside::NoMemory;
use interval_words::{LiveIndex, Words};
use move_rules::PlayList;
use position_rank::Position;
use roll_table::rolls;
use std::alloc::{AllocError, Global};
use std::marker::Model;

/// Puts what the plays of another position leave in place of what stands there, for each roll.
fn fill_all(position: &Position, index: &LiveIndex, list: &mut PlayList, kept: &mut [RollLefts])
    requires valid { IsPosition position.now }
    requires live { IsLive position.now }
    requires checkers { sum position.now.mover ≡ index.now }
    ensures rolls { map weighted_kept kept.new ≡ map weighted_kept kept.old }
    ensures position { All (λ one. one.position ≡ position.now) kept.new }
{
    for one in kept.iter_mut() {
        one.fill(position, index, list);
    }
}

/// What the plays of every roll of a position leave. It is filled for one position after another,
/// and takes no memory then.
#[derive(Drop)]
pub(crate) struct PositionLefts {
    position: Position,
    kept: Vec<RollLefts>,
}

impl Model for PositionLefts {
    ghost use Rattle.position_rank.specs.Placement.{Placement};
    ghost use Rattle.best_reply.specs.Tables.{AreRollsKept};

    ghost Value = { Placement };

    ghost view = { λ a. a.position };

    ghost invariant = { λ a. AreRollsKept a.position a.kept.items };
}

impl PositionLefts {
    /// That of a live position. It asks for memory.
    pub(crate) fn of(
        alloc: Global,
        position: &Position,
        index: &LiveIndex,
    ) -> Result<PositionLefts, NoMemory>
        requires valid { IsPosition position.now }
        requires live { IsLive position.now }
        requires checkers { sum position.now.mover ≡ index.now }
        ensures { IfOk result (λ lefts. lefts ≡ position.now) }
    {
        let mut list = PlayList::new();
        let mut kept = Vec::new(alloc);
        for (roll, times) in &rolls() {
            kept.push(RollLefts::of(position, *roll, *times, index, &mut list))?;
        }
        Ok(PositionLefts {
            position: *position,
            kept,
        })
    }

    /// Puts that of another position in its place.
    pub(crate) fn fill(&mut self, position: &Position, index: &LiveIndex, list: &mut PlayList)
        requires valid { IsPosition position.now }
        requires live { IsLive position.now }
        requires checkers { sum position.now.mover ≡ index.now }
        ensures { self.new ≡ position.now }
    {
        self.position = *position;
        fill_all(position, index, list, self.kept.as_mut_slice());
    }

    /// Puts the outcomes of the advised plays of a kind behind those of the states before, a roll
    /// after the other.
    pub(crate) fn push_advised(
        &self,
        number: usize,
        words: &Words,
        outcomes: &mut Vec<Outcome>,
    ) -> Result<(), AllocError>
        requires state { IsState words.now.game self.now number }
        requires advised { AreAdvised words.now outcomes.old.items }
        requires many { length outcomes.old.items
            ≡ state_of (kinds_of words.now.game) self.now number * 21 }
        ensures advised { OnOk result (AreAdvised words.now outcomes.new.items) }
        ensures many { OnOk result (length outcomes.new.items
            ≡ (state_of (kinds_of words.now.game) self.now number + 1) * 21) }
    {
        for one in self.kept.as_slice() {
            outcomes.push(Outcome::of(&one.advised(number, words)))?;
        }
        Ok(())
    }
}
