ghost use Rattle.std.specs.Prelude.{◌≡◌, ◌<◌, ◌≤◌, ◌^◌, ◌↔◌, ℕ, ℤ, pos, ◌*ℤ◌, ◌≤ℤ◌, [], length, map, All, Contains};
ghost use Rattle.position_rank.specs.Placement.{Placement};
ghost use Rattle.roll_table.specs.Rolls.{all_rolls};
ghost use Rattle.move_rules.specs.Sequences.{IsLegalEnd};
ghost use Rattle.cube_actions.specs.Stakes.{IsValid};
ghost use Rattle.turn_rule.specs.Looks.{AreStakesOf, IsSourceState};
ghost use Rattle.turn_rule.specs.Found.{Finds, of_sum};
ghost use Rattle.turn_rule.specs.Rolled.{HasEnds, AreRolled, weighted};

use crate::pairs::Pairs;
use crate::play_end::PlayEnd;
use crate::sum::sum_at;
use arrayvec::ArrayVec;
use cube_actions::Stakes;
use directed_fixed::{End, Fixed};
use hyper_outside::LookStop;
use move_rules::{MOST_PLAYS, PlayList, plays};
use position_rank::Position;
use roll_table::{Roll, rolls};
use std::marker::Model;

/// A roll, in how many ways it comes, and the ends of its legal plays.
#[derive(Drop)]
pub(crate) struct OneRoll {
    roll: Roll,
    pub(crate) times: u64,
    pub(crate) ends: ArrayVec<PlayEnd, MOST_PLAYS>,
}

impl Default for OneRoll {
    ghost is_default = { λ one. one.ends.items ≡ [] };

    /// A roll with no ends yet.
    fn default() -> Self {
        let (roll, times) = rolls()[0];
        OneRoll {
            roll,
            times,
            ends: ArrayVec::new(),
        }
    }
}

impl OneRoll {
    /// Puts the ends of a position's legal plays of the roll in place of those that stand there.
    fn fill(&mut self, position: &Position, list: &mut PlayList)
        ensures weighted { weighted self.new ≡ weighted self.old }
        ensures ends { HasEnds position.now self.new }
    {
        plays(position, self.roll, list);
        self.ends.clear();
        for entry in list.as_slice() {
            self.ends.push(PlayEnd::of(&entry.end));
        }
    }
}

/// Puts the ends of a position's legal plays in place of those that stand there.
fn fill_all(position: &Position, kept: &mut [OneRoll], list: &mut PlayList)
    ensures rolls { map weighted kept.new ≡ map weighted kept.old }
    ensures ends { All (HasEnds position.now) kept.new }
{
    for one in kept.iter_mut() {
        one.fill(position, list);
    }
}

/// The ends of the legal plays of every roll of a position. They are worked out once, and serve
/// every kind. It can be filled again for another position, and takes no memory.
#[derive(Drop)]
pub struct RollEnds {
    position: Position,
    kept: ArrayVec<OneRoll, 21>,
}

impl Model for RollEnds {
    ghost use Rattle.position_rank.specs.Placement.{Placement};
    ghost use Rattle.turn_rule.specs.Rolled.{AreRolled};

    ghost Value = { Placement };

    ghost view = { λ a. a.position };

    ghost invariant = { λ a. AreRolled a.position a.kept.items };
}

impl RollEnds {
    /// Those of a position.
    pub fn of(position: &Position, list: &mut PlayList) -> RollEnds
        ensures { result ≡ position.now }
    {
        let mut kept = ArrayVec::new();
        for (roll, times) in &rolls() {
            let mut one = OneRoll {
                roll: *roll,
                times: *times,
                ends: ArrayVec::new(),
            };
            one.fill(position, list);
            kept.push(one);
        }
        RollEnds {
            position: *position,
            kept,
        }
    }

    /// Puts those of another position in their place.
    pub fn fill(&mut self, position: &Position, list: &mut PlayList)
        ensures { self.new ≡ position.now }
    {
        self.position = *position;
        fill_all(position, self.kept.as_mut_slice(), list);
    }

    /// The sum over the 36 ways of two dice of what the best play is worth in a kind, at one end.
    pub(crate) fn sum_at<P: Pairs>(
        &self,
        end: End,
        stakes: &Stakes,
        number: usize,
        pairs: &mut P,
    ) -> Result<Fixed, LookStop>
        requires stakes { AreStakesOf (P.seen pairs.old).source stakes.now }
        requires state { IsSourceState (P.seen pairs.old).source self.now number }
        ensures found { Finds end (of_sum stakes.now self.now number)
            (P.seen pairs.old) (P.seen pairs.new) result }
        ensures source { (P.seen pairs.new).source ≡ (P.seen pairs.old).source }
        ensures stays { P.stays pairs.new ≡ P.stays pairs.old }
        ensures small { (P.seen pairs.old).source.bound ≤ℤ pos (2 ^ 36) }
        ensures valid { IsValid stakes.now }
    {
        sum_at(
            end,
            &self.position,
            self.kept.as_slice(),
            stakes,
            number,
            pairs,
        )
    }

    /// The position.
    pub fn position(&self) -> &Position
        ensures { result.now ≡ self.now }
    {
        &self.position
    }
}
