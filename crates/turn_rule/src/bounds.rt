ghost use Rattle.std.specs.Prelude.{◌≡◌, ◌⊎◌, ℕ, ℤ, pos};
ghost use Rattle.std.specs.Int.{int_max, int_min};
ghost use Rattle.turn_rule.specs.Looks.{AreStakesOf, IsSourceState, FindsPair, of_roll, of_turn};

use crate::ends::RollEnds;
use crate::pairs::Pairs;
use crate::value::{roll_at, turn_at};
use cube_actions::Stakes;
use directed_fixed::{End, Fixed, Pair};
use hyper_outside::LookStop;
use move_rules::PlayList;
use position_rank::Position;

/// The pair of two ends. Where they are crossed, as only ends of untold words can be, they are
/// exchanged.
#[inline]
pub(crate) fn pair_of(lower: Fixed, upper: Fixed) -> Pair
    ensures lower { result.lower ≡ int_min lower upper }
    ensures upper { result.upper ≡ int_max lower upper }
{
    Pair::new(lower.min(upper), lower.max(upper))
}

impl RollEnds {
    /// What rolling in a kind is worth that counts once, twice or four times: the mean over the 36
    /// ways of two dice of the best play's value, times the factor, rounded outwards at each end.
    ///
    /// It stops where a look-up does: `ReadFault` where a call of the outside failed, `BadPage`
    /// where the words of a state that may follow can't be had, `NoMemory` where there was no
    /// memory. Over pairs that are sure it answers.
    pub fn roll_bounds<P: Pairs>(
        &self,
        stakes: &Stakes,
        kind: usize,
        factor: u8,
        pairs: &mut P,
    ) -> Result<Pair, LookStop>
        requires stakes { AreStakesOf (P.seen pairs.old).source stakes.now }
        requires state { IsSourceState (P.seen pairs.old).source self.now kind }
        requires factor { (factor ≡ 1) ⊎ (factor ≡ 2) ⊎ (factor ≡ 4) }
        ensures looked { FindsPair (of_roll stakes.now self.now kind factor)
            (P.seen pairs.old) (P.seen pairs.new) result }
        ensures source { (P.seen pairs.new).source ≡ (P.seen pairs.old).source }
        ensures stays { P.stays pairs.new ≡ P.stays pairs.old }
    {
        let lower = roll_at(End::Lower, self, stakes, kind, factor, pairs)?;
        let upper = roll_at(End::Upper, self, stakes, kind, factor, pairs)?;
        Ok(pair_of(lower, upper))
    }

    /// What a state of this position is worth before its turn: without a right to double, what
    /// rolling is worth. With one, the greater at each end of that and of the double, whose
    /// answerer picks the smallest of the pass and of what rolling is worth after each other
    /// answer.
    ///
    /// It stops where a look-up does, as `roll_bounds`.
    pub fn turn_bounds<P: Pairs>(
        &self,
        stakes: &Stakes,
        kind: usize,
        pairs: &mut P,
    ) -> Result<Pair, LookStop>
        requires stakes { AreStakesOf (P.seen pairs.old).source stakes.now }
        requires state { IsSourceState (P.seen pairs.old).source self.now kind }
        ensures looked { FindsPair (of_turn stakes.now self.now kind)
            (P.seen pairs.old) (P.seen pairs.new) result }
        ensures source { (P.seen pairs.new).source ≡ (P.seen pairs.old).source }
        ensures stays { P.stays pairs.new ≡ P.stays pairs.old }
    {
        let lower = turn_at(End::Lower, self, stakes, kind, pairs)?;
        let upper = turn_at(End::Upper, self, stakes, kind, pairs)?;
        Ok(pair_of(lower, upper))
    }
}

/// `RollEnds::roll_bounds` of a position whose ends are worked out for it alone.
pub fn roll_bounds<P: Pairs>(
    stakes: &Stakes,
    position: &Position,
    kind: usize,
    factor: u8,
    pairs: &mut P,
    list: &mut PlayList,
) -> Result<Pair, LookStop>
    requires stakes { AreStakesOf (P.seen pairs.old).source stakes.now }
    requires state { IsSourceState (P.seen pairs.old).source position.now kind }
    requires factor { (factor ≡ 1) ⊎ (factor ≡ 2) ⊎ (factor ≡ 4) }
    ensures looked { FindsPair (of_roll stakes.now position.now kind factor)
        (P.seen pairs.old) (P.seen pairs.new) result }
    ensures source { (P.seen pairs.new).source ≡ (P.seen pairs.old).source }
    ensures stays { P.stays pairs.new ≡ P.stays pairs.old }
{
    RollEnds::of(position, list).roll_bounds(stakes, kind, factor, pairs)
}

/// `RollEnds::turn_bounds` of a position whose ends are worked out for it alone.
pub fn turn_bounds<P: Pairs>(
    stakes: &Stakes,
    position: &Position,
    kind: usize,
    pairs: &mut P,
    list: &mut PlayList,
) -> Result<Pair, LookStop>
    requires stakes { AreStakesOf (P.seen pairs.old).source stakes.now }
    requires state { IsSourceState (P.seen pairs.old).source position.now kind }
    ensures looked { FindsPair (of_turn stakes.now position.now kind)
        (P.seen pairs.old) (P.seen pairs.new) result }
    ensures source { (P.seen pairs.new).source ≡ (P.seen pairs.old).source }
    ensures stays { P.stays pairs.new ≡ P.stays pairs.old }
{
    RollEnds::of(position, list).turn_bounds(stakes, kind, pairs)
}
