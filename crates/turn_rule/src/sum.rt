ghost use Rattle.std.specs.Prelude.{◌≡◌, ◌<◌, ◌≤◌, ◌^◌, ◌*◌, ℕ, ℤ, pos, ◌+ℤ◌, ◌*ℤ◌, ◌≤ℤ◌, length};
ghost use Rattle.directed_fixed.specs.Bounds.{IsWithinUnits};
ghost use Rattle.roll_table.specs.Rolls.{all_rolls};
ghost use Rattle.cube_actions.specs.Stakes.{IsValid};
ghost use Rattle.turn_rule.specs.Looks.{AreStakesOf, IsSourceState};
ghost use Rattle.turn_rule.specs.Found.{Finds, of_sum};
ghost use Rattle.turn_rule.specs.Rolled.{AreRolled};

use crate::ends::OneRoll;
use crate::pairs::Pairs;
use crate::worth::best_at;
use cube_actions::Stakes;
use directed_fixed::{End, Fixed};
use hyper_outside::LookStop;
use position_rank::Position;

/// One more value, so many times.
#[inline]
fn add_times(sum: Fixed, times: u64, value: Fixed) -> Fixed
    requires sum { IsWithinUnits (pos (2 ^ 42)) sum }
    requires times { times ≤ 2 }
    requires value { IsWithinUnits (pos (2 ^ 36)) value }
    ensures { result ≡ (sum +ℤ pos times *ℤ value) }
{
    sum.add(value.times(times as u32))
}

/// The sum over the 36 ways of two dice of what the best play is worth in a kind, at one end.
pub(crate) fn sum_at<P: Pairs>(
    end: End,
    position: &Position,
    kept: &[OneRoll],
    stakes: &Stakes,
    number: usize,
    pairs: &mut P,
) -> Result<Fixed, LookStop>
    requires kept { AreRolled position.now kept.now }
    requires stakes { AreStakesOf (P.seen pairs.old).source stakes.now }
    requires state { IsSourceState (P.seen pairs.old).source position.now number }
    ensures found { Finds end (of_sum stakes.now position.now number)
        (P.seen pairs.old) (P.seen pairs.new) result }
    ensures source { (P.seen pairs.new).source ≡ (P.seen pairs.old).source }
    ensures stays { P.stays pairs.new ≡ P.stays pairs.old }
    ensures small { (P.seen pairs.old).source.bound ≤ℤ pos (2 ^ 36) }
    ensures valid { IsValid stakes.now }
{
    // What `bound` ensures says that the stakes are valid.
    let _bound = stakes.bound();
    let kind = stakes.kind(number);
    let mut sum = Fixed::whole(0);
    for one in kept {
        let best = best_at(end, one.ends.as_slice(), kind, pairs)?;
        sum = add_times(sum, one.times, best);
    }
    Ok(sum)
}
