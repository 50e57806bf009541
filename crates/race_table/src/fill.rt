ghost use Rattle.std.specs.Prelude.{◌≡◌, IfOk, ◌≤◌, ◌<◌, ◌^◌, ℕ, ℤ, pos, ◌+ℤ◌, ◌*ℤ◌, ◌≤ℤ◌, All, List, length, map, sum};
ghost use Rattle.position_rank.specs.Placement.{IsPosition};
ghost use Rattle.directed_fixed.specs.Bounds.{IsWithinUnits};
ghost use Rattle.directed_fixed.specs.Rounding.{floor_36, ceil_36};
ghost use Rattle.cube_actions.specs.Money.{alone};
ghost use Rattle.race_table.specs.FreePlays.{AreFreeRolls, AreFreeSides, against};
ghost use Rattle.race_table.specs.Orders.{AreRacesByPips};
ghost use Rattle.race_table.specs.Races.{IsRaceOf};
ghost use Rattle.race_table.specs.Tables.{HoldsRaces, IsRaceTable, race_after_play, best_race, better, turn_of};

use crate::free_plays::{FreeRoll, FreeSide};
use crate::order::CountedRace;
use crate::race::Race;
use cube_actions::Kind;
use directed_fixed::{Fixed, Pair, ceil_div, floor_div};
use hyper_outside::NoMemory;
use move_rules::points;
use position_rank::{Layout, Position, layout_count};
use std::alloc::Global;
use turn_rule::win_of;

/// What a play that leaves these checkers leaves the mover: his win, or what the other side hasn't.
fn after_play(left: &Layout, other: &Layout, kind: &Kind, races: &[Race]) -> Race
    requires same { sum left.now ≡ sum other.now }
    requires kind { kind.now ≡ alone }
    requires table { IsRaceTable (sum other.now) races.now }
    ensures { result ≡ race_after_play races.now (against other.now left.now) }
{
    let end = Position::new(*left, *other).unwrap();
    match points(&end) {
        Some(won) => Race {
            pair: win_of(kind, won),
            turns: 0,
        },
        None => {
            let theirs = races[end.swap().square_rank() as usize];
            Race {
                pair: theirs.pair.neg(),
                turns: theirs.turns,
            }
        }
    }
}

/// At each end the better of two, and the more turns.
fn better(one: Race, another: Race) -> Race
    ensures { result ≡ better one another }
{
    let lower = one.pair.lower().max(another.pair.lower());
    let upper = one.pair.upper().max(another.pair.upper());
    Race {
        pair: Pair::new(lower, upper),
        turns: one.turns.max(another.turns),
    }
}

/// What the best of some plays leaves the mover.
fn best_of(ends: &[Layout], other: &Layout, kind: &Kind, races: &[Race]) -> Race
    requires some { 0 < length ends.now }
    requires same { All (λ left. sum left ≡ sum other.now) ends.now }
    requires kind { kind.now ≡ alone }
    requires table { IsRaceTable (sum other.now) races.now }
    ensures { result ≡ best_race races.now (map (against other.now) ends.now) }
{
    let mut best = after_play(&ends[0], other, kind, races);
    for i in 1..ends.len() {
        best = better(best, after_play(&ends[i], other, kind, races));
    }
    best
}

/// One more value, so many times.
fn add_times(sum: Fixed, times: u64, value: Fixed) -> Fixed
    requires sum { IsWithinUnits (pos (2 ^ 42)) sum }
    requires times { times ≤ 2 }
    requires value { IsWithinUnits (pos (2 ^ 36)) value }
    ensures { result ≡ (sum +ℤ pos times *ℤ value) }
{
    sum.add(value.times(times as u32))
}

/// A 36th of two sums, rounded outwards.
fn mean(lower: Fixed, upper: Fixed) -> Pair
    requires in_order { lower ≤ℤ upper }
    requires low { IsWithinUnits (pos (2 ^ 42)) lower }
    requires high { IsWithinUnits (pos (2 ^ 42)) upper }
    ensures { result ≡ record { lower = floor_36 lower; upper = ceil_36 upper } }
{
    Pair::new(
        Fixed::new(floor_div(lower.units(), 36)).unwrap(),
        Fixed::new(ceil_div(upper.units(), 36)).unwrap(),
    )
}

/// What a race is worth before its turn, by the races that may follow.
fn turn_of(race: &Position, rolls: &[FreeRoll], kind: &Kind, races: &[Race]) -> Race
    requires race { IsRaceOf (sum race.now.mover) race.now }
    requires rolls { AreFreeRolls race.now.mover rolls.now }
    requires kind { kind.now ≡ alone }
    requires table { IsRaceTable (sum race.now.mover) races.now }
    ensures { result ≡ turn_of races.now race.now }
{
    let other = race.other();
    let mut lower = Fixed::whole(0);
    let mut upper = Fixed::whole(0);
    let mut most = 0;
    for roll in rolls {
        let best = best_of(roll.ends.as_slice(), &other, kind, races);
        lower = add_times(lower, roll.times, best.pair.lower());
        upper = add_times(upper, roll.times, best.pair.upper());
        most = most.max(best.turns);
    }
    Race {
        pair: mean(lower, upper),
        turns: 1 + most,
    }
}

/// Every race of one to three checkers a side by its square rank, each found after those that may
/// follow it. Squares of other positions stay unknown.
pub(crate) fn find_races(
    alloc: Global,
    checkers: u8,
    order: &[CountedRace],
    sides: &[FreeSide],
    kind: &Kind,
) -> Result<Vec<Race>, NoMemory>
    requires low { 1 ≤ checkers }
    requires high { checkers ≤ 3 }
    requires order { AreRacesByPips checkers order.now }
    requires sides { AreFreeSides checkers sides.now }
    requires kind { kind.now ≡ alone }
    ensures { IfOk result (λ races. HoldsRaces checkers races.items) }
{
    let unknown = Race {
        pair: Pair::default(),
        turns: 0,
    };
    let layouts = layout_count(checkers) as usize;
    let mut races = vec![in alloc; unknown; layouts * layouts]?;
    for counted in order {
        let race = &counted.position;
        let rolls = sides[race.mover().rank() as usize].rolls.as_slice();
        let found = turn_of(race, rolls, kind, races.as_slice());
        races[race.square_rank() as usize] = found;
    }
    Ok(races)
}
