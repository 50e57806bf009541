ghost use Rattle.std.specs.Prelude.{◌≡◌, ◌≤◌, IfOk};
ghost use Rattle.race_table.specs.RacePairs.{IsTrueOfRace, race_pair};
ghost use Rattle.race_table.specs.Races.{IsRaceOf};
ghost use Rattle.race_table.specs.Tables.{found};
ghost use Rattle.race_table.specs.TurnsLeft.{turns_left};

use crate::fill::find_races;
use crate::free_plays::free_sides;
use crate::order::races_by_pips;
use crate::race::Race;
use cube_actions::{MoneyRule, Stakes};
use directed_fixed::Pair;
use hyper_outside::NoMemory;
use position_rank::Position;
use std::alloc::Global;
use std::marker::Model;
use turn_rule::all_layouts;

/// Every race of so many checkers a side in the game without a cube: its pair, and how many turns
/// it may still take.
#[derive(Drop)]
pub struct RaceTable {
    checkers: u8,
    races: Vec<Race>,
}

impl Model for RaceTable {
    ghost use Rattle.std.specs.Prelude.{ℕ};
    ghost use Rattle.race_table.specs.Tables.{HoldsRaces};

    ghost Value = { ℕ };

    ghost view = { λ a. a.checkers };

    ghost invariant = { λ a. HoldsRaces a.checkers a.races.items };
}

impl RaceTable {
    /// That of one to three checkers a side. It is filled once, by rising pips, so that each race
    /// is found after those that may follow it. Here all memory is taken; there may be none.
    pub fn build(alloc: Global, checkers: u8) -> Result<RaceTable, NoMemory>
        requires low { 1 ≤ checkers }
        requires high { checkers ≤ 3 }
        ensures { IfOk result (λ table. table ≡ checkers) }
    {
        let stakes = Stakes::unlimited(MoneyRule::Cubeless);
        let layouts = all_layouts(alloc, checkers)?;
        let order = races_by_pips(alloc, layouts.as_slice())?;
        let sides = free_sides(alloc, layouts.as_slice())?;
        let kind = stakes.kind(0);
        let races = find_races(alloc, checkers, order.as_slice(), sides.as_slice(), kind)?;
        Ok(RaceTable { checkers, races })
    }

    /// What is known of a race.
    fn race(&self, position: &Position) -> Race
        requires { IsRaceOf self.now position.now }
        ensures { result ≡ found position.now }
    {
        self.races[position.square_rank() as usize]
    }

    /// The pair of a race in its one kind, `alone`.
    pub fn pair(&self, position: &Position) -> Pair
        requires { IsRaceOf self.now position.now }
        ensures pair { result ≡ race_pair position.now }
        ensures truth { IsTrueOfRace position.now result }
    {
        self.race(position).pair
    }

    /// How many turns a race may still take.
    pub fn turns(&self, position: &Position) -> u32
        requires { IsRaceOf self.now position.now }
        ensures { result ≡ turns_left position.now }
    {
        self.race(position).turns
    }
}
