ghost use Rattle.std.specs.Prelude.{◌≡◌, ◌↔◌, IsTrue};
ghost use Rattle.position_rank.specs.Placement.{IsLive};
ghost use Rattle.race_table.specs.Races.{IsRace, is_race};

use directed_fixed::Pair;
use position_rank::Position;

/// What is known of a race: bounds of what it is worth to the side that moves, and how many turns
/// it may still take.
#[derive(Clone, Copy)]
pub struct Race {
    pub pair: Pair,
    pub turns: u32,
}

/// Whether the sides of a live position have passed each other: whether the highest places of both,
/// each in its own numbering, add up to less than 25.
pub fn is_race(position: &Position) -> bool
    requires { IsLive position.now }
    ensures race { IsTrue result ↔ IsRace position.now }
    ensures highest { result ≡ is_race position.now }
{
    position.highest_below(26) + position.swap().highest_below(26) < 25
}
