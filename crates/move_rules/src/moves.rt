ghost use Rattle.std.specs.Prelude.{◌≡◌, ℕ, ◌+◌, ◌-◌, ◌<◌, ◌≤◌, IsSome, IfSome};
ghost use Rattle.position_rank.specs.Placement.{Placement};
ghost use Rattle.move_rules.specs.Ends.{after_move};

use position_rank::Position;

/// What the move of the checker on this place by this die leaves, if it can be made.
#[tactic(auto, unfolding(crate::specs::Ends::after_move))]
pub fn after_move(position: &Position, die: u8, from: u8) -> Option<Position>
    requires die { 1 ≤ die }
    requires from { 1 ≤ from }
    requires place { from ≤ 25 }
    ensures { result ≡ after_move position.now die from }
{
    if position.mover_at(from) == 0 || (from != 25 && position.mover_at(25) > 0) {
        return None;
    }
    if die < from {
        let to = from - die;
        if position.other_at(25 - to) > 1 {
            return None;
        }
        return Some(position.run(from, to));
    }
    if position.mover_above(6) > 0 || (from != die && position.mover_above(from) > 0) {
        return None;
    }
    Some(position.bear_off(from))
}
