ghost use Rattle.std.specs.Prelude.{◌≡◌};
ghost use Rattle.move_rules.specs.Payoff.{points};

use position_rank::Position;

/// How a game was won: for one, two or three points in units of the cube.
#[derive(Clone, Copy)]
pub enum Won {
    Single,
    Gammon,
    Backgammon,
}

/// How the mover has won, after his play and before the sides are exchanged.
/// `None` exactly while he has a checker that isn't off.
pub fn points(position: &Position) -> Option<Won>
    ensures { result ≡ points position.now }
{
    if position.mover_at(0) < position.checkers() {
        None
    } else if position.other_at(0) > 0 {
        Some(Won::Single)
    } else if position.other_above(18) > 0 {
        Some(Won::Backgammon)
    } else {
        Some(Won::Gammon)
    }
}
