ghost use Rattle.std.specs.Prelude.{◌≡◌};
ghost use Rattle.cube_actions.specs.Money.{has_beavers};

use crate::score::Score;
use crate::side::Side;

/// By which rule games are played that are no match.
#[derive(Clone, Copy, PartialEq, Eq)]
pub enum MoneyRule {
    /// There is no cube.
    Cubeless,
    /// All games count in full.
    Money,
    /// While the cube is centred, gammons and backgammons count single.
    Jacoby,
    /// Who is doubled may turn the cube once more and own it.
    MoneyBeavers,
    /// Both.
    JacobyBeavers,
}

impl MoneyRule {
    /// Whether who is doubled may beaver.
    pub fn has_beavers(self) -> bool
        ensures { result ≡ has_beavers self }
    {
        matches!(self, MoneyRule::MoneyBeavers | MoneyRule::JacobyBeavers)
    }
}

/// Which stakes a game is played for.
#[derive(Clone, Copy, PartialEq, Eq)]
pub enum StakesName {
    /// No match.
    Unlimited(MoneyRule),
    /// A match, at this score.
    Match(Score),
}

/// Where the cube is, seen by the side that moves.
#[derive(Clone, Copy, Default, PartialEq, Eq)]
pub enum KindName {
    /// There is no cube.
    #[default]
    Alone,
    Centred,
    Mine,
    Theirs,
    InMatch {
        mover: Side,
        cube: u8,
        owner: Option<Side>,
    },
}
