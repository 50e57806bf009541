ghost use Rattle.std.specs.Prelude.{◌≡◌};
ghost use Rattle.position_rank.specs.Placement.{Placement, swap};
ghost use Rattle.position_rank.specs.Ranks.{square_rank_of};
ghost use Rattle.move_rules.specs.Payoff.{points};

use move_rules::{Won, points};
use position_rank::Position;
use std::marker::Model;

/// The end of a play, with what is asked of it in each kind: how the game was won, and the position
/// as the other side sees it.
#[derive(Drop)]
pub(crate) struct PlayEnd {
    won: Option<Won>,
    theirs: Position,
    square: u64,
}

impl Model for PlayEnd {
    ghost use Rattle.position_rank.specs.Placement.{Placement};
    ghost use Rattle.turn_rule.specs.PlayEnds.{mover_view, IsPlayEnd};

    ghost Value = { Placement };

    ghost view = { λ a. mover_view a.theirs };

    ghost invariant = { λ a. IsPlayEnd a.won a.theirs a.square };
}

impl Default for PlayEnd {
    ghost is_default = { λ left. Unit {0} };

    /// One checker of each side on its point 24.
    #[inline]
    fn default() -> Self {
        PlayEnd {
            won: None,
            theirs: Position::start(1),
            square: 648,
        }
    }
}

impl PlayEnd {
    /// What stands after a play that ends so.
    pub(crate) fn of(end: &Position) -> PlayEnd
        ensures { result ≡ end.now }
    {
        let theirs = end.swap();
        PlayEnd {
            won: points(end),
            theirs,
            square: theirs.square_rank(),
        }
    }

    /// How the mover has won.
    #[inline]
    pub(crate) fn won(&self) -> Option<Won>
        ensures { result ≡ points self.now }
    {
        self.won
    }

    /// The position as the other side sees it.
    #[inline]
    pub(crate) fn theirs(&self) -> &Position
        ensures { result.now ≡ swap self.now }
    {
        &self.theirs
    }

    /// The square rank of that.
    #[inline]
    pub(crate) fn square(&self) -> u64
        ensures { result ≡ square_rank_of (swap self.now) }
    {
        self.square
    }
}
