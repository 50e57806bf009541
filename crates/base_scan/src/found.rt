ghost use Rattle.std.specs.Prelude.{◌≡◌};

use position_rank::Position;
use std::marker::Model;

/// A state of a game.
#[derive(Clone, Copy)]
pub struct State {
    pub position: Position,
    /// The number of its kind.
    pub kind: u8,
}

/// Some states of a game.
#[derive(Drop)]
pub struct Found {
    states: Vec<State>,
}

impl Model for Found {
    ghost use Rattle.std.specs.Prelude.{List};
    ghost use Rattle.base_scan.specs.declared.found.State.{State};

    ghost Value = { List State };

    ghost view = { λ a. a.states.items };
}

impl Found {
    pub(crate) fn new(states: Vec<State>) -> Found
        ensures { result ≡ states.items }
    {
        Found { states }
    }

    /// The states, in their order.
    pub fn as_slice(&self) -> &[State]
        ensures { result.now ≡ self.now }
    {
        self.states.as_slice()
    }
}
