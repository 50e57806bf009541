ghost use Rattle.std.specs.Prelude.{◌≡◌};
ghost use Rattle.record_maker.specs.Making.{due_after, is_turn};

use game_record::{Action, Player, What};

/// What is to come in a game.
#[derive(Clone, Copy)]
pub(crate) enum Due {
    /// The first roll, of the player who wins it.
    Start,
    /// A double or a roll of this player.
    Turn(Player),
    /// A take or a pass of this player.
    Answer(Player),
    /// A roll of this player.
    Roll(Player),
    /// Nothing: a pass has ended the game.
    Nothing,
}

impl Due {
    /// What is due after an action.
    pub(crate) fn after(action: &Action) -> Due
        ensures { result ≡ due_after action.now.player action.now.what }
    {
        let player = action.player;
        match &action.what {
            What::Rolled { .. } => Due::Turn(player.other()),
            What::Doubled => Due::Answer(player.other()),
            What::Took | What::Beavered => Due::Roll(player.other()),
            What::Passed => Due::Nothing,
        }
    }

    pub(crate) fn is_turn(self) -> bool
        ensures { result ≡ is_turn self }
    {
        matches!(self, Due::Turn(_))
    }
}
