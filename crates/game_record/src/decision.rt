ghost use Rattle.std.specs.Prelude.{◌≡◌, ◌<◌, ◌++◌, List, [], ◌∷◌, length, OnOk, OnErr, slice_get, Some};

use crate::player::Player;
use cube_actions::Score;
use hyper_outside::NoMemory;
use position_rank::Position;
use std::alloc::Global;
use std::marker::Model;
use turn_rule::Choice;

/// What a player chose in a recorded game, and the state in which he chose it.
#[derive(Clone, Copy)]
pub struct Decision {
    /// The number of the game, counted from 1.
    pub game: u32,
    /// The number of its line in the record's text, counted from 1.
    pub line: u32,
    /// The one who chose.
    pub player: Player,
    /// In a match the score of the game.
    pub score: Option<Score>,
    /// The position, seen by the player whose turn it is: at an answer by him who doubled.
    pub position: Position,
    /// The number of the kind of state, seen by the same player.
    pub kind: usize,
    pub choice: Choice,
}

/// A list of decisions in their order.
#[derive(Drop)]
pub struct Decisions {
    list: Vec<Decision>,
}

impl Model for Decisions {
    ghost use Rattle.std.specs.Prelude.{List};
    ghost use Rattle.game_record.specs.declared.decision.Decision.{Decision};

    ghost Value = { List Decision };

    ghost view = { λ decisions. decisions.list.items };
}

impl Decisions {
    /// No decisions.
    pub fn new(alloc: Global) -> Decisions
        ensures { result ≡ [] }
    {
        Decisions {
            list: Vec::new(alloc),
        }
    }

    /// Adds a decision at the end. After `NoMemory` the list is as it was.
    pub fn push(&mut self, decision: Decision) -> Result<(), NoMemory>
        ensures ok { OnOk result (self.new ≡ self.old ++ decision ∷ []) }
        ensures err { OnErr result (self.new ≡ self.old) }
    {
        // A push of a decision with no such mention has no proof in this kit.
        let score = decision.score;
        self.list.push(Decision { score, ..decision })?;
        Ok(())
    }

    /// How many there are.
    pub fn len(&self) -> usize
        ensures { result ≡ length self.now }
    {
        self.list.len()
    }

    /// The decision at a place, counted from 0.
    pub fn at(&self, i: usize) -> &Decision
        requires { i < length self.now }
        ensures { slice_get self.now i ≡ Some result.now }
    {
        &self.list[i]
    }
}
