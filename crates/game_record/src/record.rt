ghost use Rattle.std.specs.Prelude.{◌≡◌, ◌<◌, ◌++◌, List, [], ◌∷◌, length, OnOk, OnErr, slice_get, Some};
ghost use Rattle.game_record.specs.Games.{records_beavers, has_jacoby_rule};
ghost use Rattle.game_record.specs.Turns.{has_match};

use crate::player::Player;
use cube_actions::MoneyRule;
use hyper_outside::NoMemory;
use move_rules::Written;
use roll_table::Roll;
use std::alloc::Global;
use std::marker::Model;

/// Games that two players played one after another.
#[derive(Drop)]
pub struct Record {
    /// How many checkers each side has, 1 to 3.
    pub checkers: u8,
    pub stakes: RecordStakes,
    /// At least one.
    pub games: Games,
}

/// What the games of a record are played for.
#[derive(Clone, Copy)]
pub enum RecordStakes {
    /// No match.
    Unlimited(MoneyRule),
    /// A match for so many points, 1 to 5.
    Match(u8),
}

impl RecordStakes {
    pub fn is_match(self) -> bool
        ensures { result ≡ has_match self }
    {
        matches!(self, RecordStakes::Match(_))
    }

    /// A game with the cube centred counts once.
    pub(crate) fn has_jacoby_rule(self) -> bool
        ensures { result ≡ has_jacoby_rule self }
    {
        matches!(
            self,
            RecordStakes::Unlimited(MoneyRule::Jacoby | MoneyRule::JacobyBeavers)
        )
    }

    /// Who is doubled may turn the cube once more.
    pub(crate) fn has_beavers(self) -> bool
        ensures { result ≡ records_beavers self }
    {
        match self {
            RecordStakes::Unlimited(rule) => rule.has_beavers(),
            RecordStakes::Match(_) => false,
        }
    }
}

/// One game, from its first roll.
#[derive(Drop)]
pub struct Game {
    /// In a match the points that A and B still need as it begins, 1 to 5; otherwise `None`.
    pub away: Option<(u8, u8)>,
    pub actions: Actions,
    pub ending: Ending,
}

/// What a player did.
#[derive(Drop)]
pub struct Action {
    pub player: Player,
    pub what: What,
}

#[derive(Drop)]
pub enum What {
    /// He rolled, and played as is written.
    Rolled { roll: Roll, written: Written },
    Doubled,
    Took,
    Passed,
    /// He took the cube and turned it once more.
    Beavered,
}

/// How a game ended.
#[derive(Clone, Copy)]
pub enum Ending {
    /// It was won for 1 to 3 points in units of the cube.
    Ended { winner: Player, points: u8 },
    /// It was left unfinished.
    Stopped,
}

/// A list of games in their order.
#[derive(Drop)]
pub struct Games {
    list: Vec<Game>,
}

impl Model for Games {
    ghost use Rattle.std.specs.Prelude.{List};
    ghost use Rattle.game_record.specs.declared.record.Game.{Game};

    ghost Value = { List Game };

    ghost view = { λ games. games.list.items };
}

impl Games {
    /// No games.
    pub fn new(alloc: Global) -> Games
        ensures { result ≡ [] }
    {
        Games {
            list: Vec::new(alloc),
        }
    }

    /// Adds a game at the end. After `NoMemory` the list is as it was, and the game is gone.
    pub fn push(&mut self, game: Game) -> Result<(), NoMemory>
        ensures ok { OnOk result (self.new ≡ self.old ++ game ∷ []) }
        ensures err { OnErr result (self.new ≡ self.old) }
    {
        self.list.push(game)?;
        Ok(())
    }

    /// How many there are.
    pub fn len(&self) -> usize
        ensures { result ≡ length self.now }
    {
        self.list.len()
    }

    /// The games as a slice.
    pub fn as_slice(&self) -> &[Game]
        ensures { result.now ≡ self.now }
    {
        &self.list
    }

    /// The game at a place, counted from 0.
    pub fn at(&self, i: usize) -> &Game
        requires { i < length self.now }
        ensures { slice_get self.now i ≡ Some result.now }
    {
        &self.list[i]
    }
}

/// A list of actions in their order.
#[derive(Drop)]
pub struct Actions {
    list: Vec<Action>,
}

impl Model for Actions {
    ghost use Rattle.std.specs.Prelude.{List};
    ghost use Rattle.game_record.specs.declared.record.Action.{Action};

    ghost Value = { List Action };

    ghost view = { λ actions. actions.list.items };
}

impl Actions {
    /// No actions.
    pub fn new(alloc: Global) -> Actions
        ensures { result ≡ [] }
    {
        Actions {
            list: Vec::new(alloc),
        }
    }

    /// Adds an action at the end. After `NoMemory` the list is as it was, and the action is gone.
    pub fn push(&mut self, action: Action) -> Result<(), NoMemory>
        ensures ok { OnOk result (self.new ≡ self.old ++ action ∷ []) }
        ensures err { OnErr result (self.new ≡ self.old) }
    {
        self.list.push(action)?;
        Ok(())
    }

    /// How many there are.
    pub fn len(&self) -> usize
        ensures { result ≡ length self.now }
    {
        self.list.len()
    }

    /// The actions as a slice.
    pub fn as_slice(&self) -> &[Action]
        ensures { result.now ≡ self.now }
    {
        &self.list
    }

    /// The action at a place, counted from 0.
    pub fn at(&self, i: usize) -> &Action
        requires { i < length self.now }
        ensures { slice_get self.now i ≡ Some result.now }
    {
        &self.list[i]
    }
}
