ghost use Rattle.std.specs.Prelude.{◌≡◌, ◌++◌, [], ◌∷◌, OnOk};
ghost use Rattle.record_text.specs.Drafts.{added, ended_game, record_of};

use cube_actions::MoneyRule;
use game_record::{Actions, Ending, Game, Games, Line, Record, RecordStakes};
use hyper_outside::NoMemory;
use std::alloc::Global;

/// What has been read of a record.
#[derive(Drop)]
pub(crate) struct Draft {
    checkers: u8,
    stakes: RecordStakes,
    /// The games that are over.
    games: Games,
    /// Of the game that isn't over: the points that A and B need, and what they did.
    away: Option<(u8, u8)>,
    actions: Actions,
}

impl Draft {
    /// Before the first line.
    pub(crate) fn new(alloc: Global) -> Draft
        ensures games { result.games ≡ [] }
        ensures actions { result.actions ≡ [] }
    {
        Draft {
            checkers: 1,
            stakes: RecordStakes::Unlimited(MoneyRule::Cubeless),
            games: Games::new(alloc),
            away: None,
            actions: Actions::new(alloc),
        }
    }

    /// Adds what a line says.
    pub(crate) fn add(&mut self, alloc: Global, line: Line) -> Result<(), NoMemory>
        ensures { OnOk result (self.new ≡ added self.old line) }
    {
        match line {
            Line::Title | Line::Closed => {}
            Line::Checkers(checkers) => self.checkers = checkers,
            Line::Stakes(stakes) => self.stakes = stakes,
            Line::Game { away, .. } => self.away = away,
            Line::Acted(action) => self.actions.push(action)?,
            Line::Ended { winner, points } => {
                self.end_game(alloc, Ending::Ended { winner, points })?;
            }
            Line::Stopped => self.end_game(alloc, Ending::Stopped)?,
        }
        Ok(())
    }

    fn end_game(&mut self, alloc: Global, ending: Ending) -> Result<(), NoMemory>
        ensures { OnOk result (self.new
            ≡ record self.old {
              games = self.old.games ++ ended_game self.old ending ∷ [];
              actions = [];
            }) }
    {
        let actions = std::mem::replace(&mut self.actions, Actions::new(alloc));
        let away = self.away;
        self.games.push(Game {
            away,
            actions,
            ending,
        })
    }

    /// The record, once all is read.
    pub(crate) fn finish(self) -> Record
        ensures { result ≡ record_of self }
    {
        Record {
            checkers: self.checkers,
            stakes: self.stakes,
            games: self.games,
        }
    }
}
