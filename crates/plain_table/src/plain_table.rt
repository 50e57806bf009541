ghost use Rattle.std.specs.Prelude.{◌≡◌, ◌≤◌, ◌+◌, ℕ, IfOk};
ghost use Rattle.turn_rule.specs.Games.{game_of};
ghost use Rattle.plain_table.specs.Tables.{words_at, read_from};
ghost use Rattle.turn_rule.specs.States.{IsState, pair_of};
ghost use Rattle.turn_rule.specs.Looks.{AreStakesOf, all_told};
ghost use Rattle.plain_table.specs.Rounds.{HasTable, IsTableTurned};

use crate::plain_reader::PlainReader;
use crate::sweep::sweep_columns;
use crate::table::Table;
use column_turns::ColumnTurns;
use cube_actions::Stakes;
use directed_fixed::Pair;
use hyper_outside::NoMemory;
use position_rank::Position;
use std::alloc::Global;
use std::marker::Model;
use std::mem;
use turn_rule::Pairs;

/// A pair for each state of a game, after some rounds in which every state takes its turn over the
/// pairs of the round before.
#[derive(Drop)]
pub struct PlainTable {
    stakes: Stakes,
    turns: ColumnTurns,
    current: Table,
    next: Table,
}

impl Model for PlainTable {
    ghost use Rattle.plain_table.specs.Rounds.{StakesAndTable, IsTableSet};

    ghost Value = { StakesAndTable };

    ghost view = { λ a. record { stakes = a.stakes; table = a.current } };

    ghost invariant = { λ a. IsTableSet a.stakes a.turns a.current a.next };
}

impl PlainTable {
    /// Before the first round, when only the bound is known of any state.
    pub fn new(alloc: Global, checkers: u8, stakes: &Stakes) -> Result<PlainTable, NoMemory>
        requires low { 1 ≤ checkers }
        requires high { checkers ≤ 3 }
        ensures game { IfOk result
            (λ table. (table.table.checkers ≡ checkers) × (table.stakes ≡ stakes.now)) }
        ensures rounds { IfOk result (λ table. HasTable table 0) }
    {
        let bound = stakes.bound();
        let bound_pair = Pair::new(bound.neg(), bound);
        let turns = ColumnTurns::new(alloc, checkers, stakes)?;
        let current = Table::filled(alloc, checkers, stakes.kinds(), bound_pair)?;
        let next = Table::filled(alloc, checkers, stakes.kinds(), bound_pair)?;
        Ok(PlainTable {
            stakes: stakes.copied(),
            turns,
            current,
            next,
        })
    }

    /// One more round: every state takes its turn over the pairs that stood before.
    pub fn sweep_all(&mut self)
        ensures checkers { self.new.table.checkers ≡ self.old.table.checkers }
        ensures stakes { self.new.stakes ≡ self.old.stakes }
        ensures turned { IsTableTurned self.old self.new }
        ensures rounds { (r : ℕ) → HasTable self.old r → HasTable self.new (r + 1) }
    {
        sweep_columns(&self.stakes, &mut self.turns, &self.current, &mut self.next);
        mem::swap(&mut self.current, &mut self.next);
    }

    /// Looks the pairs up one end at a time. The reader is sure, and its floor and its notes are
    /// the table's words.
    pub fn reader(&self) -> PlainReader<'_>
        ensures source { (⟦<PlainReader<'static> as Pairs>⟧.seen result).source
            ≡ read_from self.now.table self.now.stakes.bound }
        ensures notes { (⟦<PlainReader<'static> as Pairs>⟧.seen result).notes
            ≡ all_told (words_at self.now.table) }
        ensures stakes { AreStakesOf (⟦<PlainReader<'static> as Pairs>⟧.seen result).source
            self.now.stakes }
    {
        PlainReader::of(&self.current, self.stakes.bound())
    }

    /// The pair of a state.
    pub fn pair(&self, position: &Position, kind: usize) -> Pair
        requires { IsState (game_of self.now.table.checkers self.now.stakes) position.now kind }
        ensures { result ≡ pair_of (words_at self.now.table) position.now kind }
    {
        self.current.pair(position, kind)
    }
}
