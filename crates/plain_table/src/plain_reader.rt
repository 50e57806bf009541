ghost use Rattle.std.specs.Prelude.{◌≡◌, ◌<◌, ℕ, ℤ, Bool, true, None, IsTrue};
ghost use Rattle.position_rank.specs.Placement.{Placement};
ghost use Rattle.directed_fixed.specs.declared.bounds.End.TheVariants.{Lower, Upper};
ghost use Rattle.turn_rule.specs.Turn.{Words};
ghost use Rattle.turn_rule.specs.States.{IsStateOf, AreWithinOf};
ghost use Rattle.plain_table.specs.Tables.{words_at, read_from};
ghost use Rattle.turn_rule.specs.Looks.{Source, IsAnswer, all_told};

use crate::table::Table;
use directed_fixed::Fixed;
use hyper_outside::LookStop;
use position_rank::Position;
use turn_rule::Pairs;

/// Looks words up in a plain table. It is sure, and its floor and its notes are the table's words.
#[derive(Drop)]
pub struct PlainReader<'a> {
    table: &'a Table,
    bound: Fixed,
    ghost within: { AreWithinOf table.now.checkers table.now.kinds bound (words_at table.now) },
}

impl<'a> PlainReader<'a> {
    /// A reader of a table whose words are within this bound.
    #[inline]
    pub(crate) fn of(table: &'a Table, bound: Fixed) -> PlainReader<'a>
        requires { AreWithinOf table.now.checkers table.now.kinds bound (words_at table.now) }
        ensures { (result.table.now ≡ table.now) × (result.bound ≡ bound) }
    {
        PlainReader { table, bound }
    }
}

impl Pairs for PlainReader<'_> {
    ghost stays = { λ s. tt };

    ghost seen = { λ s. record {
      source = read_from s.table.now s.bound;
      notes = all_told (words_at s.table.now);
      faults = 0;
    } };

    #[inline]
    fn lower_of(&mut self, position: &Position, kind: usize) -> Result<Fixed, LookStop> {
        Ok(self.table.pair(position, kind).lower())
    }

    #[inline]
    fn lower_at(
        &mut self,
        position: &Position,
        square: u64,
        kind: usize,
    ) -> Result<Fixed, LookStop> {
        Ok(self.table.pair_at(position, square, kind).lower())
    }

    #[inline]
    fn upper_of(&mut self, position: &Position, kind: usize) -> Result<Fixed, LookStop> {
        Ok(self.table.pair(position, kind).upper())
    }

    #[inline]
    fn upper_at(
        &mut self,
        position: &Position,
        square: u64,
        kind: usize,
    ) -> Result<Fixed, LookStop> {
        Ok(self.table.pair_at(position, square, kind).upper())
    }

    ghost floor_within = { λ s _. s.within };

    ghost notes_within = { λ s _. s.within };
}
