ghost use Rattle.std.specs.Prelude.{◌≡◌, ◌<◌, ◌≤◌, ◌+◌, ◌*◌, ◌^◌, ℕ, IfOk, length, replicate, slice_set, sum};
ghost use Rattle.position_rank.specs.Placement.{Placement, IsPosition};
ghost use Rattle.position_rank.specs.Ranks.{square_rank_of};
ghost use Rattle.directed_fixed.specs.declared.bounds.End.TheVariants.{Lower, Upper};
ghost use Rattle.turn_rule.specs.Layouts.{squares_of};
ghost use Rattle.plain_table.specs.Tables.{PairTable, IsFull, words_at};
ghost use Rattle.turn_rule.specs.States.{pair_of};

use directed_fixed::Pair;
use position_rank::{Position, layout_count};
use std::alloc::{AllocError, Global};
use std::marker::Model;

/// A pair for each square and kind, by rising square rank and then kind.
#[derive(Drop)]
pub(crate) struct Table {
    checkers: u8,
    kinds: usize,
    pairs: Vec<Pair>,
}

impl Model for Table {
    ghost Value = { PairTable };

    ghost view = { λ a. record { checkers = a.checkers; kinds = a.kinds; pairs = a.pairs.items } };

    ghost invariant = { λ a. IsFull
        (record { checkers = a.checkers; kinds = a.kinds; pairs = a.pairs.items }) };
}

impl Table {
    /// The pair of a position with the table's number of checkers, in a kind of the game.
    #[inline]
    pub(crate) fn pair(&self, position: &Position, kind: usize) -> Pair
        requires checkers { sum position.now.mover ≡ self.now.checkers }
        requires kind { kind < self.now.kinds }
        ensures { result ≡ pair_of (words_at self.now) position.now kind }
    {
        self.pair_at(position, position.square_rank(), kind)
    }

    /// `pair` of a position whose square rank is at hand.
    #[inline]
    pub(crate) fn pair_at(&self, position: &Position, square: u64, kind: usize) -> Pair
        requires valid { IsPosition position.now }
        requires checkers { sum position.now.mover ≡ self.now.checkers }
        requires square { square ≡ square_rank_of position.now }
        requires kind { kind < self.now.kinds }
        ensures { result ≡ pair_of (words_at self.now) position.now kind }
    {
        self.pairs[square as usize * self.kinds + kind]
    }

    /// How many checkers a side has.
    pub(crate) fn checkers(&self) -> u8
        ensures checkers { result ≡ self.now.checkers }
        ensures full { IsFull self.now }
    {
        self.checkers
    }

    /// How many kinds there are.
    pub(crate) fn kinds(&self) -> usize
        ensures kinds { result ≡ self.now.kinds }
        ensures full { IsFull self.now }
        ensures small { length self.now.pairs < 2 ^ 63 }
    {
        // A list's length fits a `usize`, which `small` tells.
        let _many = self.pairs.len();
        self.kinds
    }

    /// Puts another pair at a place.
    #[inline]
    pub(crate) fn set(&mut self, place: usize, pair: Pair)
        requires { place < length self.old.pairs }
        ensures { self.new ≡ record self.old { pairs = slice_set self.old.pairs place pair } }
    {
        self.pairs[place] = pair;
    }

    /// A table of one pair everywhere.
    pub(crate) fn filled(
        alloc: Global,
        checkers: u8,
        kinds: usize,
        pair: Pair,
    ) -> Result<Table, AllocError>
        requires low { 1 ≤ checkers }
        requires high { checkers ≤ 3 }
        requires kinds { kinds ≤ 14 }
        ensures { let pairs = replicate (squares_of checkers * kinds) pair in
            IfOk result (λ table.
            table ≡ record { checkers = checkers; kinds = kinds; pairs = pairs }) }
    {
        let layouts = layout_count(checkers) as usize;
        let pairs = vec![in alloc; pair; layouts * layouts * kinds]?;
        Ok(Table {
            checkers,
            kinds,
            pairs,
        })
    }
}
