ghost use Rattle.std.specs.Prelude.{◌≡◌};
ghost use Rattle.position_rank.specs.Ranks.{square_rank_of};
ghost use Rattle.turn_rule.specs.States.{IsState, pair_of};
ghost use Rattle.turn_rule.specs.Looks.{all_told};
ghost use Rattle.best_reply.specs.Tables.{IsRightBank, words_by};
ghost use Rattle.best_reply.specs.Columns.{source_by};

use crate::bank::Bank;
use directed_fixed::{Fixed, Pair};
use hyper_outside::LookStop;
use interval_words::Words;
use position_rank::Position;
use turn_rule::Pairs;

/// Looks the pairs of one side up. It is sure, and its floor and its notes are these pairs.
#[derive(Drop)]
pub(crate) struct BankReader<'a> {
    words: &'a Words,
    bank: &'a Bank,
    ghost right: { IsRightBank words.now.game bank.now },
}

impl<'a> BankReader<'a> {
    /// A reader of pairs of the game of these words.
    #[inline]
    pub(crate) fn of(words: &'a Words, bank: &'a Bank) -> BankReader<'a>
        requires { IsRightBank words.now.game bank.now }
        ensures words { result.words.now ≡ words.now }
        ensures bank { result.bank.now ≡ bank.now }
    {
        BankReader { words, bank }
    }

    /// The pair of a state, whose position's square rank is at hand.
    #[inline]
    fn pair_at(&self, position: &Position, square: u64, kind: usize) -> Pair
        requires state { IsState self.now.words.now.game position.now kind }
        requires square { square ≡ square_rank_of position.now }
        ensures { result ≡ pair_of (words_by self.now.bank.now) position.now kind }
    {
        let rank = self.words.index().rank_at(position, square);
        self.bank.pair(rank, kind)
    }
}

impl Pairs for BankReader<'_> {
    ghost stays = { λ _. tt };

    ghost seen = { λ reader. record {
      source = source_by reader.words.now.game reader.bank.now;
      notes = all_told (words_by reader.bank.now);
      faults = 0;
    } };

    #[inline]
    fn lower_of(&mut self, position: &Position, kind: usize) -> Result<Fixed, LookStop> {
        self.lower_at(position, position.square_rank(), kind)
    }

    #[inline]
    fn lower_at(
        &mut self,
        position: &Position,
        square: u64,
        kind: usize,
    ) -> Result<Fixed, LookStop> {
        Ok(self.pair_at(position, square, kind).lower())
    }

    #[inline]
    fn upper_of(&mut self, position: &Position, kind: usize) -> Result<Fixed, LookStop> {
        self.upper_at(position, position.square_rank(), kind)
    }

    #[inline]
    fn upper_at(
        &mut self,
        position: &Position,
        square: u64,
        kind: usize,
    ) -> Result<Fixed, LookStop> {
        Ok(self.pair_at(position, square, kind).upper())
    }

    ghost floor_within = { λ reader _. reader.right.within };

    ghost notes_within = { λ reader _. reader.right.within };
}
