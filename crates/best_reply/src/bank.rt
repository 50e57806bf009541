ghost use Rattle.std.specs.Prelude.{◌≡◌, ◌<◌, ◌+◌, ◌*◌, IfOk, length, replicate, slice_index_or, slice_set};
ghost use Rattle.cube_actions.specs.Stakes.{nothing};

use directed_fixed::Pair;
use std::alloc::{AllocError, Global};
use std::marker::Model;

/// A pair for each state, by rising live rank and then kind.
#[derive(Drop)]
pub(crate) struct Bank {
    kinds: usize,
    pairs: Vec<Pair>,
}

impl Model for Bank {
    ghost use Rattle.best_reply.specs.Tables.{StatePairs};

    ghost Value = { StatePairs };

    ghost view = { λ a. record { kinds = a.kinds; pairs = a.pairs.items } };
}

impl Bank {
    /// One pair for each of so many states.
    pub(crate) fn filled(
        alloc: Global,
        states: usize,
        kinds: usize,
        pair: Pair,
    ) -> Result<Bank, AllocError>
        ensures { IfOk result (λ bank.
            bank ≡ record { kinds = kinds; pairs = replicate states pair }) }
    {
        let pairs = vec![in alloc; pair; states]?;
        Ok(Bank { kinds, pairs })
    }

    /// The pair of the position with this live rank in a kind.
    #[inline]
    pub(crate) fn pair(&self, rank: u64, kind: usize) -> Pair
        requires { rank * self.now.kinds + kind < length self.now.pairs }
        ensures { result ≡ slice_index_or self.now.pairs (rank * self.now.kinds + kind) nothing }
    {
        self.pairs[rank as usize * self.kinds + kind]
    }

    /// Puts another pair there.
    #[inline]
    pub(crate) fn set(&mut self, rank: u64, kind: usize, pair: Pair)
        requires { rank * self.old.kinds + kind < length self.old.pairs }
        ensures { self.new ≡ record self.old {
          pairs = slice_set self.old.pairs (rank * self.old.kinds + kind) pair;
        } }
    {
        self.pairs[rank as usize * self.kinds + kind] = pair;
    }
}
