ghost use Rattle.std.specs.Prelude.{◌≡◌, ◌+◌, ℕ, IfOk};
ghost use Rattle.turn_rule.specs.Games.{IsGame};
ghost use Rattle.turn_rule.specs.States.{IsState, pair_of};
ghost use Rattle.best_reply.specs.Replies.{Follower, Replier};
ghost use Rattle.best_reply.specs.ReplyPairs.{reply_rounds};
ghost use Rattle.best_reply.specs.Tables.{policy_of, words_by};
ghost use Rattle.best_reply.specs.Sides.{AreBanksOf, AreReplyRounds, IsReplyTurned};

use crate::advice::Advice;
use crate::bank::Bank;
use crate::sweep::{Banks, sweep};
use column_turns::ColumnTurns;
use directed_fixed::Pair;
use hyper_outside::NoMemory;
use interval_words::Words;
use position_rank::Position;
use std::alloc::Global;
use std::marker::Model;
use std::mem;

/// What following the advice of some words guarantees against the best reply: a pair for each
/// state where the follower is to move and one where the replier is, after some rounds in which
/// every state takes its turn over the other side's pairs of the round before.
#[derive(Drop)]
pub struct ReplyTable<'a> {
    words: &'a Words,
    advice: Advice,
    turns: ColumnTurns,
    current: Banks,
    next: Banks,
}

impl<'a> Model for ReplyTable<'a> {
    ghost use Rattle.best_reply.specs.Sides.{ReplyState, IsReplyReady};

    ghost Value = { ReplyState };

    ghost view = { λ a. record { words = a.words.now; both = a.current } };

    ghost invariant = { λ a. IsReplyReady a.words.now a.advice a.turns a.current a.next };
}

/// A pair of which only the bound is known, for every state and either side to move.
fn opening(alloc: Global, words: &Words) -> Result<Banks, NoMemory>
    ensures game { IsGame words.now.game }
    ensures banks { IfOk result (AreBanksOf words.now.game) }
    ensures rounds { IfOk result (λ banks.
        AreReplyRounds (record { words = words.now; both = banks }) 0) }
{
    // Right words are those of a game.
    words.right();
    let stakes = words.stakes();
    let bound = stakes.bound();
    let pair = Pair::new(bound.neg(), bound);
    let states = words.states();
    Ok(Banks {
        follow: Bank::filled(alloc, states, stakes.kinds(), pair)?,
        reply: Bank::filled(alloc, states, stakes.kinds(), pair)?,
    })
}

impl<'a> ReplyTable<'a> {
    /// Before the first round, when only the bound is known of any state. Here all memory is taken,
    /// mostly for the advised plays, which are found once: 84 bytes for each state, 27 MB for two
    /// checkers a side by the Jacoby rule and 2 GB for three. There may be none.
    pub fn new(alloc: Global, words: &'a Words) -> Result<ReplyTable<'a>, NoMemory>
        ensures words { IfOk result (λ table. table.words ≡ words.now) }
        ensures rounds { IfOk result (λ table. AreReplyRounds table 0) }
    {
        Ok(ReplyTable {
            words,
            advice: Advice::of(alloc, words)?,
            turns: ColumnTurns::new(alloc, words.checkers(), words.stakes())?,
            current: opening(alloc, words)?,
            next: opening(alloc, words)?,
        })
    }

    /// One more round: every state takes its turn, for either side to move, over the other side's
    /// pairs that stood before. It takes no memory.
    pub fn sweep_all(&mut self)
        ensures words { self.new.words ≡ self.old.words }
        ensures turned { IsReplyTurned self.old self.new }
        ensures rounds { (r : ℕ) → AreReplyRounds self.old r → AreReplyRounds self.new (r + 1) }
    {
        sweep(
            self.words,
            &self.advice,
            &mut self.turns,
            &self.current,
            &mut self.next,
        );
        mem::swap(&mut self.current, &mut self.next);
    }

    /// The pair of a state where the side is to move that follows the advice.
    pub fn follow(&self, position: &Position, kind: usize) -> Pair
        requires { IsState self.now.words.game position.now kind }
        ensures pair { result ≡ pair_of (words_by self.now.both.follow) position.now kind }
        ensures rounds { (r : ℕ) → AreReplyRounds self.now r
            → let words = self.now.words in
            result ≡ pair_of
            (reply_rounds (policy_of words) words.game.stakes r Follower) position.now kind }
    {
        let rank = self.words.index().rank(position);
        self.current.follow.pair(rank, kind)
    }

    /// The pair of a state where the side is to move that replies at its best.
    pub fn reply(&self, position: &Position, kind: usize) -> Pair
        requires { IsState self.now.words.game position.now kind }
        ensures pair { result ≡ pair_of (words_by self.now.both.reply) position.now kind }
        ensures rounds { (r : ℕ) → AreReplyRounds self.now r
            → let words = self.now.words in
            result ≡ pair_of
            (reply_rounds (policy_of words) words.game.stakes r Replier) position.now kind }
    {
        let rank = self.words.index().rank(position);
        self.current.reply.pair(rank, kind)
    }
}
