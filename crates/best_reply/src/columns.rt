ghost use Rattle.std.specs.Prelude.{◌≡◌, ◌<◌, ◌+◌, ◌*◌, ℕ, length};
ghost use Rattle.position_rank.specs.Ranks.{layouts};
ghost use Rattle.position_rank.specs.LiveRanks.{live_positions};
ghost use Rattle.turn_rule.specs.Turn.{turn};
ghost use Rattle.best_reply.specs.Tables.{IsBankOf, IsFilledTo, ArePairsPut, IsRightBank, words_by};
ghost use Rattle.best_reply.specs.Columns.{AreColumnsFilled};
ghost use Rattle.column_turns.specs.Columns.{IsRoomOf, pair_in};

use crate::bank::Bank;
use crate::bank_reader::BankReader;
use column_turns::ColumnTurns;
use interval_words::Words;

/// Puts the pairs of one of a column's positions, which has this live rank.
fn put_pairs(rank: u64, turns: &ColumnTurns, i: usize, bank: &mut Bank)
    requires position { i < length turns.now.movers }
    requires kinds { turns.now.kinds ≡ bank.old.kinds }
    requires inside { (k : ℕ) → k < bank.old.kinds
        → rank * bank.old.kinds + k < length bank.old.pairs }
    ensures { ArePairsPut rank (pair_in turns.now i) bank.old bank.new }
{
    for number in 0..turns.kinds() {
        bank.set(rank, number, turns.pair(i, number));
    }
}

/// Gives each state of a column its turn over the other side's pairs.
fn sweep_column(other: usize, words: &Words, turns: &mut ColumnTurns, old: &Bank, new: &mut Bank)
    requires other { other < layouts words.now.game.checkers }
    requires room { IsRoomOf words.now.game turns.old }
    requires old { IsRightBank words.now.game old.now }
    requires before { AreColumnsFilled words.now.game
        (turn words.now.game.stakes (words_by old.now)) other new.old }
    ensures room { IsRoomOf words.now.game turns.new }
    ensures filled { AreColumnsFilled words.now.game
        (turn words.now.game.stakes (words_by old.now)) (other + 1) new.new }
{
    let mut reader = BankReader::of(words, old);
    turns.fill(other, words.stakes(), &mut reader);
    for i in 0..turns.len() {
        let rank = words.index().rank(&turns.position(i));
        put_pairs(rank, turns, i, new);
    }
}

/// Gives every state its turn over the other side's pairs, a column after the other.
pub(crate) fn sweep_columns(words: &Words, turns: &mut ColumnTurns, old: &Bank, new: &mut Bank)
    requires room { IsRoomOf words.now.game turns.old }
    requires old { IsRightBank words.now.game old.now }
    requires new { IsBankOf words.now.game new.old }
    ensures room { IsRoomOf words.now.game turns.new }
    ensures filled { IsFilledTo words.now.game (turn words.now.game.stakes (words_by old.now))
        (live_positions words.now.game.checkers) new.new }
{
    for other in 0..turns.layouts() {
        sweep_column(other, words, turns, old, new);
    }
}
