ghost use Rattle.std.specs.Prelude.{◌≡◌, ◌<◌, ◌+◌, ◌*◌, ℕ, All, length};
ghost use Rattle.position_rank.specs.Placement.{Placement};
ghost use Rattle.position_rank.specs.LiveRanks.{live_positions, live_rank_of};
ghost use Rattle.roll_table.specs.Rolls.{all_rolls};
ghost use Rattle.cube_actions.specs.Stakes.{IsValid};
ghost use Rattle.turn_rule.specs.Games.{IsGame, kinds_of};
ghost use Rattle.turn_rule.specs.States.{IsState};
ghost use Rattle.best_reply.specs.ReplyPairs.{turn_by};
ghost use Rattle.best_reply.specs.Tables.{IsBankOf, IsFilledTo, ArePairsPut, IsRightBank, IsSmallSum, follow_sum, policy_of, sums_in, turn_from, words_by};
ghost use Rattle.best_reply.specs.Outcomes.{IsAdvisedTo};
ghost use Rattle.column_turns.specs.Columns.{IsRoomOf};
ghost use Rattle.best_reply.specs.Sides.{AreBanksOf, AreRightBanks, AreSwept};

use crate::advice::Advice;
use crate::bank::Bank;
use crate::columns::sweep_columns;
use crate::turns::turn;
use arrayvec::ArrayVec;
use column_turns::ColumnTurns;
use cube_actions::Stakes;
use directed_fixed::Pair;
use interval_words::Words;
use roll_table::{Roll, rolls};

/// Both sides' pairs: of each state where the follower is to move, and where the replier is.
#[derive(Drop)]
pub(crate) struct Banks {
    pub(crate) follow: Bank,
    pub(crate) reply: Bank,
}

/// For each kind, the sum of what the advised plays leave by the replier's pairs, from the position
/// with this live rank.
fn follow_sums(
    rank: u64,
    rolls: &[(Roll, u64)],
    words: &Words,
    advice: &Advice,
    bank: &Bank,
) -> ArrayVec<Pair, 14>
    requires game { IsGame words.now.game }
    requires rank { rank < live_positions words.now.game.checkers }
    requires rolls { rolls.now ≡ all_rolls }
    requires advice { IsAdvisedTo words.now (live_positions words.now.game.checkers) advice.now }
    requires bank { IsRightBank words.now.game bank.now }
    ensures many { length result.items ≡ kinds_of words.now.game }
    ensures small { All IsSmallSum result.items }
    ensures sums { (p : Placement) (k : ℕ) → IsState words.now.game p k → live_rank_of p ≡ rank
        → sums_in result.items k ≡ follow_sum (policy_of words.now) words.now.game.stakes
        (words_by bank.now) p k }
{
    let mut sums = ArrayVec::new();
    for number in 0..words.stakes().kinds() {
        sums.push(advice.follow_sum(rank, number, rolls, words, bank));
    }
    sums
}

/// Puts the turns of a position with this live rank, from the sums of all kinds.
fn put_turns(rank: u64, stakes: &Stakes, sums: &[Pair], bank: &mut Bank)
    requires many { length sums.now ≡ length stakes.now.kinds }
    requires small { All IsSmallSum sums.now }
    requires kinds { bank.old.kinds ≡ length stakes.now.kinds }
    requires inside { (k : ℕ) → k < bank.old.kinds
        → rank * bank.old.kinds + k < length bank.old.pairs }
    ensures put { ArePairsPut rank (turn_from stakes.now (sums_in sums.now)) bank.old bank.new }
    ensures valid { IsValid stakes.now }
{
    for number in 0..stakes.kinds() {
        bank.set(rank, number, turn(stakes, number, sums));
    }
}

/// Gives the position with this live rank the follower's turn, in each kind.
fn sweep_position(
    rank: u64,
    rolls: &[(Roll, u64)],
    words: &Words,
    advice: &Advice,
    old: &Bank,
    new: &mut Bank,
)
    requires game { IsGame words.now.game }
    requires rank { rank < live_positions words.now.game.checkers }
    requires rolls { rolls.now ≡ all_rolls }
    requires advice { IsAdvisedTo words.now (live_positions words.now.game.checkers) advice.now }
    requires old { IsRightBank words.now.game old.now }
    requires before { IsFilledTo words.now.game
        (turn_by (policy_of words.now) words.now.game.stakes (words_by old.now)) rank new.old }
    ensures { IsFilledTo words.now.game
        (turn_by (policy_of words.now) words.now.game.stakes (words_by old.now)) (rank + 1) new.new }
{
    let sums = follow_sums(rank, rolls, words, advice, old);
    put_turns(rank, words.stakes(), &sums, new);
}

/// Gives every state the follower's turn over the replier's pairs.
fn sweep_follower(words: &Words, advice: &Advice, old: &Bank, new: &mut Bank)
    requires advice { IsAdvisedTo words.now (live_positions words.now.game.checkers) advice.now }
    requires old { IsRightBank words.now.game old.now }
    requires new { IsBankOf words.now.game new.old }
    ensures { IsFilledTo words.now.game
        (turn_by (policy_of words.now) words.now.game.stakes (words_by old.now))
        (live_positions words.now.game.checkers) new.new }
{
    // Right words are those of a game.
    words.right();
    let rolls = rolls();
    for rank in 0..words.index().count() {
        sweep_position(rank, &rolls, words, advice, old, new);
    }
}

/// Gives every state its turn, for either side to move, over the other side's old pairs.
pub(crate) fn sweep(
    words: &Words,
    advice: &Advice,
    turns: &mut ColumnTurns,
    old: &Banks,
    new: &mut Banks,
)
    requires advice { IsAdvisedTo words.now (live_positions words.now.game.checkers) advice.now }
    requires room { IsRoomOf words.now.game turns.old }
    requires old { AreRightBanks words.now.game old.now }
    requires new { AreBanksOf words.now.game new.old }
    ensures room { IsRoomOf words.now.game turns.new }
    ensures swept { AreSwept words.now old.now new.new }
{
    sweep_follower(words, advice, &old.reply, &mut new.follow);
    sweep_columns(words, turns, &old.follow, &mut new.reply);
}
