ghost use Rattle.std.specs.Prelude.{◌≡◌, ◌<◌, ◌^◌, length};
ghost use Rattle.position_rank.specs.Ranks.{square_rank_of};
ghost use Rattle.turn_rule.specs.Games.{game_of};
ghost use Rattle.turn_rule.specs.States.{IsState};
ghost use Rattle.interval_words.specs.Numbers.{state_of, states_in};

use crate::live_index::LiveIndex;
use cube_actions::Stakes;
use position_rank::Position;

/// The number of a state, from 0: the position's live rank times the number of kinds, and the kind.
#[inline]
pub(crate) fn state_number(
    index: &LiveIndex,
    stakes: &Stakes,
    position: &Position,
    kind: usize,
) -> u64
    requires { IsState (game_of index.now stakes.now) position.now kind }
    ensures number { result ≡ state_of (length stakes.now.kinds) position.now kind }
    ensures below { result < states_in index.now (length stakes.now.kinds) }
{
    state_number_at(index, stakes, position, position.square_rank(), kind)
}

/// `state_number` of a position whose square rank is at hand.
#[inline]
pub(crate) fn state_number_at(
    index: &LiveIndex,
    stakes: &Stakes,
    position: &Position,
    square: u64,
    kind: usize,
) -> u64
    requires state { IsState (game_of index.now stakes.now) position.now kind }
    requires square { square ≡ square_rank_of position.now }
    ensures number { result ≡ state_of (length stakes.now.kinds) position.now kind }
    ensures below { result < states_in index.now (length stakes.now.kinds) }
{
    index.rank_at(position, square) * stakes.kinds() as u64 + kind as u64
}

/// How many states there are.
pub(crate) fn state_count(index: &LiveIndex, stakes: &Stakes) -> usize
    ensures count { result ≡ states_in index.now (length stakes.now.kinds) }
    ensures some { 0 < result }
    ensures small { result < 2 ^ 36 }
{
    // The index has positions of one to three checkers a side.
    let _checkers = index.checkers();
    index.count() as usize * stakes.kinds()
}
