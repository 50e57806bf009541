ghost use Rattle.std.specs.Prelude.{◌≡◌, ◌≤◌, ◌<◌};
ghost use Rattle.worker_sweep.specs.Blocks.{blocks};

use interval_words::Board;
use position_rank::layout_count;

/// How many blocks there are of one to three checkers a side: one for each layout of the other side.
pub fn blocks_of(checkers: u8) -> u64
    requires low { 1 ≤ checkers }
    requires high { checkers ≤ 3 }
    ensures blocks { result ≡ blocks checkers }
    ensures some { 0 < result }
    ensures small { result ≤ 3276 }
{
    u64::from(layout_count(checkers))
}

/// How many blocks a board has.
pub(crate) fn block_count(board: &Board) -> u64
    ensures blocks { result ≡ blocks board.now.game.checkers }
    ensures some { 0 < result }
    ensures small { result ≤ 3276 }
{
    blocks_of(board.checkers())
}
