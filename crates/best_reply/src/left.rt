ghost use Rattle.std.specs.Prelude.{◌≡◌, ◌<◌, ◌^◌, None, sum};
ghost use Rattle.position_rank.specs.Placement.{IsLive, swap};
ghost use Rattle.position_rank.specs.LiveRanks.{live_rank_of};
ghost use Rattle.move_rules.specs.Payoff.{points};
ghost use Rattle.best_reply.specs.Tables.{IsRight};

use interval_words::LiveIndex;
use move_rules::{Won, points};
use position_rank::Position;

/// The live rank of a position. Of one to three checkers a side there are far fewer positions than a
/// `u32` can tell apart.
fn small_rank(index: &LiveIndex, position: &Position) -> u64
    requires live { IsLive position.now }
    requires checkers { sum position.now.mover ≡ index.now }
    ensures rank { result ≡ live_rank_of position.now }
    ensures small { result < 2 ^ 24 }
{
    // What `checkers` ensures says that there are one to three.
    let _checkers = index.checkers();
    index.rank(position)
}

/// What a play leaves: how the game was won, or else the live rank of the other side's position.
#[derive(Clone, Copy, Default)]
pub(crate) struct Left {
    pub(crate) end: Position,
    pub(crate) won: Option<Won>,
    pub(crate) rank: u64,
}

impl Left {
    /// What a play leaves that ends so.
    pub(crate) fn of(end: &Position, index: &LiveIndex) -> Left
        requires live { points end.now ≡ None → IsLive (swap end.now) }
        requires checkers { points end.now ≡ None → sum (swap end.now).mover ≡ index.now }
        ensures end { result.end ≡ end.now }
        ensures right { IsRight result }
    {
        let won = points(end);
        let rank = match won {
            Some(_) => 0,
            None => small_rank(index, &end.swap()),
        };
        Left {
            end: *end,
            won,
            rank,
        }
    }
}
