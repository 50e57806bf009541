ghost use Rattle.std.specs.Prelude.{◌≡◌, ◌<◌, ◌^◌, Some, None};
ghost use Rattle.best_reply.specs.Tables.{IsRight};
ghost use Rattle.best_reply.specs.Outcomes.{IsOutcomeOf, rank_in, won_in};

use crate::left::Left;
use move_rules::Won;

/// How many numbers stand for wins.
const WINS: u32 = 3;

/// What a play leaves, in four bytes: how the game was won, or else the live rank of the other side's
/// position.
#[derive(Clone, Copy)]
pub(crate) struct Outcome {
    number: u32,
}

impl Outcome {
    /// That of a win.
    fn of_win(won: Won) -> Outcome
        ensures { won_in result ≡ Some won }
    {
        match won {
            Won::Single => Outcome { number: 0 },
            Won::Gammon => Outcome { number: 1 },
            Won::Backgammon => Outcome { number: 2 },
        }
    }

    /// That of a play after which the other side's position has this live rank.
    fn of_rank(rank: u64) -> Outcome
        requires { rank < 2 ^ 24 }
        ensures goes_on { won_in result ≡ None }
        ensures rank { rank_in result ≡ rank }
    {
        Outcome {
            number: WINS + rank as u32,
        }
    }

    /// That of a play.
    pub(crate) fn of(left: &Left) -> Outcome
        requires { IsRight left.now }
        ensures { IsOutcomeOf left.now.end result }
    {
        match left.won {
            Some(won) => Outcome::of_win(won),
            None => Outcome::of_rank(left.rank),
        }
    }

    /// How the play has won.
    #[inline]
    pub(crate) fn won(self) -> Option<Won>
        ensures { result ≡ won_in self }
    {
        if self.number == 0 {
            Some(Won::Single)
        } else if self.number == 1 {
            Some(Won::Gammon)
        } else if self.number == 2 {
            Some(Won::Backgammon)
        } else {
            None
        }
    }

    /// The live rank of the other side's position, where the play hasn't won.
    #[inline]
    pub(crate) fn rank(self) -> u64
        ensures { result ≡ rank_in self }
    {
        u64::from(self.number.saturating_sub(WINS))
    }
}
