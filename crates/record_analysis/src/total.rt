ghost use Rattle.std.specs.Prelude.{◌≡◌, ◌<◌, ◌≤◌, ◌+◌, ◌+ℤ◌, All, length};
ghost use Rattle.record_analysis.specs.Analyses.{IsSmallJudged, IsSmallLoss};
ghost use Rattle.record_analysis.specs.Totals.{IsSmallTotal, loss_by, losses_by, total_of};

use crate::analysis::{Analysis, Judged};
use directed_fixed::{Fixed, Pair};
use game_record::Player;

/// How many decisions were judged, and the sums of the lower and of the upper ends of their pairs.
#[derive(Clone, Copy)]
pub struct Total {
    pub decisions: u32,
    pub lower: Fixed,
    pub upper: Fixed,
}

impl Total {
    /// With a further decision, which loses this.
    fn with(self, pair: Pair) -> Total
        requires total { IsSmallTotal self }
        requires pair { IsSmallLoss pair }
        requires few { self.decisions < 131072 }
        ensures decisions { result.decisions ≡ self.decisions + 1 }
        ensures lower { result.lower ≡ self.lower +ℤ pair.lower }
        ensures upper { result.upper ≡ self.upper +ℤ pair.upper }
        ensures small { IsSmallTotal result }
    {
        Total {
            decisions: self.decisions + 1,
            lower: self.lower.add(pair.lower()),
            upper: self.upper.add(pair.upper()),
        }
    }
}

/// What a decision loses, if it is this player's and was judged.
fn loss_by(judged: &Judged, player: Player) -> Option<Pair>
    ensures { result ≡ loss_by player judged.now }
{
    if judged.decision.player == player {
        judged.loss
    } else {
        None
    }
}

fn total_by(list: &[Judged], player: Player) -> Total
    requires few { length list.now ≤ 131072 }
    requires small { All IsSmallJudged list.now }
    ensures total { result ≡ total_of (losses_by player list.now) }
    ensures small { IsSmallTotal result }
{
    let mut total = Total {
        decisions: 0,
        lower: Fixed::whole(0),
        upper: Fixed::whole(0),
    };
    for judged in list {
        total = match loss_by(judged, player) {
            Some(pair) => total.with(pair),
            None => total,
        };
    }
    total
}

impl Analysis {
    /// How many decisions of a player were judged, and what they lose together: the sums of the lower
    /// and of the upper ends of their pairs.
    pub fn total(&self, player: Player) -> Total
        ensures total { result ≡ total_of (losses_by player self.now) }
        ensures small { IsSmallTotal result }
    {
        total_by(self.as_slice(), player)
    }
}
