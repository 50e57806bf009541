ghost use Rattle.std.specs.Prelude.{◌≡◌, Some};
ghost use Rattle.cube_actions.specs.Matches.{next_phase};
ghost use Rattle.cube_actions.specs.Scores.{IsScore};
ghost use Rattle.game_record.specs.Standings.{standing_after_win, first_standing, points_needed, at_score, side_of};

use crate::player::Player;
use crate::record::RecordStakes;
use cube_actions::{Phase, Score, Side};

/// How a match stands.
#[derive(Clone, Copy)]
pub struct Standing {
    /// How many points A still needs: 0 where A has won the match, and for money.
    pub a: u8,
    /// How many B needs.
    pub b: u8,
    pub phase: Phase,
}

impl Standing {
    /// As the first game begins.
    pub fn first(stakes: RecordStakes) -> Standing
        ensures { result ≡ first_standing stakes }
    {
        match stakes {
            RecordStakes::Unlimited(_) => Standing {
                a: 0,
                b: 0,
                phase: Phase::Normal,
            },
            RecordStakes::Match(length) => Standing {
                a: length,
                b: length,
                phase: if length == 1 {
                    Phase::Post
                } else {
                    Phase::Normal
                },
            },
        }
    }

    /// How many points a player still needs.
    pub(crate) fn needs(self, player: Player) -> u8
        ensures { result ≡ points_needed self player }
    {
        match player {
            Player::A => self.a,
            Player::B => self.b,
        }
    }

    /// The side of a player: A is near where A needs at most what B needs.
    pub(crate) fn side_of(self, player: Player) -> Side
        ensures { result ≡ side_of self player }
    {
        let near = if self.a <= self.b {
            Player::A
        } else {
            Player::B
        };
        if player == near {
            Side::Near
        } else {
            Side::Far
        }
    }

    /// What both sides need, and the phase.
    pub(crate) fn score(self) -> Score
        requires { IsScore (at_score self) }
        ensures { result ≡ at_score self }
    {
        Score {
            near: self.a.min(self.b),
            far: self.a.max(self.b),
            phase: self.phase,
        }
    }

    /// After a player has won so many points.
    pub(crate) fn after_win(self, winner: Player, won: u8) -> Standing
        ensures { result ≡ standing_after_win self winner won }
    {
        let (a, b) = match winner {
            Player::A => (self.a.saturating_sub(won), self.b),
            Player::B => (self.a, self.b.saturating_sub(won)),
        };
        let phase = next_phase(self.phase, a, b);
        Standing { a, b, phase }
    }
}

fn next_phase(phase: Phase, a: u8, b: u8) -> Phase
    ensures { result ≡ next_phase phase a b }
{
    match phase {
        Phase::Normal if a == 1 || b == 1 => Phase::Crawford,
        Phase::Normal => Phase::Normal,
        Phase::Crawford | Phase::Post => Phase::Post,
    }
}
