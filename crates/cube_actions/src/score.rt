ghost use Rattle.std.specs.Prelude.{◌≡◌, ◌↔◌, IsOk, IfOk, IsErrOf};
ghost use Rattle.cube_actions.specs.Scores.{AreNeeds, IsPhaseOf, IsScore, last_game, needs, same_score};

use crate::phase::Phase;
use crate::side::Side;
use std::marker::Model;

/// The points that the two sides of a match still need, 1 to 5, the smaller number first.
#[derive(Clone, Copy, PartialEq, Eq)]
pub struct Score {
    pub near: u8,
    pub far: u8,
    pub phase: Phase,
}

impl Model for Score {
    ghost use Rattle.cube_actions.specs.Scores.{MatchScore, IsScore};

    ghost Value = { MatchScore };

    ghost view = { λ a. record { near = a.near; far = a.far; phase = a.phase } };

    ghost invariant = { λ a. IsScore (record { near = a.near; far = a.far; phase = a.phase }) };

    ghost inverse = { λ s. record { near = s.near; far = s.far; phase = s.phase } };
}

/// Why numbers and a phase are no score.
#[derive(Clone, Copy)]
pub enum BadScore {
    /// The numbers aren't 1 to 5, the smaller first.
    Range = 1,
    /// They are, and the phase isn't one of theirs.
    Phase = 2,
}

impl Default for Score {
    ghost is_default = { λ score. score ≡ last_game };

    /// Both sides need a point.
    fn default() -> Self {
        Score {
            near: 1,
            far: 1,
            phase: Phase::Post,
        }
    }
}

impl Score {
    /// Both sides need two points or more before the Crawford game, one side one and the other more in it, one side one after it.
    pub fn new(near: u8, far: u8, phase: Phase) -> Result<Score, BadScore>
        ensures ok { IsOk result ↔ (AreNeeds near far × IsPhaseOf near far phase) }
        ensures range { IsErrOf result BadScore.Range ↔ (AreNeeds near far → ⊥) }
        ensures value { IfOk result (λ score.
            score ≡ record { near = near; far = far; phase = phase }) }
    {
        if near < 1 || near > far || far > 5 {
            return Err(BadScore::Range);
        }
        let fits = match phase {
            Phase::Normal => near >= 2,
            Phase::Crawford => near == 1 && far >= 2,
            Phase::Post => near == 1,
        };
        if fits {
            Ok(Score { near, far, phase })
        } else {
            Err(BadScore::Phase)
        }
    }

    /// How many points a side still needs, 1 to 5.
    pub fn needs(self, side: Side) -> u8
        ensures needs { result ≡ needs self side }
        ensures valid { IsScore self }
    {
        match side {
            Side::Near => self.near,
            Side::Far => self.far,
        }
    }

    /// Whether the two are the same score.
    pub(crate) fn is(self, other: Score) -> bool
        ensures { result ≡ same_score self other }
    {
        self == other
    }
}
