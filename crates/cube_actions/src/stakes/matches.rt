ghost use Rattle.std.specs.Prelude.{◌≡◌, ◌<◌, ◌≤◌, ◌-◌, length};
ghost use Rattle.cube_actions.specs.Ladder.{ladder};
ghost use Rattle.cube_actions.specs.MatchKinds.{match_kinds};
ghost use Rattle.cube_actions.specs.Matches.{next_phase, next_score};
ghost use Rattle.cube_actions.specs.Scores.{IsScore};
ghost use Rattle.cube_actions.specs.Starts.{AreStarts, Covers, ladder_place};

use crate::kind::{Double, Kind, Taken};
use crate::match_kind::{MatchKind, match_kinds, number_in};
use crate::name::StakesName;
use crate::phase::Phase;
use crate::score::Score;
use crate::score_order::{ladder, place_in};
use crate::side::Side;
use crate::stakes::Stakes;
use crate::starts::Starts;
use arrayvec::ArrayVec;
use directed_fixed::{Fixed, Pair};

/// A game of a match: its score and kinds, and the scores of the match with what the first of them are worth.
#[derive(Clone, Copy)]
struct MatchGame<'a> {
    score: Score,
    kinds: &'a [MatchKind],
    scores: &'a [Score],
    starts: &'a Starts,
    ghost have_starts: { AreStarts starts.now },
    ghost covered: { Covers starts.now score },
    ghost in_order: { scores.now ≡ ladder starts.now.match_length },
    ghost of_score: { kinds.now ≡ match_kinds score },
}

impl Stakes {
    ghost use Rattle.cube_actions.specs.Matches.{terms_of};

    /// A game of a match, given what the scores are worth that a win leads to. A value is match equity: 1 for a match
    /// that is won, -1 for one that is lost.
    ///
    /// For each place of the cube there are two kinds, the near side to move and then the far side. First comes the
    /// centred cube, then the cube at 2, 4 and 8, each owned by the near side and by the far side where they can own it.
    pub fn of_score(score: Score, starts: &Starts) -> Stakes
        requires { Covers starts.now score }
        ensures { result ≡ terms_of score starts.now }
    {
        let match_kinds = match_kinds(score);
        let scores = ladder(starts.match_length());
        let game = MatchGame {
            score,
            kinds: match_kinds.as_slice(),
            scores: scores.as_slice(),
            starts,
        };
        let mut kinds = ArrayVec::new();
        for kind in match_kinds.as_slice() {
            kinds.push(game.kind(*kind));
        }
        Stakes {
            kinds,
            bound: Fixed::whole(1),
            name: StakesName::Match(score),
        }
    }
}

impl MatchGame<'_> {
    ghost use Rattle.cube_actions.specs.Matches.{match_kind, right_to_double, next_score, next_value, value_of_win};

    fn kind(&self, kind: MatchKind) -> Kind
        requires from { 1 ≤ kind.cube }
        requires to { kind.cube ≤ 8 }
        ensures { result ≡ match_kind self.now.starts.now self.now.score kind }
    {
        Kind {
            next: number_in(self.kinds, kind.after_play()),
            win: [
                self.value_of_win(kind.mover, kind.cube),
                self.value_of_win(kind.mover, 2 * kind.cube),
                self.value_of_win(kind.mover, 3 * kind.cube),
            ],
            double: self.right_to_double(kind),
        }
    }

    fn right_to_double(&self, kind: MatchKind) -> Option<Double>
        requires from { 1 ≤ kind.cube }
        requires to { kind.cube ≤ 8 }
        ensures { result ≡ right_to_double self.now.starts.now self.now.score kind }
    {
        if !kind.may_double(self.score) {
            return None;
        }
        let mut answers = ArrayVec::new();
        answers.push(Taken {
            kind: number_in(self.kinds, kind.after_take()),
            factor: 1,
        });
        Some(Double {
            pass: self.value_of_win(kind.mover, kind.cube),
            answers,
        })
    }

    /// What a side has of winning so many points.
    fn value_of_win(&self, winner: Side, won: u8) -> Pair
        requires { 1 ≤ won }
        ensures { result ≡ value_of_win self.now.starts.now self.now.score winner won }
    {
        let own = self.score.needs(winner);
        let others = self.score.needs(winner.other());
        if own <= won {
            Pair::exactly(Fixed::whole(1))
        } else {
            self.next_value(winner, own - won, others)
        }
    }

    /// What the winner of this game has of the next one, by what the two sides then need.
    fn next_value(&self, winner: Side, own: u8, others: u8) -> Pair
        requires { ladder_place self.now.starts.now.match_length
            (next_score self.now.score.phase own others)
            < length self.now.starts.now.pairs }
        ensures { result ≡ next_value self.now.starts.now self.now.score.phase winner own others }
    {
        let score = self.score;
        let next = next_score(score.phase, own, others);
        let pair = self.starts.pair(place_in(self.scores, next));
        let stays_near = match winner {
            Side::Near => own <= others,
            Side::Far => own < others,
        };
        if stays_near { pair } else { pair.neg() }
    }
}

fn next_score(phase: Phase, own: u8, others: u8) -> Score
    requires { IsScore (next_score phase own others) }
    ensures { result ≡ next_score phase own others }
{
    Score {
        near: own.min(others),
        far: own.max(others),
        phase: next_phase(phase, own, others),
    }
}

fn next_phase(phase: Phase, own: u8, others: u8) -> Phase
    ensures { result ≡ next_phase phase own others }
{
    match phase {
        Phase::Normal if own == 1 || others == 1 => Phase::Crawford,
        Phase::Normal => Phase::Normal,
        Phase::Crawford | Phase::Post => Phase::Post,
    }
}
