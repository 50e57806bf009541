ghost use Rattle.std.specs.Prelude.{◌≡◌, ◌≤◌};
ghost use Rattle.std.specs.List.{position_or_len};
ghost use Rattle.cube_actions.specs.Ladder.{is_of_match, ladder};
ghost use Rattle.cube_actions.specs.Scores.{same_score};

use crate::phase::Phase;
use crate::score::Score;
use arrayvec::ArrayVec;

/// The scores of a match of 1 to 5 points, each after those that a win can lead to: by the rising sum of the points
/// needed, then by the rising need of the near side, and Post before Crawford. There are 1, 3, 7, 12 and 18 of them.
pub fn ladder(length: u8) -> ArrayVec<Score, 18>
    requires from { 1 ≤ length }
    requires to { length ≤ 5 }
    ensures { result.items ≡ ladder length }
{
    let mut scores = ArrayVec::new();
    for score in scores_to_five() {
        if is_of_match(score, length) {
            scores.push(score);
        }
    }
    scores
}

fn is_of_match(score: Score, length: u8) -> bool
    ensures { result ≡ is_of_match length score }
{
    score.far <= length && (score.phase != Phase::Post || score.far == 1 || score.far < length)
}

fn scores_to_five() -> [Score; 18]
    ensures { result ≡ ladder 5 }
{
    [
        post(1),
        post(2),
        crawford(2),
        post(3),
        crawford(3),
        normal(2, 2),
        post(4),
        crawford(4),
        normal(2, 3),
        crawford(5),
        normal(2, 4),
        normal(3, 3),
        normal(2, 5),
        normal(3, 4),
        normal(3, 5),
        normal(4, 4),
        normal(4, 5),
        normal(5, 5),
    ]
}

fn post(far: u8) -> Score
    requires from { 1 ≤ far }
    requires to { far ≤ 5 }
    ensures { result ≡ record { near = 1; far = far; phase = Phase.Post } }
{
    Score {
        near: 1,
        far,
        phase: Phase::Post,
    }
}

fn crawford(far: u8) -> Score
    requires from { 2 ≤ far }
    requires to { far ≤ 5 }
    ensures { result ≡ record { near = 1; far = far; phase = Phase.Crawford } }
{
    Score {
        near: 1,
        far,
        phase: Phase::Crawford,
    }
}

fn normal(near: u8, far: u8) -> Score
    requires from { 2 ≤ near }
    requires in_order { near ≤ far }
    requires to { far ≤ 5 }
    ensures { result ≡ record { near = near; far = far; phase = Phase.Normal } }
{
    Score {
        near,
        far,
        phase: Phase::Normal,
    }
}

/// How many of the scores stand before this one; all of them where it isn't there.
pub(crate) fn place_in(scores: &[Score], score: Score) -> usize
    ensures { result ≡ position_or_len (same_score score) scores.now }
{
    scores
        .iter()
        .position(|other| score.is(*other))
        .unwrap_or(scores.len())
}
