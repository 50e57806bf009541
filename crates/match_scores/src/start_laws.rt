ghost use Rattle.std.specs.Prelude.{◌≡◌, ◌≤◌, ◌*◌, ◌^◌, ℕ};
ghost use Rattle.directed_fixed.specs.Bounds.{AreNoLooserPairs};
ghost use Rattle.cube_actions.specs.Scores.{MatchScore};
ghost use Rattle.cube_actions.specs.Starts.{StartPairs};
ghost use Rattle.turn_rule.specs.Turn.{Words};
ghost use Rattle.turn_rule.specs.States.{AreNoLooser};
ghost use Rattle.turn_rule.specs.Exact.{Scoring, exact};
ghost use Rattle.turn_rule.specs.Truth.{Encloses, AreEnclosing};
ghost use Rattle.match_scores.specs.Openings.{start_over, thirty_starts};
ghost use Rattle.match_scores.specs.Ladders.{game_at_score};

use move_rules::opening_plays_go_on;

/// Tighter words of the game at a score give a start pair that is at least as tight.
pub fn tighter_words_tighten_starts()
    ensures { (checkers : ℕ) → 1 ≤ checkers → checkers ≤ 3
        → (score : MatchScore) (starts : StartPairs) (u v : Words)
        → AreNoLooser (game_at_score checkers score starts) u v
        → AreNoLooserPairs (start_over checkers u score) (start_over checkers v score) }
{
    opening_plays_go_on();
}

/// Words that enclose every state of the game at a score give a start pair that encloses what the near side has of the
/// game, however it is scored. The opening play isn't one of the turns: values are counted over 30 times as much.
pub fn words_that_enclose_give_starts_that_enclose()
    ensures { (checkers : ℕ) → 1 ≤ checkers → checkers ≤ 3
        → (score : MatchScore) (starts : StartPairs) (scoring : Scoring) (turns : ℕ) (u : Words)
        → AreEnclosing (game_at_score checkers score starts) scoring turns u
        → Encloses (start_over checkers u score)
        (thirty_starts checkers (exact (game_at_score checkers score starts).stakes scoring turns) score)
        (30 * (scoring.scale * 36 ^ turns)) }
{
    opening_plays_go_on();
}
