ghost use Rattle.std.specs.Prelude.{map, ◌≡◌, ◌≤◌, ◌<◌, ◌↔◌, ℕ, length};
ghost use Rattle.std.specs.List.{AllPairs, Contains};
ghost use Rattle.cube_actions.specs.declared.kind.Kind.{Kind};
ghost use Rattle.cube_actions.specs.declared.side.Side.{Side};
ghost use Rattle.cube_actions.specs.Ladder.{IsOfMatch, ScoreComesBefore, ladder};
ghost use Rattle.cube_actions.specs.Matches.{answers_in, after_win, terms_of};
ghost use Rattle.cube_actions.specs.Scores.{MatchScore, needs};
ghost use Rattle.cube_actions.specs.Starts.{StartPairs, ladder_place};

/// A ladder has the scores of its match, each after those that come before it by the rule.
pub fn ladders_are_exact()
    ensures scores { (match_length : ℕ) → 1 ≤ match_length → match_length ≤ 5
        → (score : MatchScore)
        → (Contains (ladder match_length) score ↔ IsOfMatch match_length score) }
    ensures order { (match_length : ℕ) → 1 ≤ match_length → match_length ≤ 5
        → AllPairs ScoreComesBefore (ladder match_length) }
{}

/// A win that doesn't end the match leads to a score of the match that comes earlier in the ladder.
pub fn wins_lead_down_the_ladder()
    ensures { (match_length : ℕ) (score : MatchScore) (winner : Side) (won : ℕ)
        → 1 ≤ match_length → match_length ≤ 5
        → ladder_place match_length score < length (ladder match_length)
        → 1 ≤ won → won < needs score winner
        → ladder_place match_length (after_win score winner won)
        < ladder_place match_length score }
{}

/// Whatever the scores after it are worth, the next kinds and the answers to doubles of a game are the same.
pub fn cubes_come_of_the_score()
    ensures next { (score : MatchScore) (starts others : StartPairs)
        → map (λ (kind : Kind). kind.next) (terms_of score starts).kinds
        ≡ map (λ (kind : Kind). kind.next) (terms_of score others).kinds }
    ensures answers { (score : MatchScore) (starts others : StartPairs)
        → map answers_in (terms_of score starts).kinds
        ≡ map answers_in (terms_of score others).kinds }
{}
