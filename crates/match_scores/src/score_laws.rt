ghost use Rattle.std.specs.Prelude.{◌≡◌, ◌<◌, ◌≤◌, ℕ};
ghost use Rattle.cube_actions.specs.Scores.{MatchScore, IsScore};
ghost use Rattle.cube_actions.specs.Starts.{StartPairs, AreStarts, Covers};
ghost use Rattle.turn_rule.specs.Turn.{Words};
ghost use Rattle.turn_rule.specs.Truth.{Encloses, IsScoring, AreEnclosing, AreSoundFrom};
ghost use Rattle.match_scores.specs.Openings.{start_over};
ghost use Rattle.match_scores.specs.Payoffs.{EndScores, ScoredMatch, IsMeanStart, match_scoring};
ghost use Rattle.match_scores.specs.Ladders.{AreEndScores, HasExactStarts, HasNoOtherStarts, IsScoredMatch, EncloseStarts, game_at_score};

use cube_actions::wins_lead_down_the_ladder;
use move_rules::opening_plays_go_on;

/// Every match has exact starts, however many turns its games have and whatever its unfinished games are worth, and no
/// others.
pub fn each_match_has_exact_starts()
    ensures some { (checkers turns scale : ℕ) (ends : EndScores)
        → 0 < scale → AreEndScores checkers scale ends → HasExactStarts checkers turns scale ends }
    ensures no_other { (checkers : ℕ) (scored : ScoredMatch) → IsScoredMatch checkers scored
        → HasNoOtherStarts checkers scored }
{}

/// Where start pairs enclose the starts of the scores before a score, the exact payoffs of its game, and its end scores,
/// lie within the stakes that these start pairs give.
pub fn enclosing_starts_bound_the_payoffs()
    ensures { (checkers : ℕ) (scored : ScoredMatch) → IsScoredMatch checkers scored
        → (starts : StartPairs) → AreStarts starts → EncloseStarts scored starts
        → (score : MatchScore) → IsScore score → Covers starts score
        → IsScoring (game_at_score checkers score starts) (match_scoring scored score) }
{
    wins_lead_down_the_ladder();
}

/// Then words that are sound for these stakes enclose every state of the game with the exact payoffs of the match, in
/// games of any number of turns from which on they are sound.
pub fn sound_words_enclose_the_game_of_a_score()
    ensures { (checkers : ℕ) (scored : ScoredMatch) → IsScoredMatch checkers scored
        → (starts : StartPairs) → AreStarts starts → EncloseStarts scored starts
        → (score : MatchScore) → IsScore score → Covers starts score
        → (enough : ℕ) (u : Words) → enough ≤ scored.turns
        → AreSoundFrom (game_at_score checkers score starts) enough u
        → AreEnclosing (game_at_score checkers score starts) (match_scoring scored score)
        scored.turns u }
{
    wins_lead_down_the_ladder();
}

/// And the start pair of words that enclose the game of a score encloses the exact start of the score, whatever start
/// pairs the stakes were made from.
pub fn start_pairs_enclose_the_start_of_a_score()
    ensures { (checkers : ℕ) → 1 ≤ checkers → checkers ≤ 3 → (scored : ScoredMatch)
        (score : MatchScore) → IsMeanStart checkers scored score → (starts : StartPairs) (u : Words)
        → AreEnclosing (game_at_score checkers score starts) (match_scoring scored score)
        scored.turns u
        → Encloses (start_over checkers u score) (scored.starts score) scored.scale }
{
    opening_plays_go_on();
}
