ghost use Rattle.std.specs.Prelude.{◌≤◌, ℕ};
ghost use Rattle.cube_actions.specs.Starts.{StartPairs, AreStarts};
ghost use Rattle.interval_words.specs.WordLists.{WordList};
ghost use Rattle.match_scores.specs.Ladders.{IsSolved, IsLadder};

use cube_actions::{ladders_are_exact, wins_lead_down_the_ladder};
use move_rules::opening_plays_go_on;

/// Where each start pair is that of closed words of its score's game, for the start pairs before it, the ladder is true
/// and tight. There is one number of turns from which on, whatever unfinished games are worth, the words of each score
/// enclose its game and each start pair encloses the start of its score. Start pairs are at least as tight as the plain
/// ones, and words as the rounds for the stakes of these.
pub fn solved_ladders_are_true_and_tight()
    ensures { (checkers r : ℕ) → 1 ≤ checkers → checkers ≤ 3
        → (starts : StartPairs) → AreStarts starts
        → (words : ℕ → WordList) → IsSolved checkers r starts words
        → IsLadder checkers r starts words }
{
    opening_plays_go_on();
    wins_lead_down_the_ladder();
    ladders_are_exact();
}
