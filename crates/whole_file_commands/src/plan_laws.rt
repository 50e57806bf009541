ghost use Rattle.std.specs.Prelude.{◌≤◌, ℕ};
ghost use Rattle.cube_actions.specs.Starts.{StartPairs};
ghost use Rattle.interval_words.specs.WordLists.{WordList};
ghost use Rattle.database_file.specs.FileBases.{FileBase};
ghost use Rattle.whole_file_commands.specs.Plans.{EndsLadder, HoldsInTheEnd, HoldsInside, planned_starts};

use cube_actions::wins_lead_down_the_ladder;

/// Take points and gammon prices from start pairs enclose those of all exact starts inside the pairs.
pub fn plans_hold_inside_their_pairs()
    ensures { (plan : StartPairs) → HoldsInside plan }
{}

/// Those from the last file of a match that was solved enclose, from one number of turns on, those of the match itself.
pub fn plans_of_solved_matches_hold_in_the_end()
    ensures { (base : FileBase) (starts : StartPairs) (words : ℕ → WordList)
        → 1 ≤ base.head.starts.match_length → base.head.starts.match_length ≤ 5
        → EndsLadder base starts words
        → HoldsInTheEnd base.head.checkers (planned_starts base) }
{
    wins_lead_down_the_ladder();
}
