ghost use Rattle.std.specs.Prelude.{ℕ};
ghost use Rattle.position_rank.specs.Placement.{Placement};
ghost use Rattle.turn_rule.specs.Games.{IsGame};
ghost use Rattle.turn_rule.specs.States.{IsState};
ghost use Rattle.interval_words.specs.WordLists.{WordList};
ghost use Rattle.whole_file_commands.specs.Replies.{HoldsReplying};

use best_reply::{
    following_gives_no_more_and_replying_no_less, one_play_is_advised,
    reply_rounds_enclose_longer_games,
};

/// What is known of a reply holds in each state, whatever the words are that advise the plays.
pub fn replies_hold_for_any_words()
    ensures { (words : WordList) → IsGame words.game → (rounds : ℕ) (p : Placement) (k : ℕ)
        → IsState words.game p k → HoldsReplying words rounds p k }
{
    one_play_is_advised();
    reply_rounds_enclose_longer_games();
    following_gives_no_more_and_replying_no_less();
}
