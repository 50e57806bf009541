ghost use Rattle.std.specs.Prelude.{◌≡◌, ◌≤◌, ◌+◌, ◌*◌, ◌^◌, ℕ};
ghost use Rattle.position_rank.specs.Placement.{Placement};
ghost use Rattle.roll_table.specs.Rolls.{Dice};
ghost use Rattle.cube_actions.specs.Stakes.{Terms};
ghost use Rattle.turn_rule.specs.declared.game.Game.{Game};
ghost use Rattle.turn_rule.specs.Games.{IsGame};
ghost use Rattle.turn_rule.specs.Turn.{Words};
ghost use Rattle.turn_rule.specs.States.{AreNoLooser, AreWithin, IsState, pair_of};
ghost use Rattle.turn_rule.specs.Exact.{Scoring, exact};
ghost use Rattle.turn_rule.specs.Truth.{Encloses};
ghost use Rattle.play_analyser.specs.declared.ranking.Ranking.{Ranking};
ghost use Rattle.play_analyser.specs.Rankings.{IsRankingOver};
ghost use Rattle.best_reply.specs.Policies.{IsLegalPolicy, Policy};
ghost use Rattle.best_reply.specs.Advised.{BeginsWith, IsAdvised, advised};
ghost use Rattle.best_reply.specs.Replies.{AreScored, IsBetween, Mover, Worths, same_worths, worths};
ghost use Rattle.best_reply.specs.ReplyPairs.{reply_rounds};

/// By any words there is one advised play of a roll, and it is legal. Any other end that fits what
/// is said of it is the same.
pub fn one_play_is_advised()
    ensures is { (stakes : Terms) (u : Words) (p : Placement) (k : ℕ) (roll : Dice)
        → IsAdvised stakes u p k roll (advised stakes u p k roll) }
    ensures alone { (stakes : Terms) (u : Words) (p : Placement) (k : ℕ) (roll : Dice)
        (end : Placement) → IsAdvised stakes u p k roll end → end ≡ advised stakes u p k roll }
    ensures legal { (stakes : Terms) (u : Words) → IsLegalPolicy (advised stakes u) }
{}

/// The advised play is the first row of every ranking of the roll's plays over the words.
pub fn the_first_row_is_advised()
    ensures { (stakes : Terms) (u : Words) (p : Placement) (k : ℕ) (roll : Dice)
        (ranking : Ranking) → IsRankingOver stakes u p k roll ranking
        → BeginsWith ranking.rows.items (advised stakes u p k roll) }
{}

/// After any number of rounds the words are within the bound of the stakes, lower at most upper.
pub fn reply_rounds_stay_within_the_bound()
    ensures { (game : Game) → IsGame game → (policy : Policy) → IsLegalPolicy policy
        → (r : ℕ) (mover : Mover) → AreWithin game (reply_rounds policy game.stakes r mover) }
{}

/// One more round gives words that are at least as tight.
pub fn reply_rounds_tighten()
    ensures { (game : Game) → IsGame game → (policy : Policy) → IsLegalPolicy policy
        → (r : ℕ) (mover : Mover) → AreNoLooser game
        (reply_rounds policy game.stakes (r + 1) mover)
        (reply_rounds policy game.stakes r mover) }
{}

/// The words after some rounds enclose what following a policy is worth exactly, and what the best
/// reply is, in every game of at least as many turns, however it is scored within its stakes, with
/// an unfinished end of its own for either side to move.
pub fn reply_rounds_enclose_longer_games()
    ensures { (game : Game) → IsGame game → (policy : Policy) → IsLegalPolicy policy
        → (scoring : Scoring) (ends : Worths) → AreScored game scoring ends
        → (r turns : ℕ) → r ≤ turns → (mover : Mover) (p : Placement) (k : ℕ) → IsState game p k
        → Encloses (pair_of (reply_rounds policy game.stakes r mover) p k)
        (worths policy game.stakes scoring ends turns mover p k) (scoring.scale * 36 ^ turns) }
{}

/// Following a policy is worth no more than best play on both sides, and the best reply to it no
/// less, where an unfinished end is worth the same.
pub fn following_gives_no_more_and_replying_no_less()
    ensures { (policy : Policy) → IsLegalPolicy policy → (stakes : Terms) (scoring : Scoring)
        (turns : ℕ) (p : Placement) (k : ℕ)
        → IsBetween (worths policy stakes scoring (same_worths scoring.unfinished) turns)
        (exact stakes scoring turns) p k }
{}
