ghost use Rattle.std.specs.Prelude.{ℕ, ◌+◌};
ghost use Rattle.turn_rule.specs.declared.game.Game.{Game};
ghost use Rattle.turn_rule.specs.Games.{IsGame};
ghost use Rattle.turn_rule.specs.Turn.{Words, turn, rounds};
ghost use Rattle.turn_rule.specs.States.{AreWithin, AreNoLooser, Agree};

/// Over words within the bound of the stakes, lower at most upper, a turn gives such words.
pub fn turns_stay_within_the_bound()
    ensures { (game : Game) → IsGame game → (u : Words)
        → AreWithin game u → AreWithin game (turn game.stakes u) }
{}

/// After any number of rounds the words are within the bound of the stakes, lower at most upper.
pub fn rounds_stay_within_the_bound()
    ensures { (game : Game) → IsGame game → (r : ℕ) → AreWithin game (rounds game.stakes r) }
{}

/// A turn asks only for words on states of the same game.
pub fn turns_look_at_states_alone()
    ensures { (game : Game) → IsGame game → (u v : Words)
        → Agree game u v → Agree game (turn game.stakes u) (turn game.stakes v) }
{}

/// Tighter words give a turn that is at least as tight.
pub fn tighter_words_tighten_turns()
    ensures { (game : Game) → IsGame game → (u v : Words)
        → AreNoLooser game u v → AreNoLooser game (turn game.stakes u) (turn game.stakes v) }
{}

/// One more round gives words that are at least as tight.
pub fn rounds_tighten()
    ensures { (game : Game) → IsGame game → (r : ℕ)
        → AreNoLooser game (rounds game.stakes (r + 1)) (rounds game.stakes r) }
{}
