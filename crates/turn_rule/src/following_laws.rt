ghost use Rattle.std.specs.Prelude.{◌≡◌, ◌<◌, ◌+◌, ◌*◌, ◌^◌, ℕ, pos, ◌*ℤ◌};
ghost use Rattle.position_rank.specs.Placement.{Placement};
ghost use Rattle.directed_fixed.specs.declared.bounds.End.{End};
ghost use Rattle.directed_fixed.specs.Bounds.{IsNoLooser, IsWithin, other};
ghost use Rattle.cube_actions.specs.Stakes.{Terms};
ghost use Rattle.turn_rule.specs.declared.game.Game.{Game};
ghost use Rattle.turn_rule.specs.Games.{IsGame, kinds_of};
ghost use Rattle.turn_rule.specs.Turn.{Words, roll_value, turn};
ghost use Rattle.turn_rule.specs.States.{IsState, pair_of};
ghost use Rattle.turn_rule.specs.Exact.{Scoring, Values, rolled, before_turn};
ghost use Rattle.turn_rule.specs.Truth.{IsBoundOf, AreWinsWithin, ArePassesWithin};
ghost use Rattle.turn_rule.specs.Looks.{MayFollow, MayFollowTurn, roll_pair};
ghost use Rattle.turn_rule.specs.Following.{AgreeOn, AreNoLooserOn, AreBoundsOn, AreWithinOn};

/// What may follow a state of a game is a state of that game.
pub fn what_may_follow_is_a_state()
    ensures rolling { (game : Game) → IsGame game → (p : Placement) (k : ℕ) → IsState game p k
        → (q : Placement) (j : ℕ) → MayFollow game.stakes p k q j → IsState game q j }
    ensures turn { (game : Game) → IsGame game → (p : Placement) (k : ℕ) → IsState game p k
        → (q : Placement) (j : ℕ) → MayFollowTurn game.stakes p k q j → IsState game q j }
{}

/// Rolling, however often it counts, and a turn ask for no words but those of the states that may
/// follow, at the other end: where these are equal, the values are.
pub fn equal_words_that_follow_give_equal_values()
    ensures rolling { (stakes : Terms) (p : Placement) (k factor : ℕ) (end : End) (u v : Words)
        → AgreeOn (MayFollow stakes p k) (other end) u v
        → roll_value end stakes u p k factor ≡ roll_value end stakes v p k factor }
    ensures turn { (stakes : Terms) (p : Placement) (k : ℕ) (end : End) (u v : Words)
        → AgreeOn (MayFollowTurn stakes p k) (other end) u v
        → turn stakes u end p k ≡ turn stakes v end p k }
{}

/// Where the words that may follow are at least as tight, so are the values.
pub fn tighter_words_that_follow_give_tighter_values()
    ensures rolling { (stakes : Terms) (p : Placement) (k factor : ℕ) (end : End) (u v : Words)
        → AreNoLooserOn (MayFollow stakes p k) (other end) u v
        → IsNoLooser end (roll_value end stakes u p k factor) (roll_value end stakes v p k factor) }
    ensures turn { (stakes : Terms) (p : Placement) (k : ℕ) (end : End) (u v : Words)
        → AreNoLooserOn (MayFollowTurn stakes p k) (other end) u v
        → IsNoLooser end (turn stakes u end p k) (turn stakes v end p k) }
{}

/// Where the words that may follow bound any later values, rolling and the turn bound what these
/// are worth before them, over 36 times as much: a step of the exact value from any values in place
/// of exact ones.
pub fn bounds_that_follow_give_bounds()
    ensures rolling { (game : Game) (scoring : Scoring) → AreWinsWithin game scoring
        → (turns : ℕ) (later : Values) (p : Placement) (k factor : ℕ) → k < kinds_of game
        → (end : End) (u : Words)
        → AreBoundsOn (MayFollow game.stakes p k) (other end) u later (scoring.scale * 36 ^ turns)
        → IsBoundOf end (roll_value end game.stakes u p k factor)
        (pos factor *ℤ rolled game.stakes scoring turns later p k)
        (scoring.scale * 36 ^ (turns + 1)) }
    ensures turn { (game : Game) → IsGame game → (scoring : Scoring) → AreWinsWithin game scoring
        → ArePassesWithin game scoring
        → (turns : ℕ) (later : Values) (p : Placement) (k : ℕ) → k < kinds_of game
        → (end : End) (u : Words)
        → AreBoundsOn (MayFollowTurn game.stakes p k) (other end) u later
        (scoring.scale * 36 ^ turns)
        → IsBoundOf end (turn game.stakes u end p k)
        (before_turn game.stakes scoring turns later p k)
        (scoring.scale * 36 ^ (turns + 1)) }
{}

/// Where the words that may follow are within the bound, lower at most upper, so is a turn, and so
/// is rolling within so many times the bound as it counts.
pub fn values_stay_within_the_bound()
    ensures rolling { (game : Game) → IsGame game → (p : Placement) (k factor : ℕ) (u : Words)
        → k < kinds_of game → AreWithinOn (MayFollow game.stakes p k) game.stakes.bound u
        → IsWithin (pos factor *ℤ game.stakes.bound) (roll_pair game.stakes u p k factor) }
    ensures turn { (game : Game) → IsGame game → (p : Placement) (k : ℕ) (u : Words)
        → k < kinds_of game → AreWithinOn (MayFollowTurn game.stakes p k) game.stakes.bound u
        → IsWithin game.stakes.bound (pair_of (turn game.stakes u) p k) }
{}
