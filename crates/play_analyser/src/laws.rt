ghost use Rattle.std.specs.Prelude.{ℕ};
ghost use Rattle.position_rank.specs.Placement.{Placement};
ghost use Rattle.turn_rule.specs.declared.choice.Choice.{Choice};
ghost use Rattle.turn_rule.specs.declared.game.Game.{Game};
ghost use Rattle.turn_rule.specs.Games.{IsGame};
ghost use Rattle.turn_rule.specs.Turn.{Words};
ghost use Rattle.turn_rule.specs.States.{AreNoLooser, IsState};
ghost use Rattle.turn_rule.specs.Exact.{Scoring};
ghost use Rattle.turn_rule.specs.Truth.{AreEnclosing, AreNoLooserStakes, Encloses, IsScoring};
ghost use Rattle.cube_actions.specs.Stakes.{Terms};
ghost use Rattle.directed_fixed.specs.Bounds.{AreNoLooserPairs};
ghost use Rattle.play_analyser.specs.Choices.{IsChoice};
ghost use Rattle.play_analyser.specs.Regrets.{counted_over, loss_of, regret_of};

/// Where words enclose every state in the game of so many turns, what a choice loses over them encloses what it loses exactly, a turn before.
pub fn losses_enclose_regrets()
    ensures { (game : Game) → IsGame game → (scoring : Scoring) → IsScoring game scoring
        → (turns : ℕ) (u : Words) → AreEnclosing game scoring turns u
        → (p : Placement) (k : ℕ) → IsState game p k
        → (choice : Choice) → IsChoice game.stakes p k choice
        → Encloses (loss_of game.stakes u p k choice)
        (regret_of game.stakes scoring turns p k choice) (counted_over scoring turns choice) }
{}

/// Where words are at least as tight, and the stakes' wins and passes known at least as well, so is what the same choice loses over them.
pub fn tighter_words_give_tighter_losses()
    ensures { (game : Game) → IsGame game → (other : Terms) → AreNoLooserStakes game.stakes other
        → (u v : Words) → AreNoLooser game u v
        → (p : Placement) (k : ℕ) → IsState game p k
        → (choice : Choice) → IsChoice game.stakes p k choice
        → AreNoLooserPairs (loss_of game.stakes u p k choice) (loss_of other v p k choice) }
{}
