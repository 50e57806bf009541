ghost use Rattle.std.specs.Prelude.{◌≡◌, ℕ, IsTrue, IsOk, Result};
ghost use Rattle.position_rank.specs.Placement.{Placement};
ghost use Rattle.roll_table.specs.Rolls.{Dice, IsRoll};
ghost use Rattle.directed_fixed.specs.declared.bounds.End.{End};
ghost use Rattle.directed_fixed.specs.Bounds.{Bounds};
ghost use Rattle.hyper_outside.specs.declared.outside.LookStop.{LookStop};
ghost use Rattle.cube_actions.specs.declared.kind.Kind.{Kind};
ghost use Rattle.cube_actions.specs.Stakes.{Terms};
ghost use Rattle.turn_rule.specs.declared.game.Game.{Game};
ghost use Rattle.turn_rule.specs.Exact.{Scoring};
ghost use Rattle.turn_rule.specs.Truth.{Encloses};
ghost use Rattle.turn_rule.specs.Turn.{Words};
ghost use Rattle.turn_rule.specs.States.{IsState};
ghost use Rattle.turn_rule.specs.Following.{AgreeOn};
ghost use Rattle.turn_rule.specs.Found.{of_play};
ghost use Rattle.turn_rule.specs.Looks.{
  IsLeft,
  IsPairFor,
  LooksUp,
  MayFollowRoll,
  MayFollowTurn,
  MeetsOnRoll,
  MeetsOnTurn,
  Notes,
  Seen,
  Source,
};
ghost use Rattle.turn_rule.specs.declared.choice.Choice.{Choice};
ghost use Rattle.play_analyser.specs.declared.advice.CubeAdvice.{CubeAdvice};
ghost use Rattle.play_analyser.specs.declared.ranking.Ranking.{Ranking};
ghost use Rattle.play_analyser.specs.Advice.{IsCubeAdvice, IsCubeAdviceOver};
ghost use Rattle.play_analyser.specs.Advised.{ActionLosesAtMost, AreTrueWords, FirstLosesAtMost};
ghost use Rattle.play_analyser.specs.declared.best.Best.{Best as BestOne};
ghost use Rattle.play_analyser.specs.declared.losses.Weighed.{Weighed as WeighedOne};
ghost use Rattle.play_analyser.specs.Bests.{IsBest, IsBestOver, IsWeighed};
ghost use Rattle.play_analyser.specs.Choices.{IsChoice};
ghost use Rattle.play_analyser.specs.Rankings.{IsRanking, IsRankingOver};
ghost use Rattle.play_analyser.specs.Regrets.{counted_over, loss_of, play_pair, regret_of};
ghost use Rattle.play_analyser.specs.Sought.{MayFollowChoice, MeetsOnChoice, of_loss};

/// Where a source's floor and its notes are the same words on the states that may follow, the pair
/// of a play is what it gives over these words.
pub fn one_list_gives_the_play()
    ensures { (source : Source) (noted : Notes) (kind : Kind) (q : Placement) (pair : Bounds)
        → IsTrue noted.told
        → ((end : End) → AgreeOn (IsLeft kind.next q) end source.floor noted.words)
        → IsPairFor (of_play kind q) source noted pair → pair ≡ play_pair kind noted.words q }
{}

/// Where a source's floor and its notes are the same words on the states that may follow, the loss
/// of a choice is what it loses over these words.
pub fn one_list_gives_the_loss()
    ensures { (source : Source) (noted : Notes) (stakes : Terms) (p : Placement) (k : ℕ)
        (choice : Choice) (pair : Bounds)
        → IsTrue noted.told → IsChoice stakes p k choice
        → ((end : End) → AgreeOn (MayFollowChoice stakes p k choice) end source.floor noted.words)
        → IsPairFor (of_loss stakes p k choice) source noted pair
        → pair ≡ loss_of stakes noted.words p k choice }
{}

/// Where a source's floor and its notes are the same words on the states that may follow, what was
/// best is so over these words.
pub fn one_list_gives_the_best()
    ensures { (source : Source) (noted : Notes) (stakes : Terms) (p : Placement) (k : ℕ)
        (choice : Choice) (best : BestOne) → IsTrue noted.told
        → ((end : End) → AgreeOn (MayFollowChoice stakes p k choice) end source.floor noted.words)
        → IsBest stakes p k choice source noted best
        → IsBestOver stakes noted.words p k choice best }
{}

/// Where a source's floor and its notes are the same words on the states that may follow, a ranking
/// is that over these words.
pub fn one_list_gives_the_ranking()
    ensures { (source : Source) (noted : Notes) (stakes : Terms) (p : Placement) (k : ℕ)
        (roll : Dice) (ranking : Ranking)
        → IsTrue noted.told
        → ((end : End) → AgreeOn (MayFollowRoll stakes p k roll) end source.floor noted.words)
        → IsRanking stakes p k roll source noted ranking
        → IsRankingOver stakes noted.words p k roll ranking }
{}

/// Where a source's floor and its notes are the same words on the states that may follow, advice is
/// that over these words.
pub fn one_list_gives_the_advice()
    ensures { (source : Source) (noted : Notes) (stakes : Terms) (p : Placement) (k : ℕ)
        (advice : CubeAdvice)
        → IsTrue noted.told
        → ((end : End) → AgreeOn (MayFollowTurn stakes p k) end source.floor noted.words)
        → IsCubeAdvice stakes p k source noted advice
        → IsCubeAdviceOver stakes noted.words p k advice }
{}

/// Over a sure source each call is answered.
pub fn sure_sources_advise()
    ensures weighing { (old new : Seen) (stakes : Terms) (p : Placement) (k : ℕ) (choice : Choice)
        (result : Result WeighedOne LookStop)
        → IsTrue old.source.sure → LooksUp old new
        (MeetsOnChoice stakes p k choice old.source)
        (IsWeighed stakes p k choice old.source new.notes) result → IsOk result }
    ensures ranking { (old new : Seen) (stakes : Terms) (p : Placement) (k : ℕ) (roll : Dice)
        (result : Result Ranking LookStop)
        → IsTrue old.source.sure → LooksUp old new
        (MeetsOnRoll stakes p k roll old.source)
        (IsRanking stakes p k roll old.source new.notes) result → IsOk result }
    ensures advice { (old new : Seen) (stakes : Terms) (p : Placement) (k : ℕ)
        (result : Result CubeAdvice LookStop)
        → IsTrue old.source.sure → LooksUp old new
        (MeetsOnTurn stakes p k old.source)
        (IsCubeAdvice stakes p k old.source new.notes) result → IsOk result }
{}

/// Where words enclose every state, the loss of a choice that was looked up in a source with these
/// words noted encloses what the choice loses exactly, a turn before.
pub fn looked_losses_enclose_regrets()
    ensures { (game : Game) (scoring : Scoring) (turns : ℕ) (noted : Notes)
        → AreTrueWords game scoring turns noted.words
        → (p : Placement) (k : ℕ) → IsState game p k
        → (choice : Choice) → IsChoice game.stakes p k choice
        → (source : Source) (pair : Bounds)
        → IsTrue noted.told → IsPairFor (of_loss game.stakes p k choice) source noted pair
        → Encloses pair (regret_of game.stakes scoring turns p k choice)
        (counted_over scoring turns choice) }
{}

/// Where words enclose every state, the best play of a ranking over them loses at most its bound, a
/// turn before, and so it does where the ranking was looked up in a source with these words noted.
pub fn best_plays_lose_at_most_their_bounds()
    ensures over { (game : Game) (scoring : Scoring) (turns : ℕ) (u : Words)
        → AreTrueWords game scoring turns u
        → (p : Placement) (k : ℕ) → IsState game p k
        → (roll : Dice) → IsRoll roll
        → (ranking : Ranking) → IsRankingOver game.stakes u p k roll ranking
        → FirstLosesAtMost game scoring turns p k roll ranking.rows.items ranking.loss_bound }
    ensures looked { (game : Game) (scoring : Scoring) (turns : ℕ) (noted : Notes)
        → AreTrueWords game scoring turns noted.words
        → (p : Placement) (k : ℕ) → IsState game p k
        → (roll : Dice) → IsRoll roll
        → (source : Source) (ranking : Ranking)
        → IsTrue noted.told → IsRanking game.stakes p k roll source noted ranking
        → FirstLosesAtMost game scoring turns p k roll ranking.rows.items ranking.loss_bound }
{}

/// So do the offer and the answer that are advised.
pub fn advised_actions_lose_at_most_their_bounds()
    ensures over { (game : Game) (scoring : Scoring) (turns : ℕ) (u : Words)
        → AreTrueWords game scoring turns u
        → (p : Placement) (k : ℕ) → IsState game p k
        → (advice : CubeAdvice) → IsCubeAdviceOver game.stakes u p k advice
        → ActionLosesAtMost game scoring turns p k advice.action }
    ensures looked { (game : Game) (scoring : Scoring) (turns : ℕ) (noted : Notes)
        → AreTrueWords game scoring turns noted.words
        → (p : Placement) (k : ℕ) → IsState game p k
        → (source : Source) (advice : CubeAdvice)
        → IsTrue noted.told → IsCubeAdvice game.stakes p k source noted advice
        → ActionLosesAtMost game scoring turns p k advice.action }
{}
