ghost use Rattle.std.specs.Prelude.{◌≡◌, ◌≤◌, ℕ, IsOk, IsTrue, List, All, Option, Result, None, map};
ghost use Rattle.cube_actions.specs.Matches.{stakes_named};
ghost use Rattle.cube_actions.specs.Scores.{MatchScore};
ghost use Rattle.cube_actions.specs.Stakes.{IsValid, Terms};
ghost use Rattle.cube_actions.specs.Starts.{StartPairs};
ghost use Rattle.directed_fixed.specs.declared.bounds.End.{End};
ghost use Rattle.game_record.specs.Kinds.{stakes_at};
ghost use Rattle.game_record.specs.RightDecisions.{IsRightDecision};
ghost use Rattle.game_record.specs.declared.decision.Decision.{Decision};
ghost use Rattle.game_record.specs.declared.player.Player.{Player};
ghost use Rattle.game_record.specs.declared.record.Record.{Record};
ghost use Rattle.hyper_outside.specs.declared.outside.LookStop.{LookStop};
ghost use Rattle.turn_rule.specs.declared.game.Game.{Game};
ghost use Rattle.turn_rule.specs.Following.{AgreeOn};
ghost use Rattle.turn_rule.specs.Games.{IsGame};
ghost use Rattle.turn_rule.specs.Looks.{AreStakesOf, LooksUp, Notes, Seen, Source};
ghost use Rattle.turn_rule.specs.States.{AreNoLooser};
ghost use Rattle.turn_rule.specs.Truth.{AreNoLooserStakes, AreSound, AreSoundFrom};
ghost use Rattle.turn_rule.specs.Turn.{Words};
ghost use Rattle.record_analysis.specs.Analyses.{IsBestFor, analysis_of, losses_alone, unjudged};
ghost use Rattle.record_analysis.specs.Judging.{CanBeJudged, JudgesAll, MayFollowSome, MeetsOnDecisions};
ghost use Rattle.record_analysis.specs.Totals.{IsNoLooserTotal, losses_by, total_of};
ghost use Rattle.record_analysis.specs.Truth.{
  EncloseLosses,
  IsDecisionOf,
  IsNoLooserAnalysis,
  IsTrueAnalysis,
};
ghost use Rattle.record_analysis.specs.declared.analysis.Judged.{Judged};

use play_analyser::{one_list_gives_the_best, one_list_gives_the_loss};

/// The decisions of a record can be judged by words of its checkers and its stakes.
pub fn right_decisions_can_be_judged()
    ensures { (rec : Record) (starts : StartPairs) (decision : Decision)
        → IsRightDecision rec decision
        → (source : Source) (stakes : Terms) → source.checkers ≡ rec.checkers
        → stakes ≡ stakes_named (stakes_at rec.stakes decision.score) starts → IsValid stakes
        → AreStakesOf source stakes → CanBeJudged source stakes decision }
{}

/// Where a source's floor and its notes are the same words on the states that may follow, judging all
/// decisions of a game outside a match gives their losses over these words, and what was best over them.
pub fn one_list_gives_the_analysis()
    ensures { (source : Source) (noted : Notes) (stakes : Terms) (decisions : List Decision)
        (list : List Judged) → IsTrue noted.told
        → All (λ decision. decision.score ≡ None) decisions
        → All (CanBeJudged source stakes) decisions
        → ((end : End) → AgreeOn (MayFollowSome None stakes (map unjudged decisions)) end
        source.floor noted.words)
        → JudgesAll None stakes source noted (map unjudged decisions) list
        → (losses_alone list ≡ analysis_of stakes noted.words decisions)
        × All (IsBestFor stakes noted.words) list }
{
    one_list_gives_the_loss();
    one_list_gives_the_best();
}

/// Over a sure source judging is answered.
pub fn sure_sources_judge()
    ensures { (old new : Seen) (score : Option MatchScore) (stakes : Terms)
        (before after : List Judged) (result : Result (Unit {0}) LookStop)
        → IsTrue old.source.sure
        → LooksUp old new (MeetsOnDecisions score stakes before old.source)
        (λ _. JudgesAll score stakes old.source new.notes before after) result → IsOk result }
{}

/// Where words enclose every state from so many turns on, all pairs of the analysis over them enclose
/// what the decisions lose exactly, from the same number of turns on. So the analysis over sound words
/// is true.
pub fn analyses_enclose_what_is_lost()
    ensures from { (game : Game) → IsGame game
        → (enough : ℕ) (u : Words) → AreSoundFrom game enough u
        → (decisions : List Decision) → All (IsDecisionOf game) decisions
        → (turns : ℕ) → enough ≤ turns
        → EncloseLosses game turns (analysis_of game.stakes u decisions) }
    ensures sound { (game : Game) → IsGame game → (u : Words) → AreSound game u
        → (decisions : List Decision) → All (IsDecisionOf game) decisions
        → IsTrueAnalysis game (analysis_of game.stakes u decisions) }
{}

/// Where words are at least as tight, and the stakes' wins and passes known at least as well, so is each
/// pair of the analysis over them, and so are both players' totals.
pub fn tighter_words_give_tighter_analyses()
    ensures pairs { (game : Game) → IsGame game → (other : Terms)
        → AreNoLooserStakes game.stakes other → (u v : Words) → AreNoLooser game u v
        → (decisions : List Decision) → All (IsDecisionOf game) decisions
        → IsNoLooserAnalysis (analysis_of game.stakes u decisions) (analysis_of other v decisions) }
    ensures totals { (list others : List Judged) (player : Player) → IsNoLooserAnalysis list others
        → IsNoLooserTotal (total_of (losses_by player list)) (total_of (losses_by player others)) }
{}
