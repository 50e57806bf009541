ghost use Rattle.std.specs.Prelude.{◌+◌, ℕ};
ghost use Rattle.position_rank.specs.Placement.{Placement};
ghost use Rattle.directed_fixed.specs.declared.bounds.End.{End};
ghost use Rattle.cube_actions.specs.Stakes.{Terms};
ghost use Rattle.turn_rule.specs.declared.game.Game.{Game};
ghost use Rattle.turn_rule.specs.Games.{IsGame};
ghost use Rattle.turn_rule.specs.Turn.{Words, turn, bound_words, rounds};
ghost use Rattle.turn_rule.specs.States.{IsState, AreNoLooser};
ghost use Rattle.turn_rule.specs.Exact.{Scoring, exact};
ghost use Rattle.turn_rule.specs.Truth.{AreConsistent, AreEnclosing, AreEndsWithin, AreNoLooserStakes, ArePassesWithin, AreSound, AreSoundFrom, AreWinsWithin, InTheEnd, IsBoundAt, IsScoring};

/// However a game is scored within its stakes, no exact value is beyond their bound.
pub fn exact_values_stay_within_the_bound()
    ensures { (game : Game) → IsGame game → (scoring : Scoring) → IsScoring game scoring
        → (turns : ℕ) → AreEnclosing game scoring turns (bound_words game.stakes) }
{}

/// Where words enclose every state, a turn over them encloses every state in the game of one turn
/// more.
pub fn turns_enclose_one_turn_more()
    ensures { (game : Game) → IsGame game → (scoring : Scoring) → IsScoring game scoring
        → (turns : ℕ) (u : Words) → AreEnclosing game scoring turns u
        → AreEnclosing game scoring (turns + 1) (turn game.stakes u) }
{}

/// The words after some rounds enclose every state in every game of at least as many turns, however
/// it is scored within its stakes.
pub fn rounds_enclose_longer_games()
    ensures { (game : Game) → IsGame game → (r : ℕ) → AreSoundFrom game r (rounds game.stakes r) }
{}

/// So do words that are no tighter than those after some rounds.
pub fn words_no_tighter_than_a_round_enclose_longer_games()
    ensures { (game : Game) → IsGame game → (r : ℕ) (u : Words)
        → AreNoLooser game (rounds game.stakes r) u → AreSoundFrom game r u }
{}

/// The words after some rounds are sound.
pub fn rounds_are_sound()
    ensures { (game : Game) → IsGame game → (r : ℕ) → AreSound game (rounds game.stakes r) }
{}

/// So are words that are no tighter than those after some rounds.
pub fn words_no_tighter_than_a_round_are_sound()
    ensures { (game : Game) → IsGame game → (r : ℕ) (u : Words)
        → AreNoLooser game (rounds game.stakes r) u → AreSound game u }
{}

/// Where words are sound, in the end each word bounds the exact value of its state.
pub fn each_sound_word_is_sound()
    ensures { (game : Game) (u : Words) → AreSound game u
        → (end : End) (p : Placement) (k : ℕ) → IsState game p k
        → InTheEnd game (λ scoring turns.
        IsBoundAt end game.stakes scoring turns (u end p k) p k) }
{}

/// A turn over the words after some rounds is nowhere looser than they are.
pub fn rounds_are_consistent()
    ensures { (game : Game) → IsGame game → (r : ℕ) → AreConsistent game (rounds game.stakes r) }
{}

/// Consistent words enclose every state, in games of any number of turns, where a win and a pass
/// lie in the stakes' pairs, and an unfinished end in the pair of its own state.
pub fn consistent_words_enclose()
    ensures { (game : Game) → IsGame game → (u : Words) → AreConsistent game u
        → (scoring : Scoring) → AreWinsWithin game scoring → ArePassesWithin game scoring
        → AreEndsWithin game u scoring → (turns : ℕ) → AreEnclosing game scoring turns u }
{}

/// Where the stakes' wins and passes are known at least as well, tighter words give a turn that is
/// at least as tight.
pub fn tighter_stakes_tighten_turns()
    ensures { (game : Game) → IsGame game → (other : Terms) → AreNoLooserStakes game.stakes other
        → (u v : Words) → AreNoLooser game u v
        → AreNoLooser game (turn game.stakes u) (turn other v) }
{}

/// Where the stakes' wins and passes are known at least as well, the words after some rounds are at
/// least as tight.
pub fn tighter_stakes_tighten_rounds()
    ensures { (game : Game) → IsGame game → (other : Terms) → AreNoLooserStakes game.stakes other
        → (r : ℕ) → AreNoLooser game (rounds game.stakes r) (rounds other r) }
{}
