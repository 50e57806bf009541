ghost use Rattle.std.specs.Prelude.{◌≡◌, ◌<◌, ℕ, ℤ, List, ◌∷◌, ◌++◌};
ghost use Rattle.position_rank.specs.Placement.{Placement};
ghost use Rattle.directed_fixed.specs.declared.bounds.End.{End};
ghost use Rattle.directed_fixed.specs.Bounds.{IsNoLooser};
ghost use Rattle.turn_rule.specs.Games.{IsGame, kinds_of};
ghost use Rattle.turn_rule.specs.States.{IsState, AreNoLooser};
ghost use Rattle.turn_rule.specs.Exact.{Scoring};
ghost use Rattle.turn_rule.specs.declared.game.Game.{Game};
ghost use Rattle.interval_words.specs.declared.view.Note.{Note};
ghost use Rattle.interval_words.specs.Numbers.{state_of, word_of};
ghost use Rattle.interval_words.specs.Core.{Core, IsKept, IsFirstCore, words_in_core, noted};
ghost use Rattle.interval_words.specs.Seats.{AreKnown, IsNumber};
ghost use Rattle.turn_rule.specs.Truth.{AreSound, AreConsistent, AreEnclosing, AreEndsWithin, IsScoring};
ghost use Rattle.interval_words.specs.WordLists.{WordList, AreRight, states_of, words_in_list};
ghost use Rattle.interval_words.specs.Events.{BoardEvent, IsAllowed, AreAllowed, core_after, core_after_all};

/// After any list of events, each allowed when it comes, from a first core.
pub fn events_keep_the_core()
    ensures { (core : Core) (events : List BoardEvent) → IsFirstCore core → AreAllowed core events
        → IsKept (core_after_all core events) }
{}

/// Each event keeps a core, however it was reached.
pub fn every_event_keeps_the_core()
    ensures { (core : Core) (event : BoardEvent) → IsKept core → IsAllowed core event
        → IsKept (core_after core event) }
{}

/// The words of a core in which everything holds are sound, and so is what a seat's notes tell.
pub fn kept_words_are_sound()
    ensures words { (core : Core) → IsKept core → AreSound core.game (words_in_core core) }
    ensures notes { (game : Game) (notes : List Note) → IsGame game → AreKnown game notes
        → AreSound game (noted game notes) }
{}

/// Each state has a number below the number of states, each such number is a state's, and different
/// states have different numbers.
pub fn states_are_numbered()
    ensures below { (game : Game) (p : Placement) (k : ℕ) → IsState game p k
        → state_of (kinds_of game) p k < states_of game }
    ensures each { (game : Game) → IsGame game → (state : ℕ) → state < states_of game
        → IsNumber game state }
    ensures apart { (game : Game) (p q : Placement) (k j : ℕ) → IsState game p k → IsState game q j
        → state_of (kinds_of game) p k ≡ state_of (kinds_of game) q j → (p ≡ q) × (k ≡ j) }
{}

/// Consistent words of a list enclose every state, in games of any number of turns from 0 on,
/// however they are scored, where an unfinished end lies in the pair of its own state.
pub fn consistent_lists_enclose()
    ensures { (words : WordList) → IsGame words.game → AreRight words
        → AreConsistent words.game (words_in_list words)
        → (scoring : Scoring) → IsScoring words.game scoring
        → AreEndsWithin words.game (words_in_list words) scoring
        → (turns : ℕ) → AreEnclosing words.game scoring turns (words_in_list words) }
{}

/// Each note is told, and more notes tell no less. So a word that is read is at least as tight as
/// each value that was raised to or read before with the same seat, since its last round.
pub fn notes_only_tighten()
    ensures told { (game : Game) (notes : List Note) (value : ℤ) (end : End) (p : Placement) (k : ℕ)
        → let word = word_of end (state_of (kinds_of game) p k) in
        let note : Note = record { word = word; value = value } in
        IsNoLooser end (noted game (note ∷ notes) end p k) value }
    ensures one_more { (game : Game) (note : Note) (notes : List Note)
        → AreNoLooser game (noted game (note ∷ notes)) (noted game notes) }
    ensures first_of_both { (game : Game) (first second : List Note)
        → AreNoLooser game (noted game (first ++ second)) (noted game first) }
    ensures second_of_both { (game : Game) (first second : List Note)
        → AreNoLooser game (noted game (first ++ second)) (noted game second) }
{}
