ghost use Rattle.std.specs.Prelude.{◌≡◌, ◌<◌, ◌≤◌, ◌+◌, ◌*◌, ◌^◌, ◌↔◌, ℕ, pos, ◌≤ℤ◌, IsSome, IfSome, IsTrue, length};
ghost use Rattle.position_rank.specs.Ranks.{square_rank_of};
ghost use Rattle.directed_fixed.specs.Bounds.{IsWithin, IsWithinUnits};
ghost use Rattle.directed_fixed.specs.declared.word.TheConstants.{WORD_OFFSET};
ghost use Rattle.turn_rule.specs.Games.{IsGame, game_of};
ghost use Rattle.turn_rule.specs.Looks.{AreStakesOf, all_told};
ghost use Rattle.turn_rule.specs.States.{IsState, AreWithin, pair_of};
ghost use Rattle.interval_words.specs.Numbers.{value_in, word_of};
ghost use Rattle.interval_words.specs.WordLists.{WordList, AreRight, AreClosed, IsWidest, list_of, states_of, words_in_list, pair_at, source_of};

use crate::live_index::LiveIndex;
use crate::number::{state_count, state_number_at};
use cube_actions::Stakes;
use directed_fixed::{End, Fixed, Pair, from_word};
use hyper_outside::LookStop;
use position_rank::Position;
use std::marker::Model;
use turn_rule::Pairs;

/// A pair for each state of a game, after some rounds.
#[derive(Drop)]
pub struct Words {
    index: LiveIndex,
    stakes: Stakes,
    rounds: u32,
    list: Vec<u64>,
}

impl Model for Words {
    ghost use Rattle.turn_rule.specs.Games.{game_of};
    ghost use Rattle.interval_words.specs.WordLists.{WordList, AreRight, list_of};

    ghost Value = { WordList };

    ghost view = { λ a. list_of (game_of a.index a.stakes) a.rounds a.list.items };

    ghost invariant = { λ a. AreRight (list_of (game_of a.index a.stakes) a.rounds a.list.items) };
}

/// Both words of the state with this number. `None` exactly where one is out of range or the lower
/// one is above the upper one.
#[inline]
fn pair_of_list(list: &[u64], state: usize, bound: Fixed) -> Option<Pair>
    requires state { 2 * state + 1 < length list.now }
    requires from { pos 0 ≤ℤ bound }
    requires to { bound ≤ℤ WORD_OFFSET }
    ensures within { IsSome result ↔ IsWithin bound (pair_at list.now state) }
    ensures pair { IfSome result (λ pair. pair ≡ pair_at list.now state) }
{
    let lower = list[2 * state];
    let upper = list[2 * state + 1];
    if lower > upper {
        return None;
    }
    Some(Pair::new(from_word(lower, bound)?, from_word(upper, bound)?))
}

/// Where a word of the state with this number stands in a list.
#[inline]
fn place_in_list(list: &[u64], end: End, state: usize) -> usize
    requires { 2 * state + 1 < length list.now }
    ensures place { result ≡ word_of end state }
    ensures inside { result < length list.now }
{
    match end {
        End::Lower => 2 * state,
        End::Upper => 2 * state + 1,
    }
}

/// What a word of the state with this number stands for, where it is in range.
#[inline]
fn value_in_list(list: &[u64], end: End, state: usize) -> Fixed
    requires state { 2 * state + 1 < length list.now }
    requires within { IsWithinUnits WORD_OFFSET (value_in list.now end state) }
    ensures { result ≡ value_in list.now end state }
{
    let place = place_in_list(list, end, state);
    Fixed::of_word(list[place])
}

/// Whether the words of so many states are in range, the lower ones at most the upper ones.
fn are_right(list: &[u64], states: usize, bound: Fixed) -> bool
    requires long { length list.now ≡ 2 * states }
    requires from { pos 0 ≤ℤ bound }
    requires to { bound ≤ℤ WORD_OFFSET }
    ensures { IsTrue result
        ↔ ((state : ℕ) → state < states → IsWithin bound (pair_at list.now state)) }
{
    for state in 0..states {
        if pair_of_list(list, state, bound).is_none() {
            return false;
        }
    }
    true
}

impl Words {
    /// The words of a list, with the checkers of the index: two for each state, by rising live rank
    /// and then kind, the lower one first. `None` exactly where the list hasn't two words for each
    /// state, a word is out of range, or a lower word is above its upper word.
    pub fn from_list(
        index: LiveIndex,
        stakes: &Stakes,
        rounds: u32,
        list: Vec<u64>,
    ) -> Option<Words>
        ensures right { IsSome result
            ↔ AreRight (list_of (game_of index stakes.now) rounds list.items) }
        ensures words { IfSome result (λ words.
            words ≡ list_of (game_of index stakes.now) rounds list.items) }
    {
        let states = state_count(&index, stakes);
        if list.len() == 2 * states && are_right(&list, states, stakes.bound()) {
            Some(Words::of_right_list(index, stakes, rounds, list))
        } else {
            None
        }
    }

    /// The words of a list as `from_list` takes it, which is known to be right: no word is looked at.
    pub fn of_right_list(index: LiveIndex, stakes: &Stakes, rounds: u32, list: Vec<u64>) -> Words
        requires { AreRight (list_of (game_of index stakes.now) rounds list.items) }
        ensures { result ≡ list_of (game_of index stakes.now) rounds list.items }
    {
        Words {
            index,
            stakes: stakes.copied(),
            rounds,
            list,
        }
    }

    /// The index of the positions of these checkers.
    pub fn index(&self) -> &LiveIndex
        ensures { result.now ≡ self.now.game.checkers }
    {
        &self.index
    }

    /// How many checkers a side has.
    pub fn checkers(&self) -> u8
        ensures checkers { result ≡ self.now.game.checkers }
        ensures low { 1 ≤ result }
        ensures high { result ≤ 3 }
    {
        self.index.checkers()
    }

    /// What the game is played for.
    pub fn stakes(&self) -> &Stakes
        ensures { result.now ≡ self.now.game.stakes }
    {
        &self.stakes
    }

    /// After how many rounds these are the words.
    pub fn rounds(&self) -> u32
        ensures { result ≡ self.now.rounds }
    {
        self.rounds
    }

    /// What every list of words keeps: one to three checkers and valid stakes, two words for each
    /// state, both within the bound, the lower one at most the upper one.
    pub fn right(&self)
        ensures game { IsGame self.now.game }
        ensures right { AreRight self.now }
    {
        // The index tells of the checkers, the stakes that they are valid.
        let _game = (self.index.checkers(), self.stakes.bound());
    }

    /// How many states there are.
    pub fn states(&self) -> usize
        ensures states { result ≡ states_of self.now.game }
        ensures some { 0 < result }
        ensures small { result < 2 ^ 36 }
    {
        state_count(&self.index, &self.stakes)
    }

    /// The words in their order: two for each state, by rising live rank and then kind, the lower one
    /// first.
    pub fn list(&self) -> &[u64]
        ensures { result.now ≡ self.now.list }
    {
        self.list.as_slice()
    }

    /// The pair of the state with this number, from 0.
    #[inline]
    pub fn pair_at(&self, state: usize) -> Pair
        requires { state < states_of self.now.game }
        ensures pair { result ≡ pair_at self.now.list state }
        ensures within { IsWithin self.now.game.stakes.bound result }
    {
        pair_of_list(&self.list, state, self.stakes.bound()).unwrap()
    }

    /// The pair of a state.
    #[inline]
    pub fn pair(&self, position: &Position, kind: usize) -> Pair
        requires { IsState self.now.game position.now kind }
        ensures pair { result ≡ pair_of (words_in_list self.now) position.now kind }
        ensures within { IsWithin self.now.game.stakes.bound result }
    {
        self.pair_by_square(position, position.square_rank(), kind)
    }

    /// `pair` of a position whose square rank is at hand.
    #[inline]
    pub fn pair_by_square(&self, position: &Position, square: u64, kind: usize) -> Pair
        requires state { IsState self.now.game position.now kind }
        requires square { square ≡ square_rank_of position.now }
        ensures pair { result ≡ pair_of (words_in_list self.now) position.now kind }
        ensures within { IsWithin self.now.game.stakes.bound result }
    {
        let state = state_number_at(&self.index, &self.stakes, position, square, kind);
        self.pair_at(state as usize)
    }

    /// One word of a state, whose position's square rank is at hand.
    #[inline]
    fn word_at(&self, end: End, position: &Position, square: u64, kind: usize) -> Fixed
        requires state { IsState self.now.game position.now kind }
        requires square { square ≡ square_rank_of position.now }
        ensures { result ≡ words_in_list self.now end position.now kind }
    {
        // Right words stand for values.
        self.right();
        let state = state_number_at(&self.index, &self.stakes, position, square, kind);
        value_in_list(&self.list, end, state as usize)
    }

    /// The greatest upper minus lower word of a state.
    pub fn widest(&self) -> Fixed
        ensures { IsWidest self.now result }
    {
        let states = state_count(&self.index, &self.stakes);
        let bound = self.stakes.bound();
        let mut widest = Fixed::whole(0);
        for state in 0..states {
            let pair = pair_of_list(&self.list, state, bound).unwrap();
            widest = widest.max(pair.upper().add(pair.lower().neg()));
        }
        widest
    }

    /// Looks the words up one end at a time. The reader is sure, and its floor and its notes are
    /// these words.
    pub fn reader(&self) -> WordsReader<'_>
        ensures source { (⟦<WordsReader<'static> as Pairs>⟧.seen result).source
            ≡ source_of self.now }
        ensures notes { (⟦<WordsReader<'static> as Pairs>⟧.seen result).notes
            ≡ all_told (words_in_list self.now) }
        ensures stakes { AreStakesOf (⟦<WordsReader<'static> as Pairs>⟧.seen result).source
            self.now.game.stakes }
    {
        // A look at the list shows that its words are right.
        let _list = &self.list;
        WordsReader { words: self }
    }
}

/// The words of a board that was closed: they are sound, consistent, and at least as tight as after
/// their rounds. Nothing else makes them.
#[derive(Drop)]
pub struct Closed {
    words: Words,
}

impl Model for Closed {
    ghost use Rattle.interval_words.specs.WordLists.{WordList, AreClosed};

    ghost Value = { WordList };

    ghost view = { λ a. a.words };

    ghost invariant = { λ a. AreClosed a.words };
}

impl Closed {
    /// The words of a board at its end.
    pub(crate) fn new(index: LiveIndex, stakes: Stakes, rounds: u32, list: Vec<u64>) -> Closed
        requires right { AreRight (list_of (game_of index stakes) rounds list.items) }
        requires closed { AreClosed (list_of (game_of index stakes) rounds list.items) }
        ensures { result ≡ list_of (game_of index stakes) rounds list.items }
    {
        Closed {
            words: Words {
                index,
                stakes,
                rounds,
                list,
            },
        }
    }

    /// The words.
    pub fn words(&self) -> &Words
        ensures words { result.now ≡ self.now }
        ensures closed { AreClosed self.now }
    {
        &self.words
    }
}

/// Words that are looked up in a list. It is sure, and its floor and its notes are the words.
#[derive(Drop)]
pub struct WordsReader<'a> {
    words: &'a Words,
    ghost within: { AreWithin words.now.game (words_in_list words.now) },
}

impl Pairs for WordsReader<'_> {
    ghost stays = { λ _. tt };

    ghost seen = { λ reader. record {
      source = source_of reader.words.now;
      notes = all_told (words_in_list reader.words.now);
      faults = 0;
    } };

    #[inline]
    fn lower_of(&mut self, position: &Position, kind: usize) -> Result<Fixed, LookStop> {
        self.lower_at(position, position.square_rank(), kind)
    }

    #[inline]
    fn lower_at(
        &mut self,
        position: &Position,
        square: u64,
        kind: usize,
    ) -> Result<Fixed, LookStop> {
        Ok(self.words.word_at(End::Lower, position, square, kind))
    }

    #[inline]
    fn upper_of(&mut self, position: &Position, kind: usize) -> Result<Fixed, LookStop> {
        self.upper_at(position, position.square_rank(), kind)
    }

    #[inline]
    fn upper_at(
        &mut self,
        position: &Position,
        square: u64,
        kind: usize,
    ) -> Result<Fixed, LookStop> {
        Ok(self.words.word_at(End::Upper, position, square, kind))
    }

    ghost floor_within = { λ reader _. reader.within };

    ghost notes_within = { λ reader _. reader.within };
}
