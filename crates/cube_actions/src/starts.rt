ghost use Rattle.std.specs.Prelude.{◌≡◌, ◌<◌, ◌≤◌, ◌↔◌, ◌++◌, [], ◌∷◌, IsTrue, length, slice_index_or};
ghost use Rattle.directed_fixed.specs.Bounds.{IsWithin};
ghost use Rattle.cube_actions.specs.Stakes.{nothing, point_units};
ghost use Rattle.cube_actions.specs.Ladder.{ladder};

use crate::score::Score;
use crate::score_order::{ladder, place_in};
use arrayvec::ArrayVec;
use directed_fixed::Pair;
use std::marker::Model;

/// What the first scores of a match's ladder are worth at the start of a game, seen from the near side. A pair is
/// within one point, as a match counts as one.
#[derive(Drop)]
pub struct Starts {
    match_length: u8,
    pairs: ArrayVec<Pair, 18>,
}

impl Model for Starts {
    ghost use Rattle.cube_actions.specs.Starts.{StartPairs, AreStarts};

    ghost Value = { StartPairs };

    ghost view = { λ a. record { match_length = a.match_length; pairs = a.pairs.items } };

    ghost invariant = { λ a. AreStarts (record {
      match_length = a.match_length;
      pairs = a.pairs.items;
    }) };
}

impl Starts {
    ghost use Rattle.cube_actions.specs.Starts.{StartPairs, AreStarts, Covers};

    /// No pairs yet, for a match of 1 to 5 points.
    pub fn new(length: u8) -> Starts
        requires from { 1 ≤ length }
        requires to { length ≤ 5 }
        ensures { result ≡ record { match_length = length; pairs = [] } }
    {
        Starts {
            match_length: length,
            pairs: ArrayVec::new(),
        }
    }

    /// The same pairs of the same match.
    pub fn copied(&self) -> Starts
        ensures { result ≡ self.now }
    {
        let mut pairs = ArrayVec::new();
        for pair in self.pairs.as_slice() {
            pairs.push(*pair);
        }
        Starts {
            match_length: self.match_length,
            pairs,
        }
    }

    /// How many points the match is played to.
    pub fn match_length(&self) -> u8
        ensures length { result ≡ self.now.match_length }
        ensures valid { AreStarts self.now }
    {
        self.match_length
    }

    /// How many pairs are held.
    pub fn len(&self) -> usize
        ensures pairs { result ≡ length self.now.pairs }
        ensures valid { AreStarts self.now }
    {
        self.pairs.len()
    }

    /// The pair of a score, by its number in the ladder.
    pub fn pair(&self, number: usize) -> Pair
        requires { number < length self.now.pairs }
        ensures pair { result ≡ slice_index_or self.now.pairs number nothing }
        ensures within { IsWithin (point_units 1) result }
    {
        self.pairs[number]
    }

    /// Adds the pair of the next score.
    pub fn add(&mut self, pair: Pair)
        requires room { length self.old.pairs < length (ladder self.old.match_length) }
        requires within { IsWithin (point_units 1) pair }
        ensures { self.new ≡ record self.old { pairs = self.old.pairs ++ pair ∷ [] } }
    {
        self.pairs.push(pair);
    }

    /// Whether the score is one of the match, and the pairs of all scores before it are held.
    pub fn covers(&self, score: Score) -> bool
        ensures { IsTrue result ↔ Covers self.now score }
    {
        let scores = ladder(self.match_length);
        let place = place_in(scores.as_slice(), score);
        place < scores.len() && place <= self.pairs.len()
    }
}
