ghost use Rattle.std.specs.Prelude.{◌≡◌, ◌≤◌, ◌<◌, ◌↔◌, IsSome, IfSome, length};
ghost use Rattle.position_rank.specs.LiveRanks.{live_positions};
ghost use Rattle.cube_actions.specs.declared.name.StakesName.TheVariants.{Match, Unlimited};
ghost use Rattle.cube_actions.specs.Names.{names_of};
ghost use Rattle.cube_actions.specs.Scores.{same_score};
ghost use Rattle.cube_actions.specs.Starts.{AreStarts, ladder_place};
ghost use Rattle.base_head.specs.Heads.{AreStartsOf, IsHead, no_starts};

use cube_actions::{MoneyRule, Score, Stakes, StakesName, Starts, ladder};
use position_rank::live_count;
use std::marker::Model;

/// What the words of a file are of: the checkers of a side, 1 to 3, the stakes, and how many rounds the words have had, 1 to 4,096.
/// For a match it holds what the scores before this one are worth at the start, and no other pair.
#[derive(Drop)]
pub struct Head {
    checkers: u8,
    name: StakesName,
    rounds: u32,
    starts: Starts,
}

impl Model for Head {
    ghost use Rattle.base_head.specs.Heads.{FileHead, IsHead};

    ghost Value = { FileHead };

    ghost view = { λ a. record {
      checkers = a.checkers;
      name = a.name;
      rounds = a.rounds;
      starts = a.starts;
    } };

    ghost invariant = { λ a. IsHead (record {
      checkers = a.checkers;
      name = a.name;
      rounds = a.rounds;
      starts = a.starts;
    }) };
}

impl Head {
    ghost use Rattle.base_head.specs.Heads.{FileHead, stakes_of};

    /// The head for games that are no match.
    pub fn unlimited(checkers: u8, rule: MoneyRule, rounds: u32) -> Head
        requires some { 1 ≤ checkers }
        requires few { checkers ≤ 3 }
        requires begun { 1 ≤ rounds }
        requires ended { rounds ≤ 4096 }
        ensures { result ≡ record {
          checkers = checkers;
          name = Unlimited rule;
          rounds = rounds;
          starts = no_starts;
        } }
    {
        Head {
            checkers,
            name: StakesName::Unlimited(rule),
            rounds,
            starts: Starts::new(1),
        }
    }

    /// The head for a game of a match. `None` exactly where the checkers aren't 1 to 3, the rounds not 1 to 4,096, or the starts
    /// not those of a match that has the score, with a pair for exactly the scores before it.
    pub fn of_score(checkers: u8, score: Score, rounds: u32, starts: Starts) -> Option<Head>
        ensures some { IsSome result ↔ IsHead (record {
          checkers = checkers;
          name = Match score;
          rounds = rounds;
          starts = starts;
        }) }
        ensures value { IfSome result (λ head. head ≡ record {
          checkers = checkers;
          name = Match score;
          rounds = rounds;
          starts = starts;
        }) }
    {
        let place = ladder_place(starts.match_length(), score);
        let fits = starts.covers(score) && starts.len() == place;
        if checkers < 1 || checkers > 3 || rounds < 1 || rounds > 4096 || !fits {
            return None;
        }
        Some(Head {
            checkers,
            name: StakesName::Match(score),
            rounds,
            starts,
        })
    }

    /// The head with starts that are known to go with the stakes.
    pub(crate) fn with(checkers: u8, name: StakesName, rounds: u32, starts: Starts) -> Head
        requires some { 1 ≤ checkers }
        requires few { checkers ≤ 3 }
        requires begun { 1 ≤ rounds }
        requires ended { rounds ≤ 4096 }
        requires starts { AreStartsOf name starts }
        ensures { result ≡ record {
          checkers = checkers;
          name = name;
          rounds = rounds;
          starts = starts;
        } }
    {
        Head {
            checkers,
            name,
            rounds,
            starts,
        }
    }

    /// How many checkers a side has, 1 to 3.
    pub fn checkers(&self) -> u8
        ensures checkers { result ≡ self.now.checkers }
        ensures valid { IsHead self.now }
    {
        self.checkers
    }

    /// Which stakes the game is played for.
    pub fn name(&self) -> StakesName
        ensures name { result ≡ self.now.name }
        ensures valid { IsHead self.now }
    {
        self.name
    }

    /// How many rounds the words have had, 1 to 4,096.
    pub fn rounds(&self) -> u32
        ensures rounds { result ≡ self.now.rounds }
        ensures valid { IsHead self.now }
    {
        self.rounds
    }

    /// What the scores before this one are worth; for stakes that aren't a match no pair.
    pub fn starts(&self) -> &Starts
        ensures starts { result.now ≡ self.now.starts }
        ensures valid { IsHead self.now }
    {
        &self.starts
    }

    /// What the game is played for.
    pub fn stakes(&self) -> Stakes
        ensures stakes { result ≡ stakes_of self.now }
        ensures valid { IsHead self.now }
    {
        match self.name {
            StakesName::Unlimited(rule) => Stakes::unlimited(rule),
            StakesName::Match(score) => Stakes::of_score(score, &self.starts),
        }
    }

    /// How many kinds of state there are, 1 to 14.
    pub fn kinds(&self) -> usize
        ensures kinds { result ≡ length (names_of self.now.name) }
        ensures of_stakes { result ≡ length (stakes_of self.now).kinds }
        ensures few { result ≤ 14 }
    {
        self.stakes().kinds()
    }

    /// How many live positions of so many checkers there are. It walks over all positions.
    pub fn positions(&self) -> u64
        ensures { result ≡ live_positions self.now.checkers }
    {
        live_count(self.checkers)
    }
}

/// How many scores of a match come before this one; all of them where it isn't there.
pub(crate) fn ladder_place(match_length: u8, score: Score) -> usize
    requires from { 1 ≤ match_length }
    requires to { match_length ≤ 5 }
    ensures { result ≡ ladder_place match_length score }
{
    let scores = ladder(match_length);
    scores
        .as_slice()
        .iter()
        .position(|other| is_same(score, *other))
        .unwrap_or(scores.len())
}

fn is_same(score: Score, other: Score) -> bool
    ensures { result ≡ same_score score other }
{
    score == other
}
