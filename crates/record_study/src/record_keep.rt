ghost use Rattle.std.specs.Prelude.{◌≡◌, ◌≤◌, List, All, None, false};
ghost use Rattle.game_record.specs.declared.decision.Decision.{Decision};
ghost use Rattle.match_scores.specs.Keepers.{no_pairs};
ghost use Rattle.record_study.specs.Keeping.{IsDecisionInMatch, IsJudgedSoFar, decisions_in};

use cube_actions::{Score, Starts, ladders_are_exact};
use hyper_outside::Failed;
use interval_words::Closed;
use match_scores::{Keep, start_pair};
use play_analyser::{one_list_gives_the_best, one_list_gives_the_loss};
use record_analysis::{Analysis, sure_sources_judge};
use std::marker::Model;

/// Keeps the scores of a match by judging the decisions of a record: each when the score of its game is solved. It never fails.
#[derive(Drop)]
pub struct RecordKeep {
    analysis: Analysis,
    checkers: u8,
    rounds: u32,
    /// The start pairs of the scores that were kept.
    starts: Starts,
}

impl Model for RecordKeep {
    ghost use Rattle.record_study.specs.Keeping.{JudgedMatch, IsJudgedSoFar};

    ghost Value = { JudgedMatch };

    ghost view = { λ k. record {
      checkers = k.checkers;
      rounds = k.rounds;
      starts = k.starts;
      list = k.analysis;
    } };

    ghost invariant = { λ k. IsJudgedSoFar (record {
      checkers = k.checkers;
      rounds = k.rounds;
      starts = k.starts;
      list = k.analysis;
    }) };
}

impl RecordKeep {
    /// A keeper for a match of 1 to 5 points between sides of so many checkers, solved by so many rounds. It has kept no score
    /// and judged no decision.
    pub fn new(analysis: Analysis, checkers: u8, match_length: u8, rounds: u32) -> RecordKeep
        requires points { (1 ≤ match_length) × (match_length ≤ 5) }
        requires decisions { All (λ one. IsDecisionInMatch checkers match_length one.decision)
            analysis }
        requires fresh { All (λ one. one.loss ≡ None) analysis }
        ensures checkers { result.checkers ≡ checkers }
        ensures rounds { result.rounds ≡ rounds }
        ensures starts { result.starts ≡ no_pairs match_length }
        ensures list { result.list ≡ analysis }
    {
        RecordKeep {
            analysis,
            checkers,
            rounds,
            starts: Starts::new(match_length),
        }
    }

    /// The analysis: what the decisions lose whose games' scores were kept.
    pub fn into_analysis(self) -> Analysis
        ensures list { result ≡ self.list }
        ensures judged { IsJudgedSoFar self }
    {
        self.analysis
    }
}

impl Keep for RecordKeep {
    ghost Stays = { List Decision };

    ghost stays = { λ k. decisions_in k.list };

    ghost since = { λ _ _. Unit {0} };

    ghost keeper = { λ k. record {
      checkers = k.checkers;
      rounds = k.rounds;
      starts = k.starts;
      failed = false;
      write_faults = 0;
      put_faults = 0;
    } };

    fn keep(&mut self, score: Score, starts: &Starts, words: &Closed) -> Result<(), Failed> {
        ladders_are_exact();
        one_list_gives_the_loss();
        one_list_gives_the_best();
        sure_sources_judge();
        let words = words.words();
        words.right();
        // What `match_length` ensures says that the start pairs are those of a match.
        let _length = starts.match_length();
        self.analysis
            .judge(words.stakes(), Some(score), &mut words.reader())
            .unwrap();
        self.starts.add(start_pair(score, words));
        Ok(())
    }
}
