ghost use Rattle.std.specs.Prelude.{◌≡◌, ◌≤◌, All, IfOk, None, false, length};
ghost use Rattle.game_record.specs.Lines.{IsRecord};
ghost use Rattle.game_record.specs.RightDecisions.{IsRightDecision};
ghost use Rattle.game_record.specs.Turns.{has_match};
ghost use Rattle.interval_words.specs.WordLists.{source_of, words_in_list};
ghost use Rattle.record_analysis.specs.Analyses.{IsBestFor, analysis_of, losses_alone};
ghost use Rattle.record_analysis.specs.Judging.{CanBeJudged};
ghost use Rattle.record_study.specs.Studies.{AreStudied, game_of_record, stakes_studied};

use cube_actions::{MoneyRule, Stakes};
use game_record::{Decisions, Record, RecordStakes};
use hyper_outside::{Gate, NoMemory};
use interval_words::Words;
use record_analysis::{
    Analysis, analyses_enclose_what_is_lost, one_list_gives_the_analysis,
    right_decisions_can_be_judged, sure_sources_judge, tighter_words_give_tighter_analyses,
};
use std::alloc::Global;
use std::thread::Threads;
use worker_sweep::words_after_rounds;
use worker_team::Team;

/// What a record is played for. A match has no stakes of its own, and gets those of a game without a cube.
pub fn stakes_of(stakes: RecordStakes) -> Stakes
    ensures { result ≡ stakes_studied stakes }
{
    match stakes {
        RecordStakes::Unlimited(rule) => Stakes::unlimited(rule),
        RecordStakes::Match(_) => Stakes::unlimited(MoneyRule::Cubeless),
    }
}

/// The analysis of decisions of a game outside a match by words of that game.
fn analysis_by(alloc: Global, words: &Words, decisions: Decisions) -> Result<Analysis, NoMemory>
    requires few { length decisions ≤ 131072 }
    requires can { All (CanBeJudged (source_of words.now) words.now.game.stakes) decisions }
    requires plain { All (λ decision. decision.score ≡ None) decisions }
    ensures { IfOk result (λ analysis. (losses_alone analysis
        ≡ analysis_of words.now.game.stakes (words_in_list words.now) decisions)
        × All (IsBestFor words.now.game.stakes (words_in_list words.now)) analysis) }
{
    one_list_gives_the_analysis();
    sure_sources_judge();
    let mut analysis = Analysis::new(alloc, decisions)?;
    analysis
        .judge(words.stakes(), None, &mut words.reader())
        .unwrap();
    Ok(analysis)
}

/// Solves the game of a record outside a match by some rounds, and judges its decisions by that. From some number of turns
/// on, one for all decisions, each pair encloses what its decision loses exactly, for every number of workers and every gate; and each
/// is at least as tight as over so many rounds in which all states are worked out from the round before. What was best is so over what was solved. It asks for memory, and may
/// answer `NoMemory`.
pub fn study<R: Threads + Sync, G: Gate + Sync>(
    team: &Team<R>,
    alloc: Global,
    rec: &Record,
    decisions: Decisions,
    rounds: u32,
    gate: &G,
) -> Result<Analysis, NoMemory>
    requires valid { IsRecord rec.now }
    requires plain { has_match rec.now.stakes ≡ false }
    requires right { All (IsRightDecision rec.now) decisions }
    requires few { length decisions ≤ 131072 }
    requires rounds { (1 ≤ rounds) × (rounds ≤ 4096) }
    ensures { IfOk result (AreStudied (game_of_record rec.now) rounds decisions) }
{
    right_decisions_can_be_judged();
    analyses_enclose_what_is_lost();
    tighter_words_give_tighter_analyses();
    let stakes = stakes_of(rec.stakes);
    let closed = words_after_rounds(team, alloc, rec.checkers, &stakes, rounds, None, gate)?;
    let words = closed.words();
    words.right();
    analysis_by(alloc, words, decisions)
}
