ghost use Rattle.std.specs.Prelude.{◌≡◌, ◌↔◌, All, IfOk, IsTrue, OnErr};
ghost use Rattle.cube_actions.specs.Stakes.{IsValid};
ghost use Rattle.turn_rule.specs.Looks.{AreStakesOf, LooksUp};
ghost use Rattle.record_analysis.specs.Analyses.{BestCanBeMade, IsSmallJudged};
ghost use Rattle.record_analysis.specs.Judging.{
  CanBeJudged,
  IsAt,
  Judges,
  JudgesAll,
  JudgesSome,
  MeetsOnDecision,
  MeetsOnDecisions,
};

use crate::analysis::{Analysis, Judged};
use cube_actions::{Score, Stakes};
use game_record::Decision;
use hyper_outside::LookStop;
use play_analyser::weigh;
use turn_rule::Pairs;

/// Whether a decision was made in a game with this score, which outside a match is none.
fn is_at(judged: &Judged, score: Option<Score>) -> bool
    ensures { IsTrue result ↔ IsAt score judged.now }
{
    judged.decision.score == score
}

/// A decision with what it loses and what was best, if it was made in a game with this score, and else as it was.
fn judged_by<P: Pairs>(
    judged: &Judged,
    stakes: &Stakes,
    score: Option<Score>,
    pairs: &mut P,
) -> Result<Judged, LookStop>
    requires stakes { AreStakesOf (P.seen pairs.old).source stakes.now }
    requires valid { IsValid stakes.now }
    requires can { IsAt score judged.now
        → CanBeJudged (P.seen pairs.old).source stakes.now judged.now.decision }
    requires small { IsSmallJudged judged.now }
    requires made { BestCanBeMade judged.now }
    ensures looked { LooksUp (P.seen pairs.old) (P.seen pairs.new)
        (MeetsOnDecision score stakes.now judged.now (P.seen pairs.old).source)
        (Judges score stakes.now (P.seen pairs.old).source (P.seen pairs.new).notes judged.now)
        result }
    ensures small { IfOk result IsSmallJudged }
    ensures made { IfOk result BestCanBeMade }
    ensures source { (P.seen pairs.new).source ≡ (P.seen pairs.old).source }
    ensures stays { P.stays pairs.new ≡ P.stays pairs.old }
{
    if !is_at(judged, score) {
        return Ok(*judged);
    }
    let decision = judged.decision;
    let Decision { kind, choice, .. } = decision;
    let weighed = weigh(stakes, &decision.position, kind, &choice, pairs)?;
    Ok(Judged {
        decision,
        loss: Some(weighed.loss),
        best: Some(weighed.best),
    })
}

/// Sets what each decision loses, and what was best, that was made in a game with this score.
fn judge_list<P: Pairs>(
    list: &mut [Judged],
    stakes: &Stakes,
    score: Option<Score>,
    pairs: &mut P,
) -> Result<(), LookStop>
    requires stakes { AreStakesOf (P.seen pairs.old).source stakes.now }
    requires valid { IsValid stakes.now }
    requires can { All (λ judged. IsAt score judged
        → CanBeJudged (P.seen pairs.old).source stakes.now judged.decision) list.old }
    requires small { All IsSmallJudged list.old }
    requires made { All BestCanBeMade list.old }
    ensures looked { LooksUp (P.seen pairs.old) (P.seen pairs.new)
        (MeetsOnDecisions score stakes.now list.old (P.seen pairs.old).source)
        (λ _. JudgesAll score stakes.now (P.seen pairs.old).source (P.seen pairs.new).notes
        list.old list.new) result }
    ensures stopped { OnErr result (JudgesSome score stakes.now
        (P.seen pairs.old).source (P.seen pairs.new).notes list.old list.new) }
    ensures small { All IsSmallJudged list.new }
    ensures made { All BestCanBeMade list.new }
    ensures source { (P.seen pairs.new).source ≡ (P.seen pairs.old).source }
    ensures stays { P.stays pairs.new ≡ P.stays pairs.old }
{
    for i in 0..list.len() {
        list[i] = judged_by(&list[i], stakes, score, pairs)?;
    }
    Ok(())
}

impl Analysis {
    /// Sets what each decision loses that was made in a game with this score, and what was best, by
    /// the words of a game with these stakes; outside a match there is no score. The decisions stay,
    /// and so do the others. After a stop those before the one at which it stopped are set, and all else is as
    /// it was.
    ///
    /// It stops where a look-up does: `ReadFault` where a call of the outside failed, `BadPage` where
    /// the words of a state that may follow can't be had, `NoMemory` where there was no memory. Over
    /// pairs that are sure it answers, and takes no memory.
    pub fn judge<P: Pairs>(
        &mut self,
        stakes: &Stakes,
        score: Option<Score>,
        pairs: &mut P,
    ) -> Result<(), LookStop>
        requires stakes { AreStakesOf (P.seen pairs.old).source stakes.now }
        requires can { All (λ judged. IsAt score judged
            → CanBeJudged (P.seen pairs.old).source stakes.now judged.decision) self.old }
        ensures looked { LooksUp (P.seen pairs.old) (P.seen pairs.new)
            (MeetsOnDecisions score stakes.now self.old (P.seen pairs.old).source)
            (λ _. JudgesAll score stakes.now (P.seen pairs.old).source (P.seen pairs.new).notes
            self.old self.new) result }
        ensures stopped { OnErr result (JudgesSome score stakes.now
            (P.seen pairs.old).source (P.seen pairs.new).notes self.old self.new) }
        ensures source { (P.seen pairs.new).source ≡ (P.seen pairs.old).source }
        ensures stays { P.stays pairs.new ≡ P.stays pairs.old }
    {
        // The stakes are valid.
        let _ = stakes.bound();
        judge_list(self.list.as_mut_slice(), stakes, score, pairs)
    }
}
