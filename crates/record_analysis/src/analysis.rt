ghost use Rattle.std.specs.Prelude.{◌≡◌, ◌<◌, ◌≤◌, All, IfOk, IfSome, None, OnErr, Some, length, map, slice_get};
ghost use Rattle.record_analysis.specs.Analyses.{BestCanBeMade, IsSmallJudged, unjudged};

use cube_actions::Offer;
use directed_fixed::Pair;
use game_record::{Decision, Decisions, Player};
use hyper_outside::NoMemory;
use play_analyser::Best;
use position_rank::Position;
use std::alloc::Global;
use std::marker::Model;
use turn_rule::Choice;

/// A decision, and where it was judged, the pair of what it loses and what was best.
#[derive(Clone, Copy)]
pub struct Judged {
    pub decision: Decision,
    pub loss: Option<Pair>,
    pub best: Option<Best>,
}

impl Default for Judged {
    ghost is_default = { λ judged. judged.loss ≡ None };

    /// One that was never made, and not judged.
    fn default() -> Self {
        Judged {
            decision: Decision {
                game: 0,
                line: 0,
                player: Player::A,
                score: None,
                position: Position::start(1),
                kind: 0,
                choice: Choice::Offered(Offer::NoDouble),
            },
            loss: None,
            best: None,
        }
    }
}

/// At most 131,072 decisions of a recorded game in their order, each with the pair of what it loses
/// and what was best, where it was judged. Both ends of a pair lie from 0 to 24 points.
#[derive(Drop)]
pub struct Analysis {
    pub(crate) list: Vec<Judged>,
}

impl Model for Analysis {
    ghost use Rattle.std.specs.Prelude.{List};
    ghost use Rattle.record_analysis.specs.declared.analysis.Judged.{Judged};
    ghost use Rattle.record_analysis.specs.Analyses.{IsAnalysis};

    ghost Value = { List Judged };

    ghost view = { λ a. a.list.items };

    ghost invariant = { λ a. IsAnalysis a.list.items };
}

fn all_unjudged(alloc: Global, decisions: &Decisions) -> Result<Vec<Judged>, NoMemory>
    ensures { IfOk result (λ list. list.items ≡ map unjudged decisions.now) }
{
    let mut list = Vec::new(alloc);
    for i in 0..decisions.len() {
        let decision = *decisions.at(i);
        // A push of a decision with no such mention has no proof in this kit.
        let score = decision.score;
        list.push(Judged {
            decision: Decision { score, ..decision },
            loss: None,
            best: None,
        })?;
    }
    Ok(list)
}

impl Analysis {
    /// The decisions of a record, of which none was judged. It takes memory for all their pairs, and
    /// may answer `NoMemory`, after which the decisions are gone.
    pub fn new(alloc: Global, decisions: Decisions) -> Result<Analysis, NoMemory>
        requires { length decisions ≤ 131072 }
        ensures { IfOk result (λ analysis. analysis ≡ map unjudged decisions) }
    {
        let list = all_unjudged(alloc, &decisions)?;
        Ok(Analysis { list })
    }

    /// How many decisions there are.
    pub fn len(&self) -> usize
        ensures many { result ≡ length self.now }
        ensures few { result ≤ 131072 }
    {
        self.list.len()
    }

    /// All of them, in the order of the record.
    pub fn as_slice(&self) -> &[Judged]
        ensures all { result.now ≡ self.now }
        ensures few { length self.now ≤ 131072 }
        ensures small { All IsSmallJudged self.now }
        ensures made { All BestCanBeMade self.now }
    {
        &self.list
    }

    /// The decision at a place, counted from 0.
    pub fn decision(&self, i: usize) -> &Decision
        requires { i < length self.now }
        ensures { IfSome (slice_get self.now i) (λ judged. result.now ≡ judged.decision) }
    {
        &self.list[i].decision
    }

    /// What the decision at a place loses, counted from 0. `None` exactly where no judging has set it.
    pub fn loss(&self, i: usize) -> Option<Pair>
        requires { i < length self.now }
        ensures loss { IfSome (slice_get self.now i) (λ judged. result ≡ judged.loss) }
        ensures small { All IsSmallJudged self.now }
    {
        self.list[i].loss
    }
}
