ghost use Rattle.std.specs.Prelude.{◌≡◌};
ghost use Rattle.std.specs.Int.{int_min};
ghost use Rattle.play_analyser.specs.Advice.{doubling_of};
ghost use Rattle.game_census.specs.Censuses.{no_census, with_action};
ghost use Rattle.game_census.specs.Gaps.{answer_gap, offer_gap};

use crate::call::Call;
use crate::gap::{Gap, Near, nearest};
use crate::tally::Tally;
use directed_fixed::Pair;
use play_analyser::CubeAction;
use position_rank::Position;

/// What is advised in a kind, and the positions in which it is nearest to the other choice, where there are any.
#[derive(Clone, Copy)]
pub(crate) struct KindCensus {
    pub(crate) tally: Tally,
    /// Where a take and a pass lead nearest to the same for the side that doubles.
    pub(crate) answer: Option<Near>,
    /// Where a double and rolling on do.
    pub(crate) offer: Option<Near>,
}

/// At each end the smaller one.
fn smaller(one: Pair, other: Pair) -> Pair
    ensures lower { result.lower ≡ int_min one.lower other.lower }
    ensures upper { result.upper ≡ int_min one.upper other.upper }
{
    Pair::new(
        one.lower().min(other.lower()),
        one.upper().min(other.upper()),
    )
}

/// What a double leads to, answered at its best.
fn doubling_of(action: &CubeAction) -> Pair
    ensures { result ≡ doubling_of action.now }
{
    let least = smaller(action.pass, action.take);
    match action.beaver {
        None => least,
        Some(beaver) => smaller(least, beaver),
    }
}

/// How much more a take leads to than a pass.
fn answer_gap(action: &CubeAction) -> Gap
    ensures { result ≡ answer_gap action.now }
{
    Gap::between(action.take, action.pass)
}

/// How much more a double leads to than rolling on.
fn offer_gap(rolling: Pair, action: &CubeAction) -> Gap
    ensures { result ≡ offer_gap rolling action.now }
{
    Gap::between(doubling_of(action), rolling)
}

impl KindCensus {
    /// Nothing was looked at.
    pub(crate) fn new() -> KindCensus
        ensures { result ≡ no_census }
    {
        KindCensus {
            tally: Tally::new(),
            answer: None,
            offer: None,
        }
    }

    /// One more position in which the mover may double.
    pub(crate) fn add(&mut self, position: &Position, rolling: Pair, action: &CubeAction)
        ensures { self.new ≡ with_action self.old position.now rolling action.now }
    {
        self.tally.add(Call::of(action));
        let answer = Near {
            position: *position,
            gap: answer_gap(action),
        };
        let offer = Near {
            position: *position,
            gap: offer_gap(rolling, action),
        };
        self.answer = Some(nearest(self.answer, &answer));
        self.offer = Some(nearest(self.offer, &offer));
    }
}
