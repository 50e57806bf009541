ghost use Rattle.std.specs.Prelude.{◌≡◌, ◌<◌};
ghost use Rattle.game_census.specs.Calls.{told_answer, call_number, call_of, certainty_text, told_offer};

use cube_actions::{Answer, Offer};
use play_analyser::CubeAction;

/// How many calls there are.
pub(crate) const CALLS: usize = 24;

/// The offers, in the order in which they are told.
pub(crate) const OFFERS: [Offer; 2] = [Offer::NoDouble, Offer::Double];

/// The answers, in the order in which they are told.
pub(crate) const ANSWERS: [Answer; 3] = [Answer::Take, Answer::Beaver, Answer::Pass];

/// What is advised on the cube in a state.
#[derive(Clone, Copy)]
pub(crate) struct Call {
    pub(crate) offer: Offer,
    pub(crate) answer: Answer,
    /// Whether the offer loses at most nothing.
    pub(crate) sure_offer: bool,
    /// Whether the answer loses at most nothing.
    pub(crate) sure_answer: bool,
}

impl Call {
    /// What is advised of an action.
    pub(crate) fn of(action: &CubeAction) -> Call
        ensures { result ≡ call_of action.now }
    {
        Call {
            offer: action.offer,
            answer: action.answer,
            sure_offer: action.offer_bound.units() <= 0,
            sure_answer: action.answer_bound.units() <= 0,
        }
    }

    /// Its number among all calls.
    pub(crate) fn number(self) -> usize
        ensures number { result ≡ call_number self }
        ensures few { result < CALLS }
    {
        let offer = match self.offer {
            Offer::NoDouble => 0,
            Offer::Double => 12,
        };
        let answer = match self.answer {
            Answer::Take => 0,
            Answer::Beaver => 4,
            Answer::Pass => 8,
        };
        let sure_offer = if self.sure_offer { 0 } else { 2 };
        let sure_answer = if self.sure_answer { 0 } else { 1 };
        offer + answer + sure_offer + sure_answer
    }
}

/// The name of an offer.
pub(crate) fn offer_name(offer: Offer) -> &'static str
    ensures { result.now ≡ told_offer offer }
{
    match offer {
        Offer::NoDouble => "no-double",
        Offer::Double => "double",
    }
}

/// The name of an answer.
pub(crate) fn answer_name(answer: Answer) -> &'static str
    ensures { result.now ≡ told_answer answer }
{
    match answer {
        Answer::Take => "take",
        Answer::Pass => "pass",
        Answer::Beaver => "beaver",
    }
}

/// How it is told whether something loses at most nothing.
pub(crate) fn certainty_name(sure: bool) -> &'static str
    ensures { result.now ≡ certainty_text sure }
{
    if sure { "certain" } else { "open" }
}
