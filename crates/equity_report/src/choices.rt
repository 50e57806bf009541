ghost use Rattle.std.specs.Prelude.{◌≡◌, ◌≤◌, length};
ghost use Rattle.equity_report.specs.Choices.{answer_text, offer_text};

use cube_actions::{Answer, Offer};

/// What an offer is called.
pub fn offer_text(offer: Offer) -> &'static str
    ensures text { result.now ≡ offer_text offer }
    ensures short { length result.now ≤ 16 }
{
    match offer {
        Offer::NoDouble => "no-double",
        Offer::Double => "double",
    }
}

/// What an answer to a double is called.
pub fn answer_text(answer: Answer) -> &'static str
    ensures text { result.now ≡ answer_text answer }
    ensures short { length result.now ≤ 16 }
{
    match answer {
        Answer::Take => "take",
        Answer::Pass => "pass",
        Answer::Beaver => "beaver",
    }
}
