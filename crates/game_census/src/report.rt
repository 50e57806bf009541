ghost use Rattle.std.specs.Prelude.{IsOkUnless};
ghost use Rattle.game_census.specs.declared.stop.Stop.TheVariants.{Unprinted};

use crate::call::{ANSWERS, Call, OFFERS, answer_name, certainty_name, offer_name};
use crate::gap::Near;
use crate::kind_census::KindCensus;
use crate::stop::{Stop, printed};
use crate::tally::Tally;
use cube_actions::{Answer, KindName, Offer};
use cube_text::print_kind;
use position_text::print_position;
use std::io::Print;

/// A line for a call that came.
fn print_call<R: Print>(rt: &R, kind: &str, call: Call, count: u64) -> Result<(), Stop>
    ensures { IsOkUnless result Unprinted }
{
    if count == 0 {
        return Ok(());
    }
    printed(println!(rt;
        "count\t{kind}\t{}\t{}\t{}\t{}\t{count}",
        offer_name(call.offer),
        answer_name(call.answer),
        certainty_name(call.sure_offer),
        certainty_name(call.sure_answer)
    ))
}

/// The lines for the calls of an offer and an answer.
fn print_sureness<R: Print>(
    rt: &R,
    kind: &str,
    tally: &Tally,
    offer: Offer,
    answer: Answer,
) -> Result<(), Stop>
    ensures { IsOkUnless result Unprinted }
{
    for (sure_offer, sure_answer) in [(true, true), (true, false), (false, true), (false, false)] {
        let call = Call {
            offer,
            answer,
            sure_offer,
            sure_answer,
        };
        print_call(rt, kind, call, tally.count(call))?;
    }
    Ok(())
}

/// The lines for the calls of an offer.
fn print_answers<R: Print>(rt: &R, kind: &str, tally: &Tally, offer: Offer) -> Result<(), Stop>
    ensures { IsOkUnless result Unprinted }
{
    for answer in ANSWERS {
        print_sureness(rt, kind, tally, offer, answer)?;
    }
    Ok(())
}

/// The lines for all calls that came.
fn print_tally<R: Print>(rt: &R, kind: &str, tally: &Tally) -> Result<(), Stop>
    ensures { IsOkUnless result Unprinted }
{
    for offer in OFFERS {
        print_answers(rt, kind, tally, offer)?;
    }
    Ok(())
}

/// A line for the nearest position, where there is one.
fn print_near<R: Print>(rt: &R, name: &str, kind: &str, near: Option<Near>) -> Result<(), Stop>
    ensures { IsOkUnless result Unprinted }
{
    let Some(Near { position, gap }) = near else {
        return Ok(());
    };
    let text = print_position(&position);
    printed(println!(rt;
        "{name}\t{kind}\t{}\t{}\t{}",
        text.as_str(),
        gap.low,
        gap.up
    ))
}

/// Prints what was counted in a kind: the calls that came, by offer and answer, then the nearest positions.
pub(crate) fn print_census<R: Print>(
    rt: &R,
    kind: KindName,
    census: &KindCensus,
) -> Result<(), Stop>
    ensures { IsOkUnless result Unprinted }
{
    let name = print_kind(kind);
    let kind = name.as_str();
    print_tally(rt, kind, &census.tally)?;
    print_near(rt, "near-answer", kind, census.answer)?;
    print_near(rt, "near-offer", kind, census.offer)
}
