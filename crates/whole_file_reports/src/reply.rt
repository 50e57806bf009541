ghost use Rattle.outside_log.specs.Sink.{Puts};
ghost use Rattle.whole_file_reports.specs.Replies.{reply_text};

use cube_actions::KindName;
use directed_fixed::Pair;
use equity_report::{Report, add_kind, add_position, add_worth};
use hyper_outside::Failed;
use outside_log::Sink;
use position_rank::Position;

/// Puts what the side to move has in a state, in five lines: the position, the kind, and three pairs in points, rounded outwards: what it has
/// at least and at most where it follows the advice of a file and the other side replies at its best, where the other side follows and it
/// replies, and by the file itself. `Failed` comes only where `put` failed; then a front of the text was put.
pub fn write_reply<O: Sink>(
    out: &mut O,
    position: &Position,
    kind: KindName,
    follow: Pair,
    reply: Pair,
    base: Pair,
) -> Result<(), Failed>
    ensures { Puts (O.output out.old) (O.output out.new)
        (reply_text position.now kind follow reply base) result }
{
    let mut report = Report::new();
    add_position(&mut report, position);
    add_kind(&mut report, kind);
    add_worth(&mut report, "follow", follow);
    add_worth(&mut report, "reply", reply);
    add_worth(&mut report, "base", base);
    out.put(report.as_str().as_bytes())
}
