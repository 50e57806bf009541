ghost use Rattle.std.specs.Prelude.{◌≡◌, ◌≤◌, ◌++◌, ◌+◌, length};
ghost use Rattle.equity_report.specs.Records.{bad_record_text, play_kind, record_fault_text};

use crate::text::{Report, add_counted};
use game_record::{BadRecord, RecordFault};
use move_rules::BadPlay;

fn play_kind(bad: BadPlay) -> u8
    ensures kind { result ≡ play_kind bad }
    ensures small { result ≤ 8 }
{
    bad as u8 + 1
}

fn add_fault(line: &mut Report, fault: RecordFault)
    requires { length line.old.bytes ≤ 120 }
    ensures bytes { line.new.bytes ≡ line.old.bytes ++ record_fault_text fault }
    ensures length { length line.new.bytes ≤ length line.old.bytes + 37 }
{
    match fault {
        RecordFault::Shape => line.push_str("shape"),
        RecordFault::Order => line.push_str("order"),
        RecordFault::Rules => line.push_str("rules"),
        RecordFault::Number => line.push_str("number"),
        RecordFault::Play => line.push_str("play"),
        RecordFault::TooLong => line.push_str("too-long"),
        RecordFault::Unended => line.push_str("unended"),
        RecordFault::IllegalPlay(bad) => {
            add_counted(line, "illegal-play", u64::from(play_kind(bad)));
        }
        RecordFault::IllegalCube => line.push_str("illegal-cube"),
        RecordFault::ScoreWrong => line.push_str("score-wrong"),
    }
}

/// Adds the number of the first wrong line and what is wrong with it.
pub(crate) fn add_bad_record(line: &mut Report, bad: BadRecord)
    requires { length line.old.bytes ≤ 40 }
    ensures bytes { line.new.bytes ≡ line.old.bytes ++ bad_record_text bad }
    ensures length { length line.new.bytes ≤ 120 }
{
    add_counted(line, "record", u64::from(bad.line));
    line.push_str(" ");
    add_fault(line, bad.fault);
}
