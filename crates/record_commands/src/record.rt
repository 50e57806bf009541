ghost use Rattle.std.specs.Prelude.{◌≡◌, ◌≤◌, IfErr, IfOk, Err, length, map};
ghost use Rattle.hyper_outside.specs.Causes.{Rose};
ghost use Rattle.outside_log.specs.Log.{standing};
ghost use Rattle.outside_log.specs.Readings.{ReadsOn, is_faithful, read_faults};
ghost use Rattle.game_record.specs.Replay.{StopsBy};
ghost use Rattle.game_record.specs.Lines.{AreRecordStakes, IsRecord};
ghost use Rattle.equity_report.specs.declared.refusal.Refusal.TheVariants.{Read};
ghost use Rattle.record_commands.specs.Records.{AnswersRecord, AnswersText, HoldsPlain, IsRightReplayed, IsWrongPlain, TellsUnread, at_line, game_recorded, match_length, record_refusal, stakes_recorded};
ghost use Rattle.run_endings.specs.Endings.{IsOfReplaying};

use cube_actions::{Score, StakesName};
use equity_report::{FileName, GameName, Refusal};
use game_record::{
    BadRecord, Decision, Decisions, Record, RecordFault, RecordStakes, RecordStop, Standing, replay,
};
use hyper_outside::NoMemory;
use outside_log::{Files, WholeStop, read_whole};
use plain_record::{LineFront, PlainRecord, line_front, read_plain};
use record_text::{MOST_RECORD_BYTES, read_record};
use std::alloc::Global;

/// A recorded game that breaks no rule, and its decisions in their order, each with its line of the text.
#[derive(Drop)]
pub struct Replayed {
    pub rec: Record,
    pub decisions: Decisions,
}

/// What a record is played for, in a match at the score of its first game.
fn stakes_recorded(stakes: RecordStakes) -> StakesName
    requires { AreRecordStakes stakes }
    ensures { result ≡ stakes_recorded stakes }
{
    match stakes {
        RecordStakes::Unlimited(rule) => StakesName::Unlimited(rule),
        RecordStakes::Match(points) => StakesName::Match(Score {
            near: points,
            far: points,
            phase: Standing::first(stakes).phase,
        }),
    }
}

/// The points that a match is played to, and 1 where there is none.
pub(crate) fn match_length(stakes: RecordStakes) -> u8
    ensures { result ≡ match_length stakes }
{
    match stakes {
        RecordStakes::Unlimited(_) => 1,
        RecordStakes::Match(points) => points,
    }
}

/// The game that a record is played in, in a match that of its first score.
pub(crate) fn game_recorded(rec: &Record) -> GameName
    requires { IsRecord rec.now }
    ensures { result ≡ game_recorded rec.now }
{
    GameName {
        checkers: rec.checkers,
        stakes: stakes_recorded(rec.stakes),
        match_length: match_length(rec.stakes),
    }
}

/// The refusal that tells why the file of this name, which is to hold a record, was not read.
fn unread_refusal(stop: WholeStop, name: &str) -> Refusal
    requires { length name.now ≤ 255 }
    ensures told { TellsUnread name.now stop result }
    ensures kinds { IsOfReplaying result }
{
    match stop {
        WholeStop::Missing => Refusal::Missing(FileName::from(name).unwrap()),
        WholeStop::TooLong => Refusal::Record(BadRecord {
            line: 0,
            fault: RecordFault::TooLong,
        }),
        WholeStop::ReadFault => Refusal::Read,
        WholeStop::NoMemory => Refusal::Memory,
    }
}

/// The record of which this is the plain text, replayed, or the first wrong line of it.
fn replay_plain(alloc: Global, text: &[u8]) -> Result<Replayed, RecordStop>
    ensures ok { IfOk result (HoldsPlain text.now) }
    ensures err { IfErr result (StopsBy (IsWrongPlain text.now)) }
    ensures right { IfOk result IsRightReplayed }
{
    let rec = read_record(alloc, text)?;
    let decisions = replay(alloc, &rec)?;
    Ok(Replayed { rec, decisions })
}

/// The decisions that a plain text tells, each with the line of the text that its line comes from.
fn in_text(alloc: Global, plain: &PlainRecord, told: &Decisions) -> Result<Decisions, NoMemory>
    ensures { IfOk result (λ decisions.
        decisions ≡ map (at_line plain.now.lines.items) told.now) }
{
    let mut decisions = Decisions::new(alloc);
    for place in 0..told.len() {
        let decision = told.at(place);
        let line = plain.line_of(decision.line);
        decisions.push(Decision { line, ..*decision })?;
    }
    Ok(decisions)
}

/// The refusal of a plain text that is no record's, or of a record that breaks a rule, with the line of the text.
fn record_refusal(plain: &PlainRecord, stop: RecordStop) -> Refusal
    ensures refusal { result ≡ record_refusal plain.now.lines.items stop }
    ensures kinds { IsOfReplaying result }
{
    match stop {
        RecordStop::Bad(bad) => {
            let line = plain.line_of(bad.line);
            Refusal::Record(BadRecord { line, ..bad })
        }
        RecordStop::NoMemory => Refusal::Memory,
    }
}

/// The record that a text is read as, replayed, or its first wrong line.
fn replay_text(alloc: Global, text: &[u8]) -> Result<Replayed, Refusal>
    requires { length text.now ≤ 1048576 }
    ensures told { AnswersText text.now result }
    ensures right { IfOk result IsRightReplayed }
    ensures kinds { IfErr result IsOfReplaying }
{
    let Ok(plain) = read_plain(alloc, text) else {
        return Err(Refusal::Memory);
    };
    let Replayed { rec, decisions } = match replay_plain(alloc, plain.text.as_slice()) {
        Ok(replayed) => replayed,
        Err(stop) => return Err(record_refusal(&plain, stop)),
    };
    match in_text(alloc, &plain, &decisions) {
        Ok(decisions) => Ok(Replayed { rec, decisions }),
        Err(NoMemory) => Err(Refusal::Memory),
    }
}

/// The same, and keeps the first bytes of the line that is wrong.
fn replay_keeping(alloc: Global, text: &[u8], wrong: &mut LineFront) -> Result<Replayed, Refusal>
    requires { length text.now ≤ 1048576 }
    ensures told { AnswersText text.now result }
    ensures right { IfOk result IsRightReplayed }
    ensures kinds { IfErr result IsOfReplaying }
{
    match replay_text(alloc, text) {
        Ok(replayed) => Ok(replayed),
        Err(refusal) => {
            if let Refusal::Record(bad) = &refusal {
                *wrong = line_front(text, bad.line);
            }
            Err(refusal)
        }
    }
}

/// Reads the record in a file of this name and replays it; lines are counted as in the file. `Missing` comes exactly where there is no file,
/// `Record` exactly where the file has more than 1,048,576 bytes, or what it is read as or its play has a wrong line: it tells the first, and
/// keeps the first bytes of it. A file that is too long isn't read, and takes no memory. `Read` comes only where a call that reads failed. No
/// file changes.
pub(crate) fn read_recorded<F: Files>(
    alloc: Global,
    name: &str,
    files: &mut F,
    wrong: &mut LineFront,
) -> Result<Replayed, Refusal>
    requires { length name.now ≤ 255 }
    ensures told { AnswersRecord name.now (is_faithful (F.log files.new))
        (standing (F.log files.old) name.now) result }
    ensures right { IfOk result IsRightReplayed }
    ensures later { read_faults (F.log files.old) ≤ read_faults (F.log files.new) }
    ensures cause { result ≡ Err Read
        → Rose (read_faults (F.log files.old)) (read_faults (F.log files.new)) }
    ensures reads { ReadsOn (F.log files.old) (F.log files.new) }
    ensures kinds { IfErr result IsOfReplaying }
{
    let text = match read_whole(alloc, files, name, MOST_RECORD_BYTES as u64) {
        Ok(text) => text,
        Err(stop) => return Err(unread_refusal(stop, name)),
    };
    replay_keeping(alloc, text.as_slice(), wrong)
}
