ghost use Rattle.std.specs.Prelude.{◌≡◌, ◌≤◌, ◌++◌, ◌+◌, ℕ, codes, decimal, length};
ghost use Rattle.equity_report.specs.Refusals.{words_text, bad_words_text, file_fault_text, bad_file_text, base_text, wanted_text, position_kind, roll_kind, status_of, reason_text, refusal_told, refusal_text};
ghost use Rattle.outside_log.specs.Sink.{Puts};

use crate::record::add_bad_record;
use crate::text::{GameName, Report, add_counted, add_game, add_number, add_stakes};
use crate::unheld::{Unheld, add_unheld};
use arrayvec::ArrayString;
use base_head::{BadFile, FileFault};
use cube_actions::{KindName, Score, StakesName};
use cube_text::print_kind;
use game_record::BadRecord;
use hyper_outside::{BadWords, Failed, WordsKind};
use outside_log::Sink;
use position_text::BadPosition;
use roll_table::BadRoll;

/// A file's name: one of a command, of at most 255 bytes, or that of a score, which begins with such a one.
pub type FileName = ArrayString<272>;

/// What a run wants of the game of a file, or of the words, and what that game hasn't.
#[derive(Clone, Copy)]
pub enum Wanted {
    /// So many checkers a side.
    Checkers(u8),
    /// This kind of state.
    Kind(KindName),
    /// These checkers a side and these stakes.
    Fits(GameName),
    /// A match to so many points, at this score.
    Scored { score: Score, match_length: u8 },
}

/// Why a run was refused.
#[derive(Clone, Copy)]
pub enum Refusal {
    /// The words are outside their form.
    Words(BadWords),
    /// The position's text is refused.
    Position(BadPosition),
    /// There is no file of this name.
    Missing(FileName),
    /// The file's bytes aren't a file text.
    File(BadFile),
    /// Reading failed.
    Read,
    /// Writing failed.
    Write,
    /// There was no memory.
    Memory,
    /// The game of the file, or of the words, isn't the one that is wanted.
    Base { wanted: Wanted, found: GameName },
    /// The roll's text is refused.
    Roll(BadRoll),
    /// The file's words aren't consistent, and this is the first that tells it.
    Inconsistent(Unheld),
    /// The record's text is none, or the game that it tells breaks a rule.
    Record(BadRecord),
    /// The position isn't a race.
    Contact,
    /// With this word of the condition's text, counted from 0, no text of a condition can go on.
    Condition { word: u32 },
    /// A file of this name is there, and isn't of the kind that is to be written.
    Other(FileName),
}

fn words_text(kind: WordsKind) -> &'static str
    ensures text { result.now ≡ words_text kind }
    ensures short { length result.now ≤ 7 }
{
    match kind {
        WordsKind::Command => "command",
        WordsKind::Word => "word",
        WordsKind::Form => "form",
        WordsKind::Value => "value",
    }
}

fn file_fault_text(fault: FileFault) -> &'static str
    ensures text { result.now ≡ file_fault_text fault }
    ensures short { length result.now ≤ 11 }
{
    match fault {
        FileFault::Short => "short",
        FileFault::Long => "long",
        FileFault::Magic => "magic",
        FileFault::Version => "version",
        FileFault::Head => "head",
        FileFault::HeadDigest => "head-digest",
        FileFault::PageDigest => "page-digest",
        FileFault::Word => "word",
        FileFault::Crossed => "crossed",
    }
}

impl Refusal {
    /// The status with which a run ends that is refused so.
    pub fn status(&self) -> u8
        ensures status { result ≡ status_of self.now }
        ensures small { result ≤ 13 }
    {
        match self {
            Refusal::Words(_) => 1,
            Refusal::Position(_) | Refusal::Roll(_) => 2,
            Refusal::Missing(_) => 3,
            Refusal::File(_) => 4,
            Refusal::Record(_) => 5,
            Refusal::Read => 6,
            Refusal::Write => 7,
            Refusal::Memory => 8,
            Refusal::Base { .. } => 10,
            Refusal::Inconsistent(_) => 9,
            Refusal::Condition { .. } => 11,
            Refusal::Contact => 12,
            Refusal::Other(_) => 13,
        }
    }
}

fn position_kind(bad: BadPosition) -> u8
    ensures kind { result ≡ position_kind bad }
    ensures small { result ≤ 5 }
{
    bad as u8
}

fn roll_kind(bad: BadRoll) -> u8
    ensures kind { result ≡ roll_kind bad }
    ensures small { result ≤ 2 }
{
    bad as u8
}

fn add_wanted(line: &mut Report, wanted: Wanted)
    requires { length line.old.bytes ≤ 60 }
    ensures bytes { line.new.bytes ≡ line.old.bytes ++ wanted_text wanted }
    ensures length { length line.new.bytes ≤ length line.old.bytes + 100 }
{
    match wanted {
        Wanted::Checkers(checkers) => add_counted(line, "checkers", u64::from(checkers)),
        Wanted::Kind(kind) => {
            line.push_str("kind ");
            line.push_str(print_kind(kind).as_str());
        }
        Wanted::Fits(game) => add_game(line, game),
        Wanted::Scored {
            score,
            match_length,
        } => {
            line.push_str("stakes ");
            add_stakes(line, StakesName::Match(score), match_length);
        }
    }
}

fn add_base(line: &mut Report, wanted: Wanted, found: GameName)
    requires { length line.old.bytes ≤ 40 }
    ensures bytes { line.new.bytes ≡ line.old.bytes ++ base_text wanted found }
    ensures length { length line.new.bytes ≤ 300 }
{
    line.push_str("base wanted ");
    add_wanted(line, wanted);
    line.push_str(" found ");
    add_game(line, found);
}

fn add_words(line: &mut Report, bad: BadWords)
    requires { length line.old.bytes ≤ 40 }
    ensures bytes { line.new.bytes ≡ line.old.bytes ++ bad_words_text bad }
    ensures length { length line.new.bytes ≤ 120 }
{
    line.push_str("words ");
    add_counted(line, words_text(bad.kind), u64::from(bad.place));
}

fn add_bad_file(line: &mut Report, bad: BadFile)
    requires { length line.old.bytes ≤ 40 }
    ensures bytes { line.new.bytes ≡ line.old.bytes ++ bad_file_text bad }
    ensures length { length line.new.bytes ≤ 120 }
{
    line.push_str("file ");
    add_counted(line, file_fault_text(bad.fault), bad.at);
}

fn add_reason(line: &mut Report, refusal: &Refusal)
    requires { length line.old.bytes ≤ 40 }
    ensures bytes { line.new.bytes ≡ line.old.bytes ++ reason_text refusal.now }
    ensures length { length line.new.bytes ≤ 400 }
{
    match refusal {
        Refusal::Words(bad) => add_words(line, *bad),
        Refusal::Position(bad) => {
            add_counted(line, "position", u64::from(position_kind(*bad)));
        }
        Refusal::Missing(name) => {
            line.push_str("missing ");
            line.push_str(name.as_str());
        }
        Refusal::File(bad) => add_bad_file(line, *bad),
        Refusal::Read => line.push_str("read"),
        Refusal::Write => line.push_str("write"),
        Refusal::Memory => line.push_str("memory"),
        Refusal::Base { wanted, found } => add_base(line, *wanted, *found),
        Refusal::Roll(bad) => {
            add_counted(line, "roll", u64::from(roll_kind(*bad)));
        }
        Refusal::Inconsistent(unheld) => add_unheld(line, unheld),
        Refusal::Record(bad) => add_bad_record(line, *bad),
        Refusal::Contact => line.push_str("contact"),
        Refusal::Condition { word } => add_counted(line, "condition", u64::from(*word)),
        Refusal::Other(name) => {
            line.push_str("other ");
            line.push_str(name.as_str());
        }
    }
}

/// Adds a refusal's number and what it says, as `2 position 4`.
pub fn add_refusal(line: &mut Report, refusal: &Refusal)
    requires { length line.old.bytes ≤ 10 }
    ensures bytes { line.new.bytes ≡ line.old.bytes ++ refusal_told refusal.now }
    ensures length { length line.new.bytes ≤ 400 }
{
    add_number(line, u64::from(refusal.status()));
    line.push_str(" ");
    add_reason(line, refusal);
}

/// Puts a refusal's line, as `refused 2 position 4`. `Failed` comes only where `put` failed; then a front of the line was put.
pub fn write_refusal<O: Sink>(out: &mut O, refusal: &Refusal) -> Result<(), Failed>
    ensures { Puts (O.output out.old) (O.output out.new) (refusal_text refusal.now) result }
{
    let mut line = Report::new();
    line.push_str("refused ");
    add_refusal(&mut line, refusal);
    line.push_str("\n");
    out.put(line.as_str().as_bytes())
}
