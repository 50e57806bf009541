ghost use Rattle.std.specs.Prelude.{◌≡◌, ◌≤◌, IsTrue, IfErr, IfOk, OnOk, Err, ◌++◌, length};
ghost use Rattle.std.specs.Str.Lines.{lines};
ghost use Rattle.hyper_outside.specs.Causes.{Rose};
ghost use Rattle.outside_log.specs.Log.{standing};
ghost use Rattle.outside_log.specs.Readings.{ReadsOn, is_faithful, read_faults};
ghost use Rattle.hyper_outside.specs.declared.outside.LookStop.TheVariants.{ReadFault};
ghost use Rattle.database_file.specs.Paged.{KeepsPagesOf};
ghost use Rattle.equity_report.specs.declared.refusal.Refusal.TheVariants.{Read};
ghost use Rattle.run_endings.specs.Endings.{EndsBy, IsOfListing, IsOfLoading, IsOutside};
ghost use Rattle.run_endings.specs.Pages.{AnswersOpening};
ghost use Rattle.run_endings.specs.Notes.{PutsTally};
ghost use Rattle.run_endings.specs.declared.ending.RunStop.TheVariants.{Refused as RunRefused};
ghost use Rattle.base_commands.specs.ListAnswers.{AddsAnswer, AddsAnswers, AnswersLine, AnswersListed, AnswersStop, IsTellable, OfOpened, TellsListed, answer_line};

use crate::advise_list::advise_line;
use crate::lists::{RolledPosition, first_line, read_list};
use crate::show::Rows;
use crate::show_list::show_line;
use base_reports::{add_best_play, add_refused, add_shown};
use cube_actions::KindName;
use database_file::PagedBase;
use equity_report::Refusal;
use hyper_outside::{Failed, Gate, LookStop, NoMemory};
use outside_log::{Files, Sink};
use play_analyser::Ranking;
use position_rank::Position;
use run_endings::{AskedKind, RunStop, look_refusal, open_keeping, put_tally};
use std::alloc::Global;
use std::thread::Threads;
use worker_team::Team;

/// How many pages of the file are kept at most: as many as a file has.
const PAGES_KEPT: usize = 8192;

/// How many bytes a list has that asks for so many pages that all are read beforehand.
const LONG_LIST: usize = 262_144;

/// What is sought for each line of a list.
#[derive(Clone, Copy)]
pub enum LineSought {
    /// The pairs of the position that the line gives.
    Pairs,
    /// The best play of the position and the roll that it gives, in the kind of state of this name; where none is asked for, in the first of the
    /// file's game.
    Play(Option<KindName>),
}

/// What a file says of the position of a line, one pair for each kind.
#[derive(Drop)]
pub struct ShownLine {
    pub position: Position,
    pub rows: Rows,
}

/// What a file says of the plays of a line's roll.
#[derive(Drop)]
pub struct RankedLine {
    pub rolled: RolledPosition,
    pub kind: AskedKind,
    pub ranking: Ranking,
}

/// What is answered to a line of a list.
#[derive(Drop)]
pub enum LineAnswer {
    Shown(ShownLine),
    Ranked(RankedLine),
    Refused(Refusal),
}

/// What is answered where a look-up stopped, or what ends the run: a fault of the files, or want of memory.
pub(crate) fn stop_answer(stop: LookStop) -> Result<LineAnswer, Refusal>
    ensures answer { AnswersStop stop result }
    ensures tellable { IfOk result IsTellable }
    ensures outside { IfErr result IsOutside }
    ensures cause { result ≡ Err Read → stop ≡ ReadFault }
{
    match stop {
        LookStop::BadPage { .. } => Ok(LineAnswer::Refused(look_refusal(stop))),
        LookStop::ReadFault => Err(Refusal::Read),
        LookStop::NoMemory => Err(Refusal::Memory),
    }
}

/// What a file says of a line.
fn answer_to<F: Files>(
    base: &mut PagedBase,
    files: &mut F,
    sought: LineSought,
    line: &[u8],
) -> Result<LineAnswer, Refusal>
    requires { KeepsPagesOf base.old (F.log files.old) }
    ensures told { IsTrue (is_faithful (F.log files.new)) → IfOk result (λ answer.
        OfOpened base.old (standing (F.log files.old) base.old.name)
        (λ bytes. AnswersLine sought base.old.name bytes line.now answer)) }
    ensures tellable { IfOk result IsTellable }
    ensures of_file { KeepsPagesOf base.new (F.log files.new) }
    ensures kept { base.new ≡ record base.old { kept = base.new.kept } }
    ensures later { read_faults (F.log files.old) ≤ read_faults (F.log files.new) }
    ensures cause { result ≡ Err Read
        → Rose (read_faults (F.log files.old)) (read_faults (F.log files.new)) }
    ensures reads { ReadsOn (F.log files.old) (F.log files.new) }
    ensures outside { IfErr result IsOutside }
{
    match sought {
        LineSought::Pairs => show_line(base, files, line),
        LineSought::Play(asked) => advise_line(base, files, asked, line),
    }
}

/// Adds the line of an answer.
fn add_answer(report: &mut Vec<u8>, answer: &LineAnswer) -> Result<(), NoMemory>
    requires { IsTellable answer.now }
    ensures { OnOk result (report.new.items ≡ report.old.items ++ answer_line answer.now) }
{
    match answer {
        LineAnswer::Shown(shown) => add_shown(report, &shown.position, shown.rows.as_slice()),
        LineAnswer::Ranked(ranked) => {
            let rolled = &ranked.rolled;
            let kind = ranked.kind.name;
            add_best_play(report, &rolled.position, rolled.roll, kind, &ranked.ranking)
        }
        LineAnswer::Refused(refusal) => add_refused(report, refusal),
    }
}

/// Adds the line of the answer to a line of a list.
fn add_line<F: Files>(
    base: &mut PagedBase,
    files: &mut F,
    sought: LineSought,
    line: &[u8],
    report: &mut Vec<u8>,
) -> Result<(), Refusal>
    requires { KeepsPagesOf base.old (F.log files.old) }
    ensures added { OnOk result (AddsAnswer (AnswersLine sought base.old.name) base.old
        (standing (F.log files.old) base.old.name)
        (is_faithful (F.log files.new)) line.now report.old.items report.new.items) }
    ensures of_file { KeepsPagesOf base.new (F.log files.new) }
    ensures kept { base.new ≡ record base.old { kept = base.new.kept } }
    ensures later { read_faults (F.log files.old) ≤ read_faults (F.log files.new) }
    ensures cause { result ≡ Err Read
        → Rose (read_faults (F.log files.old)) (read_faults (F.log files.new)) }
    ensures reads { ReadsOn (F.log files.old) (F.log files.new) }
    ensures outside { IfErr result IsOutside }
{
    let answer = answer_to(base, files, sought, line)?;
    match add_answer(report, &answer) {
        Ok(()) => Ok(()),
        Err(NoMemory) => Err(Refusal::Memory),
    }
}

/// Adds the line of each answer to the lines of a list.
fn answer_lines<F: Files>(
    base: &mut PagedBase,
    files: &mut F,
    sought: LineSought,
    list: &[u8],
    report: &mut Vec<u8>,
) -> Result<(), Refusal>
    requires { KeepsPagesOf base.old (F.log files.old) }
    ensures added { OnOk result (AddsAnswers (AnswersLine sought base.old.name) base.old
        (standing (F.log files.old) base.old.name)
        (is_faithful (F.log files.new)) (lines list.now)
        report.old.items report.new.items) }
    ensures cause { result ≡ Err Read
        → Rose (read_faults (F.log files.old)) (read_faults (F.log files.new)) }
    ensures reads { ReadsOn (F.log files.old) (F.log files.new) }
    ensures outside { IfErr result IsOutside }
{
    let mut rest = list;
    'lines: while !rest.is_empty() {
        let (line, more) = first_line(rest);
        add_line(base, files, sought, line, report)?;
        rest = more;
    }
    Ok(())
}

/// Reads the pages of a file beforehand, in their order, where the list is long; the workers check them.
fn keep_for<R: Threads + Sync, F: Files, G: Gate>(
    base: &mut PagedBase,
    team: &Team<R>,
    files: &mut F,
    list: &[u8],
    gate: &G,
)
    requires of_file { KeepsPagesOf base.old (F.log files.old) }
    ensures of_file { KeepsPagesOf base.new (F.log files.new) }
    ensures kept { base.new ≡ record base.old { kept = base.new.kept } }
    ensures reads { ReadsOn (F.log files.old) (F.log files.new) }
{
    if list.len() > LONG_LIST {
        base.keep_pages(team, files, gate);
    }
}

/// Opens a file of bounds for a list, and reads its pages where that is long.
fn open_for<R: Threads + Sync, F: Files, G: Gate>(
    team: &Team<R>,
    alloc: Global,
    name: &str,
    files: &mut F,
    list: &[u8],
    gate: &G,
) -> Result<PagedBase, Refusal>
    requires { length name.now ≤ 272 }
    ensures told { IsTrue (is_faithful (F.log files.new))
        → AnswersOpening name.now (standing (F.log files.old) name.now) result }
    ensures kinds { IfErr result IsOfLoading }
    ensures name { IfOk result (λ base. base.name ≡ name.now) }
    ensures of_file { IfOk result (λ base. KeepsPagesOf base (F.log files.new)) }
    ensures later { read_faults (F.log files.old) ≤ read_faults (F.log files.new) }
    ensures cause { result ≡ Err Read
        → Rose (read_faults (F.log files.old)) (read_faults (F.log files.new)) }
    ensures reads { ReadsOn (F.log files.old) (F.log files.new) }
{
    let mut base = open_keeping(alloc, name, files, PAGES_KEPT)?;
    keep_for(&mut base, team, files, list, gate);
    Ok(base)
}

/// The report on a list, or what refuses it.
fn report_on<R: Threads + Sync, F: Files, G: Gate>(
    team: &Team<R>,
    alloc: Global,
    file: &str,
    list: &str,
    sought: LineSought,
    files: &mut F,
    gate: &G,
) -> Result<Vec<u8>, Refusal>
    requires names { (length file.now ≤ 255) × (length list.now ≤ 255) }
    ensures told { AnswersListed file.now list.now (AnswersLine sought file.now)
        (is_faithful (F.log files.new)) (standing (F.log files.old)) result }
    ensures cause { result ≡ Err Read
        → Rose (read_faults (F.log files.old)) (read_faults (F.log files.new)) }
    ensures reads { ReadsOn (F.log files.old) (F.log files.new) }
    ensures kinds { IfErr result IsOfListing }
{
    let list = read_list(alloc, list, files)?;
    let lines = list.as_slice();
    let mut base = open_for(team, alloc, file, files, lines, gate)?;
    let mut report = Vec::new(alloc);
    answer_lines(&mut base, files, sought, lines, &mut report)?;
    Ok(report)
}

/// Puts the line of each answer to the lines of a list, in their order, and notes how many lines are wrong.
pub(crate) fn run_list<R: Threads + Sync, F: Files, O: Sink, N: Sink, G: Gate>(
    team: &Team<R>,
    alloc: Global,
    file: &str,
    list: &str,
    sought: LineSought,
    files: &mut F,
    out: &mut O,
    notes: &mut N,
    gate: &G,
) -> Result<(), RunStop>
    requires names { (length file.now ≤ 255) × (length list.now ≤ 255) }
    ensures ends { EndsBy IsOfListing result }
    ensures tells { TellsListed file.now list.now (AnswersLine sought file.now)
        (is_faithful (F.log files.new)) (standing (F.log files.old))
        (O.output out.old) (O.output out.new) result }
    ensures read_cause { result ≡ Err (RunRefused Read)
        → Rose (read_faults (F.log files.old)) (read_faults (F.log files.new)) }
    ensures reads { ReadsOn (F.log files.old) (F.log files.new) }
    ensures noted { PutsTally result (N.output notes.old) (N.output notes.new) }
{
    let report = report_on(team, alloc, file, list, sought, files, gate)?;
    match out.put(report.as_slice()) {
        Ok(()) => {
            put_tally(notes, report.as_slice());
            Ok(())
        }
        Err(Failed) => Err(RunStop::NotWritten),
    }
}
