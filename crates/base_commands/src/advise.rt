ghost use Rattle.std.specs.Prelude.{◌≡◌, ◌≤◌, ◌<◌, IsTrue, IfErr, IfOk, None, Err, Some};
ghost use Rattle.hyper_outside.specs.Causes.{Rose};
ghost use Rattle.outside_log.specs.Log.{standing};
ghost use Rattle.outside_log.specs.Readings.{ReadsOn, is_faithful, read_faults};
ghost use Rattle.hyper_outside.specs.declared.outside.LookStop.TheVariants.{ReadFault};
ghost use Rattle.turn_rule.specs.States.{IsStateOf};
ghost use Rattle.base_head.specs.Heads.{stakes_of};
ghost use Rattle.database_file.specs.Paged.{KeepsPagesOf};
ghost use Rattle.equity_report.specs.declared.refusal.Refusal.TheVariants.{Read};
ghost use Rattle.command_line.specs.Right.{IsRightAdvise};
ghost use Rattle.run_endings.specs.Endings.{EndsBy, IsOfShowing};
ghost use Rattle.run_endings.specs.declared.ending.RunStop.TheVariants.{Refused};
ghost use Rattle.base_commands.specs.Advises.{AnswersAdvice, AnswersCube, AnswersOpened, AnswersRanked, AnswersRanking, CanBePlayed, TellsAdvice};

use crate::advise_laws::{looked_up_advice_is_of_the_file, looked_up_rankings_are_of_the_file};
use base_reports::{write_cube, write_ranking};
use command_line::Advise;
use database_file::PagedBase;
use equity_report::Refusal;
use hyper_outside::{Failed, LookStop};
use outside_log::{Files, Sink};
use play_analyser::{CubeAdvice, Ranking, cube_advice, rank_plays};
use position_rank::Position;
use roll_table::Roll;
use run_endings::{AskedKind, RunStop, asked_kind, look_refusal, open_file};
use std::alloc::Global;

/// A file that was opened for a state of its game.
#[derive(Drop)]
pub struct OpenedFile {
    pub base: PagedBase,
    pub kind: AskedKind,
}

/// What a file says of the plays of a roll.
#[derive(Drop)]
pub struct FoundRanking {
    pub kind: AskedKind,
    pub ranking: Ranking,
}

/// What a file says of the cube.
#[derive(Clone, Copy)]
pub struct FoundAdvice {
    pub kind: AskedKind,
    pub advice: CubeAdvice,
}

/// Opens the file of a task, and finds the kind of state that is asked for.
fn open_asked<F: Files>(alloc: Global, task: &Advise, files: &mut F) -> Result<OpenedFile, Refusal>
    requires { IsRightAdvise task.now }
    ensures told { AnswersOpened task.now (is_faithful (F.log files.new))
        (standing (F.log files.old) task.now.file) result }
    ensures state { IfOk result (λ opened. IsStateOf opened.base.header.checkers
        opened.base.header.kinds task.now.position opened.kind.number) }
    ensures name { IfOk result (λ opened. opened.base.name ≡ task.now.file) }
    ensures of_file { IfOk result (λ opened.
        KeepsPagesOf opened.base (F.log files.new)) }
    ensures reads { ReadsOn (F.log files.old) (F.log files.new) }
    ensures later { read_faults (F.log files.old) ≤ read_faults (F.log files.new) }
    ensures cause { result ≡ Err Read
        → Rose (read_faults (F.log files.old)) (read_faults (F.log files.new)) }
    ensures kinds { IfErr result IsOfShowing }
{
    let name = task.file.as_str();
    let base = open_file(alloc, name, files)?;
    match asked_kind(base.head(), &task.position, task.kind) {
        Ok(kind) => Ok(OpenedFile { base, kind }),
        Err(refusal) => Err(refusal),
    }
}

/// The plays of a roll, from the best to the worst.
pub(crate) fn ranking_of<F: Files>(
    base: &mut PagedBase,
    files: &mut F,
    position: &Position,
    kind: usize,
    roll: Roll,
) -> Result<Ranking, LookStop>
    requires state { IsStateOf base.old.header.checkers base.old.header.kinds
        position.now kind }
    requires of_file { KeepsPagesOf base.old (F.log files.old) }
    ensures told { IsTrue (is_faithful (F.log files.new))
        → AnswersRanking base.old.header (standing (F.log files.old) (base.old.name))
        (stakes_of base.old.head) position.now kind roll result }
    ensures plays { IfOk result (λ ranking. CanBePlayed position.now ranking.rows.items) }
    ensures of_file { KeepsPagesOf base.new (F.log files.new) }
    ensures kept { base.new ≡ record base.old { kept = base.new.kept } }
    ensures later { read_faults (F.log files.old) ≤ read_faults (F.log files.new) }
    ensures reads { ReadsOn (F.log files.old) (F.log files.new) }
    ensures cause { result ≡ Err ReadFault
        → Rose (read_faults (F.log files.old)) (read_faults (F.log files.new)) }
{
    let stakes = base.head().stakes();
    // What `high` ensures says that the roll shows two dice.
    let _high = roll.high();
    let mut reader = base.reader(files);
    rank_plays(&stakes, position, kind, roll, &mut reader)
}

/// What to do with the cube.
fn advice_of<F: Files>(
    base: &mut PagedBase,
    files: &mut F,
    position: &Position,
    kind: usize,
) -> Result<CubeAdvice, LookStop>
    requires state { IsStateOf base.old.header.checkers base.old.header.kinds
        position.now kind }
    requires of_file { KeepsPagesOf base.old (F.log files.old) }
    ensures told { IsTrue (is_faithful (F.log files.new))
        → AnswersAdvice base.old.header (standing (F.log files.old) (base.old.name))
        (stakes_of base.old.head) position.now kind result }
    ensures reads { ReadsOn (F.log files.old) (F.log files.new) }
    ensures cause { result ≡ Err ReadFault
        → Rose (read_faults (F.log files.old)) (read_faults (F.log files.new)) }
{
    let stakes = base.head().stakes();
    let mut reader = base.reader(files);
    cube_advice(&stakes, position, kind, &mut reader)
}

/// What a file says of the plays of a roll, or what refuses it.
fn find_ranking<F: Files>(
    alloc: Global,
    task: &Advise,
    roll: Roll,
    files: &mut F,
) -> Result<FoundRanking, Refusal>
    requires right { IsRightAdvise task.now }
    requires roll { task.now.roll ≡ Some roll }
    ensures told { AnswersRanked task.now roll (is_faithful (F.log files.new))
        (standing (F.log files.old) task.now.file) result }
    ensures plays { IfOk result (λ found.
        CanBePlayed task.now.position found.ranking.rows.items) }
    ensures reads { ReadsOn (F.log files.old) (F.log files.new) }
    ensures cause { result ≡ Err Read
        → Rose (read_faults (F.log files.old)) (read_faults (F.log files.new)) }
    ensures kinds { IfErr result IsOfShowing }
{
    looked_up_rankings_are_of_the_file();
    let OpenedFile { mut base, kind } = open_asked(alloc, task, files)?;
    match ranking_of(&mut base, files, &task.position, kind.number, roll) {
        Ok(ranking) => Ok(FoundRanking { kind, ranking }),
        Err(stop) => Err(look_refusal(stop)),
    }
}

/// What a file says of the cube, or what refuses it.
fn find_advice<F: Files>(
    alloc: Global,
    task: &Advise,
    files: &mut F,
) -> Result<FoundAdvice, Refusal>
    requires right { IsRightAdvise task.now }
    requires roll { task.now.roll ≡ None }
    ensures told { AnswersCube task.now (is_faithful (F.log files.new))
        (standing (F.log files.old) task.now.file) result }
    ensures reads { ReadsOn (F.log files.old) (F.log files.new) }
    ensures cause { result ≡ Err Read
        → Rose (read_faults (F.log files.old)) (read_faults (F.log files.new)) }
    ensures kinds { IfErr result IsOfShowing }
{
    looked_up_advice_is_of_the_file();
    let OpenedFile { mut base, kind } = open_asked(alloc, task, files)?;
    match advice_of(&mut base, files, &task.position, kind.number) {
        Ok(advice) => Ok(FoundAdvice { kind, advice }),
        Err(stop) => Err(look_refusal(stop)),
    }
}

/// Puts the plays of the roll that is given, or what to do with the cube where none is. It is refused by `Missing` where there is no file, by
/// `Base` where that is of another number of checkers or has no such kind, by `File` where a fault of it bears on the advice, by `Read` where
/// reading failed, and by `Memory`. `NotWritten` comes where putting failed.
pub fn run_advise<F: Files, O: Sink>(
    alloc: Global,
    task: &Advise,
    files: &mut F,
    out: &mut O,
) -> Result<(), RunStop>
    requires { IsRightAdvise task.now }
    ensures ends { EndsBy IsOfShowing result }
    ensures tells { TellsAdvice task.now (is_faithful (F.log files.new))
        (standing (F.log files.old) task.now.file)
        (O.output out.old) (O.output out.new) result }
    ensures read_cause { result ≡ Err (Refused Read)
        → Rose (read_faults (F.log files.old)) (read_faults (F.log files.new)) }
    ensures reads { ReadsOn (F.log files.old) (F.log files.new) }
{
    match task.roll {
        Some(roll) => {
            let found = find_ranking(alloc, task, roll, files)?;
            let kind = found.kind.name;
            match write_ranking(out, task.board, &task.position, roll, kind, &found.ranking) {
                Ok(()) => Ok(()),
                Err(Failed) => Err(RunStop::NotWritten),
            }
        }
        None => {
            let found = find_advice(alloc, task, files)?;
            let kind = found.kind.name;
            match write_cube(
                out,
                task.board,
                task.take,
                &task.position,
                kind,
                &found.advice,
            ) {
                Ok(()) => Ok(()),
                Err(Failed) => Err(RunStop::NotWritten),
            }
        }
    }
}
