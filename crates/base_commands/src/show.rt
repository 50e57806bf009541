ghost use Rattle.std.specs.Prelude.{◌≡◌, ◌≤◌, IsTrue, IfErr, IfOk, Err, length, sum};
ghost use Rattle.position_rank.specs.Placement.{IsPosition, IsLive};
ghost use Rattle.hyper_outside.specs.Causes.{Rose};
ghost use Rattle.outside_log.specs.Log.{standing};
ghost use Rattle.outside_log.specs.Readings.{ReadsOn, is_faithful, read_faults};
ghost use Rattle.hyper_outside.specs.declared.outside.LookStop.TheVariants.{ReadFault};
ghost use Rattle.turn_rule.specs.States.{IsStateOf};
ghost use Rattle.database_file.specs.Paged.{KeepsPagesOf};
ghost use Rattle.equity_report.specs.declared.refusal.Refusal.TheVariants.{Read};
ghost use Rattle.command_line.specs.Right.{IsRightShow};
ghost use Rattle.run_endings.specs.Endings.{EndsBy, IsOfShowing};
ghost use Rattle.run_endings.specs.declared.ending.RunStop.TheVariants.{Refused};
ghost use Rattle.base_commands.specs.Shows.{AnswersPair, AnswersRows, AnswersShow, TellsShown};

use arrayvec::ArrayVec;
use base_reports::{KindRow, write_shown};
use command_line::Show;
use database_file::PagedBase;
use directed_fixed::{End, Pair};
use equity_report::{GameName, Refusal, Wanted};
use hyper_outside::{Failed, LookStop};
use outside_log::{Files, Sink};
use position_rank::Position;
use run_endings::{RunStop, game_told, look_refusal, open_file};
use std::alloc::Global;

/// A position's pairs, one for each kind.
pub type Rows = ArrayVec<KindRow, 14>;

/// What a file says of a position.
#[derive(Drop)]
pub struct Shown {
    pub game: GameName,
    pub rounds: u32,
    pub rows: Rows,
}

/// The pair of a position in a kind.
fn pair_of<F: Files>(
    base: &mut PagedBase,
    files: &mut F,
    position: &Position,
    kind: usize,
) -> Result<Pair, LookStop>
    requires state { IsStateOf base.old.header.checkers base.old.header.kinds
        position.now kind }
    requires of_file { KeepsPagesOf base.old (F.log files.old) }
    ensures told { IsTrue (is_faithful (F.log files.new))
        → AnswersPair base.old.header (standing (F.log files.old) (base.old.name))
        position.now kind result }
    ensures of_file { KeepsPagesOf base.new (F.log files.new) }
    ensures kept { base.new ≡ record base.old { kept = base.new.kept } }
    ensures later { read_faults (F.log files.old) ≤ read_faults (F.log files.new) }
    ensures cause { result ≡ Err ReadFault
        → Rose (read_faults (F.log files.old)) (read_faults (F.log files.new)) }
    ensures reads { ReadsOn (F.log files.old) (F.log files.new) }
{
    let lower = base.look(files, position, kind, End::Lower)?;
    let upper = base.look(files, position, kind, End::Upper)?;
    // They are in order on every right page, which only files that tell their contents are known to have.
    Ok(Pair::new(lower.min(upper), lower.max(upper)))
}

/// A position's pairs in all kinds.
pub(crate) fn rows_of<F: Files>(
    base: &mut PagedBase,
    files: &mut F,
    position: &Position,
) -> Result<Rows, LookStop>
    requires position { IsPosition position.now }
    requires live { IsLive position.now }
    requires checkers { sum position.now.mover ≡ base.old.header.checkers }
    requires of_file { KeepsPagesOf base.old (F.log files.old) }
    ensures told { IsTrue (is_faithful (F.log files.new))
        → AnswersRows base.old.header
        (standing (F.log files.old) (base.old.name)) position.now result }
    ensures few { IfOk result (λ rows. length rows.items ≤ 14) }
    ensures of_file { KeepsPagesOf base.new (F.log files.new) }
    ensures kept { base.new ≡ record base.old { kept = base.new.kept } }
    ensures later { read_faults (F.log files.old) ≤ read_faults (F.log files.new) }
    ensures cause { result ≡ Err ReadFault
        → Rose (read_faults (F.log files.old)) (read_faults (F.log files.new)) }
    ensures reads { ReadsOn (F.log files.old) (F.log files.new) }
{
    let stakes = base.head().stakes();
    let mut rows = Rows::new();
    'kinds: for number in 0..stakes.kinds() {
        let pair = pair_of(base, files, position, number)?;
        rows.push(KindRow {
            kind: stakes.kind_name(number),
            pair,
        });
    }
    Ok(rows)
}

/// What a file says of a position, or what refuses it.
fn look_up<F: Files>(alloc: Global, task: &Show, files: &mut F) -> Result<Shown, Refusal>
    requires { IsRightShow task.now }
    ensures told { AnswersShow task.now (is_faithful (F.log files.new))
        (standing (F.log files.old) task.now.file) result }
    ensures few { IfOk result (λ shown. length shown.rows.items ≤ 14) }
    ensures cause { result ≡ Err Read
        → Rose (read_faults (F.log files.old)) (read_faults (F.log files.new)) }
    ensures reads { ReadsOn (F.log files.old) (F.log files.new) }
    ensures kinds { IfErr result IsOfShowing }
{
    let name = task.file.as_str();
    let mut base = open_file(alloc, name, files)?;
    let game = game_told(base.head());
    let rounds = base.head().rounds();
    let wanted = task.position.checkers();
    if wanted != game.checkers {
        return Err(Refusal::Base {
            wanted: Wanted::Checkers(wanted),
            found: game,
        });
    }
    match rows_of(&mut base, files, &task.position) {
        Ok(rows) => Ok(Shown { game, rounds, rows }),
        Err(stop) => Err(look_refusal(stop)),
    }
}

/// Puts the report of a position's pairs. It is refused by `Missing` where there is no file, by `Base` where that is of another number of
/// checkers, by `File` where something is wrong with what stands before its pages or with the position's page, by `Read` where reading failed,
/// and by `Memory`. `NotWritten` comes where putting failed.
pub fn run_show<F: Files, O: Sink>(
    alloc: Global,
    task: &Show,
    files: &mut F,
    out: &mut O,
) -> Result<(), RunStop>
    requires { IsRightShow task.now }
    ensures ends { EndsBy IsOfShowing result }
    ensures tells { TellsShown task.now (is_faithful (F.log files.new))
        (standing (F.log files.old) task.now.file)
        (O.output out.old) (O.output out.new) result }
    ensures read_cause { result ≡ Err (Refused Read)
        → Rose (read_faults (F.log files.old)) (read_faults (F.log files.new)) }
    ensures reads { ReadsOn (F.log files.old) (F.log files.new) }
{
    let shown = look_up(alloc, task, files)?;
    let rows = shown.rows.as_slice();
    match write_shown(
        out,
        task.board,
        task.id,
        &task.position,
        shown.game,
        shown.rounds,
        rows,
    ) {
        Ok(()) => Ok(()),
        Err(Failed) => Err(RunStop::NotWritten),
    }
}
