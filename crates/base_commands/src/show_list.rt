ghost use Rattle.std.specs.Prelude.{◌≡◌, ◌≤◌, IsTrue, IfErr, IfOk, Err};
ghost use Rattle.position_rank.specs.Placement.{IsPosition, IsLive};
ghost use Rattle.hyper_outside.specs.Causes.{Rose};
ghost use Rattle.outside_log.specs.Log.{standing};
ghost use Rattle.outside_log.specs.Readings.{ReadsOn, is_faithful, read_faults};
ghost use Rattle.database_file.specs.Paged.{KeepsPagesOf};
ghost use Rattle.equity_report.specs.declared.refusal.Refusal.TheVariants.{Read};
ghost use Rattle.command_line.specs.Right.{IsRightShowList};
ghost use Rattle.run_endings.specs.Endings.{EndsBy, IsOfListing, IsOutside};
ghost use Rattle.run_endings.specs.Notes.{PutsTally};
ghost use Rattle.run_endings.specs.declared.ending.RunStop.TheVariants.{Refused as RunRefused};
ghost use Rattle.base_commands.specs.ListAnswers.{IsTellable, OfOpened, TellsListed};
ghost use Rattle.base_commands.specs.ShowLists.{ShowsLine, ShowsPosition};

use crate::list_answers::{LineAnswer, LineSought, ShownLine, run_list, stop_answer};
use crate::lists::read_given;
use crate::show::rows_of;
use command_line::ShowList;
use database_file::PagedBase;
use equity_report::{Refusal, Wanted};
use hyper_outside::Gate;
use outside_log::{Files, Sink};
use position_rank::Position;
use run_endings::{RunStop, game_told};
use std::alloc::Global;
use std::thread::Threads;
use worker_team::Team;

/// What a file says of a position.
fn show_position<F: Files>(
    base: &mut PagedBase,
    files: &mut F,
    position: &Position,
) -> Result<LineAnswer, Refusal>
    requires position { IsPosition position.now }
    requires live { IsLive position.now }
    requires of_file { KeepsPagesOf base.old (F.log files.old) }
    ensures told { IsTrue (is_faithful (F.log files.new)) → IfOk result (λ answer.
        OfOpened base.old (standing (F.log files.old) base.old.name)
        (λ bytes. ShowsPosition bytes position.now answer)) }
    ensures tellable { IfOk result IsTellable }
    ensures of_file { KeepsPagesOf base.new (F.log files.new) }
    ensures kept { base.new ≡ record base.old { kept = base.new.kept } }
    ensures later { read_faults (F.log files.old) ≤ read_faults (F.log files.new) }
    ensures cause { result ≡ Err Read
        → Rose (read_faults (F.log files.old)) (read_faults (F.log files.new)) }
    ensures reads { ReadsOn (F.log files.old) (F.log files.new) }
    ensures outside { IfErr result IsOutside }
{
    let game = game_told(base.head());
    let wanted = position.checkers();
    if wanted != game.checkers {
        return Ok(LineAnswer::Refused(Refusal::Base {
            wanted: Wanted::Checkers(wanted),
            found: game,
        }));
    }
    match rows_of(base, files, position) {
        Ok(rows) => Ok(LineAnswer::Shown(ShownLine {
            position: *position,
            rows,
        })),
        Err(stop) => stop_answer(stop),
    }
}

/// What a file says of a line.
pub(crate) fn show_line<F: Files>(
    base: &mut PagedBase,
    files: &mut F,
    line: &[u8],
) -> Result<LineAnswer, Refusal>
    requires { KeepsPagesOf base.old (F.log files.old) }
    ensures told { IsTrue (is_faithful (F.log files.new)) → IfOk result (λ answer.
        OfOpened base.old (standing (F.log files.old) base.old.name)
        (λ bytes. ShowsLine bytes line.now answer)) }
    ensures tellable { IfOk result IsTellable }
    ensures of_file { KeepsPagesOf base.new (F.log files.new) }
    ensures kept { base.new ≡ record base.old { kept = base.new.kept } }
    ensures later { read_faults (F.log files.old) ≤ read_faults (F.log files.new) }
    ensures cause { result ≡ Err Read
        → Rose (read_faults (F.log files.old)) (read_faults (F.log files.new)) }
    ensures reads { ReadsOn (F.log files.old) (F.log files.new) }
    ensures outside { IfErr result IsOutside }
{
    match read_given(line) {
        Ok(position) => show_position(base, files, &position),
        Err(refusal) => Ok(LineAnswer::Refused(refusal)),
    }
}

/// Puts what a file says of each line of a list, in the order of the lines, each as `show` says it of the line's position alone: its line
/// has the position, and of each kind the pair, in points and in units; where that is refused it has the refusal behind a `!`, and the next line
/// is shown. The run itself is refused by `Missing` where there is no list or no file, by `Record` where the list has more than 67,108,864
/// bytes, by `File` where something is wrong with what stands before the file's pages, by `Read` where reading failed, and by `Memory`; then
/// nothing is put. `NotWritten` comes where putting failed. How many lines are wrong is noted where all was done.
pub fn run_show_list<R: Threads + Sync, F: Files, O: Sink, N: Sink, G: Gate>(
    team: &Team<R>,
    alloc: Global,
    task: &ShowList,
    files: &mut F,
    out: &mut O,
    notes: &mut N,
    gate: &G,
) -> Result<(), RunStop>
    requires team { team.now ≡ task.now.workers }
    requires right { IsRightShowList task.now }
    ensures ends { EndsBy IsOfListing result }
    ensures tells { TellsListed task.now.file task.now.list ShowsLine
        (is_faithful (F.log files.new)) (standing (F.log files.old))
        (O.output out.old) (O.output out.new) result }
    ensures read_cause { result ≡ Err (RunRefused Read)
        → Rose (read_faults (F.log files.old)) (read_faults (F.log files.new)) }
    ensures reads { ReadsOn (F.log files.old) (F.log files.new) }
    ensures noted { PutsTally result (N.output notes.old) (N.output notes.new) }
{
    let file = task.file.as_str();
    let list = task.list.as_str();
    run_list(
        team,
        alloc,
        file,
        list,
        LineSought::Pairs,
        files,
        out,
        notes,
        gate,
    )
}
