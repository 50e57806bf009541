ghost use Rattle.std.specs.Prelude.{◌≡◌, ◌≤◌, IsTrue, IfErr, IfOk, Err};
ghost use Rattle.position_rank.specs.Placement.{IsPosition, IsLive};
ghost use Rattle.roll_table.specs.Rolls.{IsRoll};
ghost use Rattle.hyper_outside.specs.Causes.{Rose};
ghost use Rattle.outside_log.specs.Log.{standing};
ghost use Rattle.outside_log.specs.Readings.{ReadsOn, is_faithful, read_faults};
ghost use Rattle.database_file.specs.Paged.{KeepsPagesOf};
ghost use Rattle.equity_report.specs.declared.refusal.Refusal.TheVariants.{Read};
ghost use Rattle.command_line.specs.Right.{IsRightAdviseList};
ghost use Rattle.run_endings.specs.Endings.{EndsBy, IsOfListing, IsOutside};
ghost use Rattle.run_endings.specs.Notes.{PutsTally};
ghost use Rattle.run_endings.specs.declared.ending.RunStop.TheVariants.{Refused as RunRefused};
ghost use Rattle.base_commands.specs.AdviseLists.{AdvisesLine, AdvisesRolled};
ghost use Rattle.base_commands.specs.ListAnswers.{IsTellable, OfOpened, TellsListed};

use crate::advise::ranking_of;
use crate::advise_laws::looked_up_rankings_are_of_the_file;
use crate::list_answers::{LineAnswer, LineSought, RankedLine, run_list, stop_answer};
use crate::lists::{RolledPosition, read_rolled};
use command_line::AdviseList;
use cube_actions::KindName;
use database_file::PagedBase;
use equity_report::Refusal;
use hyper_outside::Gate;
use outside_log::{Files, Sink};
use run_endings::{RunStop, asked_kind};
use std::alloc::Global;
use std::thread::Threads;
use worker_team::Team;

/// What a file says of a position and a roll.
fn advise_rolled<F: Files>(
    base: &mut PagedBase,
    files: &mut F,
    asked: Option<KindName>,
    rolled: RolledPosition,
) -> Result<LineAnswer, Refusal>
    requires position { IsPosition rolled.position }
    requires live { IsLive rolled.position }
    requires roll { IsRoll rolled.roll }
    requires of_file { KeepsPagesOf base.old (F.log files.old) }
    ensures told { IsTrue (is_faithful (F.log files.new)) → IfOk result (λ answer.
        OfOpened base.old (standing (F.log files.old) base.old.name)
        (λ bytes. AdvisesRolled base.old.name asked bytes rolled answer)) }
    ensures tellable { IfOk result IsTellable }
    ensures of_file { KeepsPagesOf base.new (F.log files.new) }
    ensures kept { base.new ≡ record base.old { kept = base.new.kept } }
    ensures later { read_faults (F.log files.old) ≤ read_faults (F.log files.new) }
    ensures cause { result ≡ Err Read
        → Rose (read_faults (F.log files.old)) (read_faults (F.log files.new)) }
    ensures reads { ReadsOn (F.log files.old) (F.log files.new) }
    ensures outside { IfErr result IsOutside }
{
    looked_up_rankings_are_of_the_file();
    let kind = match asked_kind(base.head(), &rolled.position, asked) {
        Ok(kind) => kind,
        Err(refusal) => return Ok(LineAnswer::Refused(refusal)),
    };
    match ranking_of(base, files, &rolled.position, kind.number, rolled.roll) {
        Ok(ranking) => Ok(LineAnswer::Ranked(RankedLine {
            rolled,
            kind,
            ranking,
        })),
        Err(stop) => stop_answer(stop),
    }
}

/// What a file says of a line.
pub(crate) fn advise_line<F: Files>(
    base: &mut PagedBase,
    files: &mut F,
    asked: Option<KindName>,
    line: &[u8],
) -> Result<LineAnswer, Refusal>
    requires { KeepsPagesOf base.old (F.log files.old) }
    ensures told { IsTrue (is_faithful (F.log files.new)) → IfOk result (λ answer.
        OfOpened base.old (standing (F.log files.old) base.old.name)
        (λ bytes. AdvisesLine base.old.name asked bytes line.now answer)) }
    ensures tellable { IfOk result IsTellable }
    ensures of_file { KeepsPagesOf base.new (F.log files.new) }
    ensures kept { base.new ≡ record base.old { kept = base.new.kept } }
    ensures later { read_faults (F.log files.old) ≤ read_faults (F.log files.new) }
    ensures cause { result ≡ Err Read
        → Rose (read_faults (F.log files.old)) (read_faults (F.log files.new)) }
    ensures reads { ReadsOn (F.log files.old) (F.log files.new) }
    ensures outside { IfErr result IsOutside }
{
    match read_rolled(line) {
        Ok(rolled) => advise_rolled(base, files, asked, rolled),
        Err(refusal) => Ok(LineAnswer::Refused(refusal)),
    }
}

/// Puts the best play of each line of a list, a position and a roll, in the order of the lines, as `advise` ranks the plays of the line's
/// position and roll alone: its line has the position, the roll and the kind, the first play, its pair, in points and in units, and what it loses
/// at most; where that is refused it has the refusal behind a `!`, and the next line is advised on. The run itself is refused as showing a
/// list is. `NotWritten` comes where putting failed. How many lines are wrong is noted where all was done.
pub fn run_advise_list<R: Threads + Sync, F: Files, O: Sink, N: Sink, G: Gate>(
    team: &Team<R>,
    alloc: Global,
    task: &AdviseList,
    files: &mut F,
    out: &mut O,
    notes: &mut N,
    gate: &G,
) -> Result<(), RunStop>
    requires team { team.now ≡ task.now.workers }
    requires right { IsRightAdviseList task.now }
    ensures ends { EndsBy IsOfListing result }
    ensures tells { TellsListed task.now.file task.now.list
        (AdvisesLine task.now.file task.now.kind)
        (is_faithful (F.log files.new)) (standing (F.log files.old))
        (O.output out.old) (O.output out.new) result }
    ensures read_cause { result ≡ Err (RunRefused Read)
        → Rose (read_faults (F.log files.old)) (read_faults (F.log files.new)) }
    ensures reads { ReadsOn (F.log files.old) (F.log files.new) }
    ensures noted { PutsTally result (N.output notes.old) (N.output notes.new) }
{
    let file = task.file.as_str();
    let list = task.list.as_str();
    run_list(
        team,
        alloc,
        file,
        list,
        LineSought::Play(task.kind),
        files,
        out,
        notes,
        gate,
    )
}
