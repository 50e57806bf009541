ghost use Rattle.std.specs.Prelude.{◌≡◌, ◌⊎◌, OnErr, Err};
ghost use Rattle.hyper_outside.specs.Causes.{Rose};
ghost use Rattle.outside_log.specs.Readings.{is_faithful, read_faults};
ghost use Rattle.outside_log.specs.Log.{LeavesPlaces, failures, standing};
ghost use Rattle.outside_log.specs.Sink.{Puts};
ghost use Rattle.equity_report.specs.declared.refusal.Refusal.TheVariants.{Read};
ghost use Rattle.command_line.specs.Right.{IsRightMigrate};
ghost use Rattle.whole_file_commands.specs.Migrates.{Migrates, latest_file, migrated_report};
ghost use Rattle.run_endings.specs.Endings.{Completes, EndsBy, IsOfMigrating};
ghost use Rattle.run_endings.specs.declared.ending.RunStop.TheVariants.{NotWritten, Refused};

use crate::verify::load_verified;
use base_head::{BASE_START, Head, Header};
use command_line::Migrate;
use database_file::{Base, append_base_by};
use hyper_outside::{Failed, Gate};
use outside_log::{Files, Sink};
use run_endings::{RunStop, begin, game_told, settle};
use std::alloc::Global;
use std::thread::Threads;
use whole_file_reports::write_migrated;
use word_pages::Version;
use worker_team::Team;

/// Puts the report on a file with this head.
fn report<O: Sink>(task: &Migrate, head: &Head, out: &mut O) -> Result<(), Failed>
    requires { IsRightMigrate task.now }
    ensures { Puts (O.output out.old) (O.output out.new)
        (migrated_report task.now head.now) result }
{
    let bytes = Header::of(head, Version::Three).file_length();
    write_migrated(
        out,
        game_told(head),
        head.rounds(),
        task.new.as_str(),
        bytes,
    )
}

/// Adds the file's text to what was begun for the new name, puts the report, and has the file take its place.
fn complete<R: Threads + Sync, F: Files, O: Sink>(
    team: &Team<R>,
    alloc: Global,
    task: &Migrate,
    base: &Base,
    files: &mut F,
    out: &mut O,
) -> Result<(), Failed>
    requires { IsRightMigrate task.now }
    ensures { Completes task.now.new (latest_file base.now) (migrated_report task.now base.now.head)
        (F.log files.old) (F.log files.new) (O.output out.old) (O.output out.new) result }
{
    let name = task.new.as_str();
    match append_base_by(
        team,
        alloc,
        files,
        name,
        base.head(),
        base.words(),
        Version::Three,
    ) {
        Ok(()) => {
            let put = report(task, base.head(), out);
            settle(files, name, put)
        }
        Err(failed) => Err(failed),
    }
}

/// Begins the new file, loads a file of any version, checks its words by the task's workers, writes it anew in the latest version and puts the report.
/// It is refused by `Other` where a file of another kind stands under the new name, by `Missing` or `File` where the old one isn't there or isn't
/// right, by `Inconsistent` where its words aren't, by `Read` where reading failed, and by `Memory`. `NotWritten` comes where writing the file or
/// putting failed. The new file takes its name's place only where all was done.
pub fn run_migrate<R: Threads + Sync, F: Files, O: Sink, G: Gate + Sync>(
    team: &Team<R>,
    alloc: Global,
    task: &Migrate,
    files: &mut F,
    out: &mut O,
    gate: &G,
) -> Result<(), RunStop>
    requires right { IsRightMigrate task.now }
    requires team { team.now ≡ task.now.workers }
    ensures ends { EndsBy IsOfMigrating result }
    ensures migrates { Migrates task.now (is_faithful (F.log files.new))
        (standing (F.log files.old))
        (F.log files.old) (F.log files.new) (O.output out.old) (O.output out.new) result }
    ensures read_cause { result ≡ Err (Refused Read)
        → Rose (read_faults (F.log files.old)) (read_faults (F.log files.new)) }
    ensures cause { result ≡ Err NotWritten
        → Rose (failures (F.log files.old)) (failures (F.log files.new))
        ⊎ Rose (O.output out.old).faults (O.output out.new).faults }
    ensures leaves { OnErr result (LeavesPlaces (F.log files.old) (F.log files.new)) }
{
    let new = task.new.as_str();
    begin(files, new, &BASE_START)?;
    let old = task.old.as_str();
    let base = match load_verified(team, alloc, old, Version::One, files, gate) {
        Ok(base) => base,
        Err(refusal) => {
            files.give_up(new);
            return Err(RunStop::Refused(refusal));
        }
    };
    match complete(team, alloc, task, &base, files, out) {
        Ok(()) => Ok(()),
        Err(Failed) => Err(RunStop::NotWritten),
    }
}
