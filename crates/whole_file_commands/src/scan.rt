ghost use Rattle.std.specs.Prelude.{◌≡◌, ℕ, Err};
ghost use Rattle.hyper_outside.specs.Causes.{Rose};
ghost use Rattle.outside_log.specs.Log.{standing};
ghost use Rattle.outside_log.specs.Readings.{ReadsOn, is_faithful, read_faults};
ghost use Rattle.equity_report.specs.declared.refusal.Refusal.TheVariants.{Condition, Read};
ghost use Rattle.command_line.specs.Right.{IsRightScan};
ghost use Rattle.run_endings.specs.Endings.{EndsBy, IsOfScanning};
ghost use Rattle.run_endings.specs.declared.ending.RunStop.TheVariants.{Refused};
ghost use Rattle.whole_file_commands.specs.Scans.{TellsScan};

use base_scan::{read_condition, scan};
use command_line::Scan;
use equity_report::Refusal;
use hyper_outside::{Failed, Gate};
use outside_log::{Files, Sink};
use run_endings::{RunStop, load_file};
use std::alloc::Global;
use std::thread::Threads;
use whole_file_reports::write_scan;
use word_pages::Version;
use worker_team::Team;

/// Reads the condition, loads the file, searches its states by the task's workers and puts the report. It is refused by `Condition` where the text is
/// that of none, for which the files are not asked, by `Missing` or `File` where the file isn't there or isn't right, by `Read` where reading
/// failed, and by `Memory`. `NotWritten` comes where putting failed.
pub fn run_scan<R: Threads + Sync, F: Files, O: Sink, G: Gate + Sync>(
    team: &Team<R>,
    alloc: Global,
    task: &Scan,
    files: &mut F,
    out: &mut O,
    gate: &G,
) -> Result<(), RunStop>
    requires right { IsRightScan task.now }
    requires team { team.now ≡ task.now.workers }
    ensures ends { EndsBy IsOfScanning result }
    ensures tells { TellsScan task.now (is_faithful (F.log files.new))
        (standing (F.log files.old) task.now.file)
        (O.output out.old) (O.output out.new) result }
    ensures read_cause { result ≡ Err (Refused Read)
        → Rose (read_faults (F.log files.old)) (read_faults (F.log files.new)) }
    ensures reads { ReadsOn (F.log files.old) (F.log files.new) }
    ensures untouched { (word : ℕ) → result ≡ Err (Refused (Condition word))
        → files.new ≡ files.old }
{
    let condition = match read_condition(task.condition.as_str()) {
        Ok(condition) => condition,
        Err(bad) => return Err(RunStop::Refused(Refusal::Condition { word: bad.word })),
    };
    let name = task.file.as_str();
    let base = load_file(team, alloc, name, files, Version::Three, gate)?;
    let Ok(found) = scan(team, alloc, base.words(), &condition, gate) else {
        return Err(RunStop::Refused(Refusal::Memory));
    };
    match write_scan(out, base.words(), &found) {
        Ok(()) => Ok(()),
        Err(Failed) => Err(RunStop::NotWritten),
    }
}
