ghost use Rattle.std.specs.Prelude.{◌≡◌, ◌≢◌, ◌≤◌, [], ◌∷◌, ◌++◌, OnOk, IfErr, Err, length};
ghost use Rattle.hyper_outside.specs.Causes.{Rose};
ghost use Rattle.outside_log.specs.Readings.{ReadsOn, is_faithful, read_faults};
ghost use Rattle.outside_log.specs.Log.{LeavesPlaces, Started, failures, standing};
ghost use Rattle.equity_report.specs.declared.refusal.Refusal.TheVariants.{Read};
ghost use Rattle.run_endings.specs.declared.ending.RunStop.TheVariants.{NotWritten, Refused};
ghost use Rattle.run_endings.specs.Beginnings.{MayTakePlace, StopsBeginning};
ghost use Rattle.run_endings.specs.Endings.{Settles};

use crate::ending::RunStop;
use equity_report::{FileName, Refusal};
use hyper_outside::Failed;
use outside_log::{Files, begins_otherwise};

/// Looks at what stands under a name for which a file was begun, which is given up where that has a byte and begins otherwise than with
/// `start`, or can't be looked at.
fn look<F: Files>(files: &mut F, name: &str, start: &[u8]) -> Result<(), RunStop>
    requires name { length name.now ≤ 272 }
    requires start { length start.now ≤ 32 }
    ensures stays { OnOk result (ReadsOn (F.log files.old) (F.log files.new)) }
    ensures leaves { LeavesPlaces (F.log files.old) (F.log files.new) }
    ensures may { OnOk result (MayTakePlace start.now
        (is_faithful (F.log files.new)) (standing (F.log files.old) name.now)) }
    ensures told { IfErr result (StopsBeginning start.now name.now
        (is_faithful (F.log files.new)) (standing (F.log files.old) name.now)) }
    ensures read_later { read_faults (F.log files.old) ≤ read_faults (F.log files.new) }
    ensures read_cause { result ≡ Err (Refused Read)
        → Rose (read_faults (F.log files.old)) (read_faults (F.log files.new)) }
    ensures write { result ≢ Err NotWritten }
{
    match begins_otherwise(files, name, start) {
        Ok(false) => Ok(()),
        Ok(true) => {
            files.give_up(name);
            Err(RunStop::Refused(Refusal::Other(FileName::from(name).unwrap())))
        }
        Err(Failed) => {
            files.give_up(name);
            Err(RunStop::Refused(Refusal::Read))
        }
    }
}

/// Begins the file that is to take a name's place, unless a file stands there that has a byte and begins otherwise than with `start`. That
/// the file can be written is known before any work is done for it.
pub fn begin<F: Files>(files: &mut F, name: &str, start: &[u8]) -> Result<(), RunStop>
    requires name { length name.now ≤ 272 }
    requires start { length start.now ≤ 32 }
    ensures begun { OnOk result
        (ReadsOn (F.log files.old ++ Started name.now ∷ []) (F.log files.new)) }
    ensures leaves { LeavesPlaces (F.log files.old) (F.log files.new) }
    ensures may { OnOk result (MayTakePlace start.now
        (is_faithful (F.log files.new)) (standing (F.log files.old) name.now)) }
    ensures told { IfErr result (StopsBeginning start.now name.now
        (is_faithful (F.log files.new)) (standing (F.log files.old) name.now)) }
    ensures later { failures (F.log files.old) ≤ failures (F.log files.new) }
    ensures read_later { read_faults (F.log files.old) ≤ read_faults (F.log files.new) }
    ensures write_cause { result ≡ Err NotWritten
        → Rose (failures (F.log files.old)) (failures (F.log files.new)) }
    ensures read_cause { result ≡ Err (Refused Read)
        → Rose (read_faults (F.log files.old)) (read_faults (F.log files.new)) }
{
    match files.start(name) {
        Ok(()) => look(files, name, start),
        Err(Failed) => Err(RunStop::NotWritten),
    }
}

/// Has the file that was begun for a name take its place where the report on it was put, and else gives it up.
pub fn settle<F: Files>(files: &mut F, name: &str, put: Result<(), Failed>) -> Result<(), Failed>
    ensures { Settles name.now put (F.log files.old) (F.log files.new) result }
{
    match put {
        Ok(()) => files.finish(name),
        Err(failed) => {
            files.give_up(name);
            Err(failed)
        }
    }
}
