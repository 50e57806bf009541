ghost use Rattle.std.specs.Prelude.{◌≡◌, ◌⊎◌, ◌≤◌, Err, IfOk, OnErr, count_by, length};
ghost use Rattle.hyper_outside.specs.Causes.{Rose};
ghost use Rattle.outside_log.specs.Readings.{is_faithful, read_faults};
ghost use Rattle.outside_log.specs.Log.{LeavesPlaces, failures, standing};
ghost use Rattle.outside_log.specs.Sink.{Puts};
ghost use Rattle.record_text.specs.Texts.{is_line_end};
ghost use Rattle.equity_report.specs.declared.refusal.Refusal.TheVariants.{Read};
ghost use Rattle.command_line.specs.Right.{IsRightMake};
ghost use Rattle.record_commands.specs.Makes.{IsMadeFor, Makes, made_report};
ghost use Rattle.run_endings.specs.Endings.{Completes, EndsBy, IsOfWriting};
ghost use Rattle.run_endings.specs.declared.ending.RunStop.TheVariants.{NotWritten, Refused};

use command_line::Make;
use equity_report::Refusal;
use game_record::replay;
use hyper_outside::{Failed, Gate, NoMemory};
use outside_log::{Files, Sink};
use record_analysis::Analysis;
use record_maker::make_record;
use record_reports::write_made;
use record_study::study;
use record_text::{RECORD_START, print_record};
use run_endings::{RunStop, begin, settle};
use std::alloc::Global;
use std::thread::Threads;
use worker_team::Team;

/// By how many rounds the decisions of a made record are studied.
const ROUNDS: u32 = 8;

/// A record that was made: its text, and what its decisions lose.
#[derive(Drop)]
pub struct MadeRecord {
    pub text: Vec<u8>,
    pub analysis: Analysis,
}

/// Makes the record of a task, and studies its decisions.
fn make_and_study<R: Threads + Sync, G: Gate + Sync>(
    team: &Team<R>,
    alloc: Global,
    task: &Make,
    gate: &G,
) -> Result<MadeRecord, NoMemory>
    requires { IsRightMake task.now }
    ensures made { IfOk result (IsMadeFor task.now) }
    ensures short { IfOk result (λ made. length made.text.items ≤ 1048576) }
{
    let rec = make_record(alloc, task.number, task.games)?;
    let text = print_record(alloc, &rec)?;
    // What `make_record` ensures says that it breaks no rule.
    let Ok(decisions) = replay(alloc, &rec) else {
        return Err(NoMemory);
    };
    let analysis = study(team, alloc, &rec, decisions, ROUNDS, gate)?;
    Ok(MadeRecord { text, analysis })
}

/// How many lines a text has.
fn lines(text: &[u8]) -> u32
    requires { length text.now ≤ 1048576 }
    ensures { result ≡ count_by is_line_end text.now }
{
    let mut ends = 0;
    for byte in text {
        if *byte == b'\n' {
            ends += 1;
        }
    }
    ends
}

/// Puts the report on a made record.
fn report<O: Sink>(made: &MadeRecord, out: &mut O) -> Result<(), Failed>
    requires { length made.now.text.items ≤ 1048576 }
    ensures { Puts (O.output out.old) (O.output out.new) (made_report made.now) result }
{
    let text = made.text.as_slice();
    write_made(out, lines(text), text.len() as u32, &made.analysis)
}

/// Adds the record's text to the file that was begun for it, puts the report, and has the file take its place.
fn complete<F: Files, O: Sink>(
    name: &str,
    made: &MadeRecord,
    files: &mut F,
    out: &mut O,
) -> Result<(), Failed>
    requires { length made.now.text.items ≤ 1048576 }
    ensures { Completes name.now made.now.text.items (made_report made.now)
        (F.log files.old) (F.log files.new) (O.output out.old) (O.output out.new) result }
{
    match files.append(name, made.text.as_slice()) {
        Ok(()) => {}
        Err(failed) => return Err(failed),
    }
    let put = report(made, out);
    settle(files, name, put)
}

/// Begins the file, makes a record, studies its decisions by one worker, writes the file and puts the report. It is refused where a file of another kind
/// stands under the name, the name can't be looked at, or there is no memory. The file takes its name's place only where all is done.
pub fn run_make<R: Threads + Sync, F: Files, O: Sink, G: Gate + Sync>(
    team: &Team<R>,
    alloc: Global,
    task: &Make,
    files: &mut F,
    out: &mut O,
    gate: &G,
) -> Result<(), RunStop>
    requires right { IsRightMake task.now }
    requires team { team.now ≡ 1 }
    ensures ends { EndsBy IsOfWriting result }
    ensures makes { Makes task.now (is_faithful (F.log files.new))
        (standing (F.log files.old) task.now.file) (F.log files.old) (F.log files.new)
        (O.output out.old) (O.output out.new) result }
    ensures cause { result ≡ Err NotWritten
        → Rose (failures (F.log files.old)) (failures (F.log files.new))
        ⊎ Rose (O.output out.old).faults (O.output out.new).faults }
    ensures read_cause { result ≡ Err (Refused Read)
        → Rose (read_faults (F.log files.old)) (read_faults (F.log files.new)) }
    ensures leaves { OnErr result (LeavesPlaces (F.log files.old) (F.log files.new)) }
{
    let name = task.file.as_str();
    match begin(files, name, &RECORD_START) {
        Ok(()) => {}
        Err(stop) => return Err(stop),
    }
    let Ok(made) = make_and_study(team, alloc, task, gate) else {
        files.give_up(name);
        return Err(RunStop::Refused(Refusal::Memory));
    };
    match complete(name, &made, files, out) {
        Ok(()) => Ok(()),
        Err(Failed) => Err(RunStop::NotWritten),
    }
}
