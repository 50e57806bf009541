ghost use Rattle.std.specs.Prelude.{◌≡◌, ◌≢◌, ◌≤◌, IfErr, Err, length};
ghost use Rattle.hyper_outside.specs.Causes.{Rose};
ghost use Rattle.outside_log.specs.Log.{standing};
ghost use Rattle.outside_log.specs.Readings.{ReadsOn, is_faithful, read_faults};
ghost use Rattle.outside_log.specs.Sink.{Puts};
ghost use Rattle.turn_rule.specs.States.{IsState};
ghost use Rattle.equity_report.specs.declared.refusal.Refusal.TheVariants.{Read};
ghost use Rattle.command_line.specs.Right.{IsRightVerify};
ghost use Rattle.run_endings.specs.Endings.{EndsBy, IsOfVerifying};
ghost use Rattle.run_endings.specs.declared.ending.RunStop.TheVariants.{Refused};
ghost use Rattle.whole_file_commands.specs.Verifies.{AnswersCheck, AnswersVerify, TellsFinding, TellsVerified, verified_report};

use base_head::{Head, Header};
use base_verify::{Finding, VerifyStop, findings_tell_inconsistency, verify};
use command_line::Verify;
use database_file::Base;
use equity_report::{Refusal, Unheld};
use hyper_outside::{Failed, Gate};
use outside_log::{Files, Sink};
use play_analyser::losses_enclose_regrets;
use position_rank::layout_count;
use run_endings::{RunStop, game_told, load_file};
use std::alloc::Global;
use std::thread::Threads;
use whole_file_reports::write_verified;
use word_pages::Version;
use worker_team::Team;

/// What is told of a finding in a loaded file.
fn unheld_of(base: &Base, finding: &Finding) -> Unheld
    requires { IsState base.now.words.game finding.now.position finding.now.kind }
    ensures { TellsFinding base.now.head finding.now result }
{
    let stakes = base.head().stakes();
    Unheld {
        side: finding.side,
        kind: stakes.kind_name(finding.kind),
        stored: finding.stored,
        computed: finding.computed,
        position: finding.position,
    }
}

/// Nothing, where the words of a loaded file are consistent, else the refusal that tells the first one that doesn't hold. It asks for
/// memory, and may answer that refusal.
fn check<R: Threads + Sync, G: Gate + Sync>(
    team: &Team<R>,
    alloc: Global,
    base: &Base,
    gate: &G,
) -> Result<(), Refusal>
    ensures told { AnswersCheck base.now result }
    ensures kinds { IfErr result IsOfVerifying }
    ensures unread { result ≢ Err Read }
{
    base.words().right();
    gate.expect(1, layout_count(base.head().checkers()));
    findings_tell_inconsistency();
    losses_enclose_regrets();
    match verify(team, alloc, base, gate) {
        Ok(()) => Ok(()),
        Err(VerifyStop::Inconsistent(finding)) => {
            Err(Refusal::Inconsistent(unheld_of(base, &finding)))
        }
        Err(VerifyStop::NoMemory) => Err(Refusal::Memory),
    }
}

/// What a file of the version `oldest` or a later one holds whose words are consistent, or what refuses it: it can't be
/// loaded, or they aren't.
pub(crate) fn load_verified<R: Threads + Sync, F: Files, G: Gate + Sync>(
    team: &Team<R>,
    alloc: Global,
    name: &str,
    oldest: Version,
    files: &mut F,
    gate: &G,
) -> Result<Base, Refusal>
    requires { length name.now ≤ 272 }
    ensures told { AnswersVerify oldest name.now (is_faithful (F.log files.new))
        (standing (F.log files.old) name.now) result }
    ensures reads { ReadsOn (F.log files.old) (F.log files.new) }
    ensures cause { result ≡ Err Read
        → Rose (read_faults (F.log files.old)) (read_faults (F.log files.new)) }
    ensures kinds { IfErr result IsOfVerifying }
{
    let base = load_file(team, alloc, name, files, oldest, gate)?;
    match check(team, alloc, &base, gate) {
        Ok(()) => Ok(base),
        Err(refusal) => Err(refusal),
    }
}

/// Puts the report on a file with this head.
fn report<O: Sink>(head: &Head, out: &mut O) -> Result<(), Failed>
    ensures { Puts (O.output out.old) (O.output out.new) (verified_report head.now) result }
{
    let positions = Header::of(head, Version::Three).positions;
    write_verified(out, game_told(head), head.rounds(), positions)
}

/// Loads a file, checks its words by the task's workers and puts the report. It is refused by `Missing` or `File` where the file isn't there or isn't
/// right, by `Inconsistent` where its words aren't, which tells the first that doesn't hold, by `Read` where reading failed, and by `Memory`.
/// `NotWritten` comes where putting failed.
pub fn run_verify<R: Threads + Sync, F: Files, O: Sink, G: Gate + Sync>(
    team: &Team<R>,
    alloc: Global,
    task: &Verify,
    files: &mut F,
    out: &mut O,
    gate: &G,
) -> Result<(), RunStop>
    requires right { IsRightVerify task.now }
    requires team { team.now ≡ task.now.workers }
    ensures ends { EndsBy IsOfVerifying result }
    ensures tells { TellsVerified task.now (is_faithful (F.log files.new))
        (standing (F.log files.old) task.now.file)
        (O.output out.old) (O.output out.new) result }
    ensures read_cause { result ≡ Err (Refused Read)
        → Rose (read_faults (F.log files.old)) (read_faults (F.log files.new)) }
    ensures reads { ReadsOn (F.log files.old) (F.log files.new) }
{
    let name = task.file.as_str();
    let base = load_verified(team, alloc, name, Version::Three, files, gate)?;
    match report(base.head(), out) {
        Ok(()) => Ok(()),
        Err(Failed) => Err(RunStop::NotWritten),
    }
}
