ghost use Rattle.std.specs.Prelude.{◌≡◌, IfErr, IfOk, Err};
ghost use Rattle.hyper_outside.specs.Causes.{Rose};
ghost use Rattle.outside_log.specs.Log.{standing};
ghost use Rattle.outside_log.specs.Readings.{ReadsOn, is_faithful, read_faults};
ghost use Rattle.turn_rule.specs.Games.{IsGame};
ghost use Rattle.turn_rule.specs.States.{IsState};
ghost use Rattle.equity_report.specs.declared.refusal.Refusal.TheVariants.{Read};
ghost use Rattle.command_line.specs.Right.{IsRightReply};
ghost use Rattle.whole_file_commands.specs.Replies.{AnswersLoaded, AreReplies, TellsReply};
ghost use Rattle.run_endings.specs.Endings.{EndsBy, IsOfShowing};
ghost use Rattle.run_endings.specs.declared.ending.RunStop.TheVariants.{Refused};

use crate::reply_laws::replies_hold_for_any_words;
use best_reply::ReplyTable;
use command_line::Reply;
use database_file::Base;
use directed_fixed::Pair;
use equity_report::Refusal;
use hyper_outside::{Failed, Gate, NoMemory};
use interval_words::Words;
use outside_log::{Files, Sink};
use position_rank::Position;
use run_endings::{AskedKind, RunStop, asked_kind, load_file};
use std::alloc::Global;
use std::thread::Threads;
use whole_file_reports::write_reply;
use word_pages::Version;
use worker_team::Team;

/// A file that was loaded for a state of its game.
#[derive(Drop)]
pub struct LoadedFile {
    pub base: Base,
    pub kind: AskedKind,
}

/// What the side to move has in a state.
#[derive(Clone, Copy)]
pub struct FoundReply {
    /// Where it makes the plays that some words advise, and the other side replies at its best.
    pub follow: Pair,
    /// Where it replies at its best, and the other side makes the plays that the words advise.
    pub reply: Pair,
    /// By the words themselves.
    pub base: Pair,
}

/// Loads the file of a task, and finds the kind of state that is asked for; or what refuses it.
fn load_asked<R: Threads + Sync, F: Files, G: Gate>(
    team: &Team<R>,
    alloc: Global,
    task: &Reply,
    files: &mut F,
    gate: &G,
) -> Result<LoadedFile, Refusal>
    requires { IsRightReply task.now }
    ensures told { AnswersLoaded task.now (is_faithful (F.log files.new))
        (standing (F.log files.old) task.now.file) result }
    ensures game { IfOk result (λ loaded. IsGame loaded.base.words.game) }
    ensures state { IfOk result (λ loaded.
        IsState loaded.base.words.game task.now.position loaded.kind.number) }
    ensures reads { ReadsOn (F.log files.old) (F.log files.new) }
    ensures cause { result ≡ Err Read
        → Rose (read_faults (F.log files.old)) (read_faults (F.log files.new)) }
    ensures kinds { IfErr result IsOfShowing }
{
    let name = task.file.as_str();
    let base = load_file(team, alloc, name, files, Version::Three, gate)?;
    let kind = asked_kind(base.head(), &task.position, task.kind)?;
    Ok(LoadedFile { base, kind })
}

/// Both sides' pairs of a state after so many rounds, where one side makes the plays that the words advise, and the words' own.
fn replies_after<G: Gate>(
    alloc: Global,
    words: &Words,
    rounds: u32,
    position: &Position,
    kind: usize,
    gate: &G,
) -> Result<FoundReply, NoMemory>
    requires { IsState words.now.game position.now kind }
    ensures { IfOk result (AreReplies words.now rounds position.now kind) }
{
    let mut table = ReplyTable::new(alloc, words)?;
    gate.expect(rounds, 1);
    for round in 0..rounds {
        gate.pass(0, u64::from(round));
        table.sweep_all();
    }
    Ok(FoundReply {
        follow: table.follow(position, kind),
        reply: table.reply(position, kind),
        base: words.pair(position, kind),
    })
}

/// Loads the file, sweeps both sides' pairs as often as is asked for and puts the report. It is refused by `Missing` or `File` where the file isn't
/// there or isn't right, by `Base` where it is of another number of checkers or has no such kind, by `Read` where reading failed, and by `Memory`.
/// `NotWritten` comes where putting failed.
pub fn run_reply<R: Threads + Sync, F: Files, O: Sink, G: Gate>(
    team: &Team<R>,
    alloc: Global,
    task: &Reply,
    files: &mut F,
    out: &mut O,
    gate: &G,
) -> Result<(), RunStop>
    requires right { IsRightReply task.now }
    requires team { team.now ≡ 1 }
    ensures ends { EndsBy IsOfShowing result }
    ensures tells { TellsReply task.now (is_faithful (F.log files.new))
        (standing (F.log files.old) task.now.file)
        (O.output out.old) (O.output out.new) result }
    ensures read_cause { result ≡ Err (Refused Read)
        → Rose (read_faults (F.log files.old)) (read_faults (F.log files.new)) }
    ensures reads { ReadsOn (F.log files.old) (F.log files.new) }
{
    replies_hold_for_any_words();
    let LoadedFile { base, kind } = load_asked(team, alloc, task, files, gate)?;
    let position = &task.position;
    let found = replies_after(
        alloc,
        base.words(),
        task.rounds,
        position,
        kind.number,
        gate,
    )?;
    match write_reply(
        out,
        position,
        kind.name,
        found.follow,
        found.reply,
        found.base,
    ) {
        Ok(()) => Ok(()),
        Err(Failed) => Err(RunStop::NotWritten),
    }
}
