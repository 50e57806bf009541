ghost use Rattle.std.specs.Prelude.{◌≡◌, ◌≤◌, ◌⊎◌, IfOk, OnErr, Err};
ghost use Rattle.hyper_outside.specs.Causes.{Rose};
ghost use Rattle.outside_log.specs.Readings.{is_faithful, read_faults};
ghost use Rattle.outside_log.specs.Log.{LeavesPlaces, failures, standing};
ghost use Rattle.outside_log.specs.Sink.{Puts};
ghost use Rattle.database_file.specs.Texts.{AreWordsOf};
ghost use Rattle.equity_report.specs.declared.refusal.Refusal.TheVariants.{Read};
ghost use Rattle.command_line.specs.Right.{IsRightSolve};
ghost use Rattle.run_endings.specs.declared.ending.RunStop.TheVariants.{NotWritten, Refused};
ghost use Rattle.run_endings.specs.Endings.{Completes, EndsBy, IsOfWriting};
ghost use Rattle.solve_commands.specs.Solves.{AreSolved, Solves, head_of, solved_file, solved_report};

use base_head::{BASE_START, Head, Header};
use command_line::Solve;
use cube_actions::StakesName;
use database_file::append_base_by;
use directed_fixed::Fixed;
use equity_report::{GameName, Refusal};
use hyper_outside::{Failed, Gate, NoMemory};
use interval_words::{Closed, Words};
use outside_log::{Files, Sink};
use position_rank::layout_count;
use run_endings::{RunStop, begin, settle};
use solve_reports::{Solved, write_solved};
use std::alloc::Global;
use std::thread::Threads;
use word_pages::Version;
use worker_sweep::words_after_rounds;
use worker_team::Team;

/// The words after the rounds of the workers, of whose greatest number the gate is told.
fn solved_words<R: Threads + Sync, G: Gate + Sync>(
    team: &Team<R>,
    alloc: Global,
    task: &Solve,
    gate: &G,
) -> Result<Closed, NoMemory>
    requires { IsRightSolve task.now }
    ensures { IfOk result (AreSolved task.now) }
{
    let stakes = head_of(task, task.rounds).stakes();
    let rounds = task.rounds;
    gate.expect(rounds, layout_count(task.checkers));
    words_after_rounds(
        team,
        alloc,
        task.checkers,
        &stakes,
        rounds,
        task.width,
        gate,
    )
}

/// The head of the file after so many rounds.
fn head_of(task: &Solve, made: u32) -> Head
    requires right { IsRightSolve task.now }
    requires made { (1 ≤ made) × (made ≤ 4096) }
    ensures { result ≡ head_of task.now made }
{
    Head::unlimited(task.checkers, task.rule, made)
}

/// Puts the report on words after so many rounds, whose widest pair is so wide.
fn report<O: Sink>(task: &Solve, made: u32, widest: Fixed, out: &mut O) -> Result<(), Failed>
    requires right { IsRightSolve task.now }
    requires made { (1 ≤ made) × (made ≤ 4096) }
    ensures { Puts (O.output out.old) (O.output out.new)
        (solved_report task.now made widest) result }
{
    let header = Header::of(&head_of(task, made), Version::Three);
    let solved = Solved {
        game: GameName {
            checkers: task.checkers,
            stakes: StakesName::Unlimited(task.rule),
            match_length: 1,
        },
        rounds: made,
        workers: task.workers,
        positions: header.positions,
        kinds: u64::from(header.kinds),
        widest,
        bytes: header.file_length(),
    };
    write_solved(out, &solved, task.file.as_str())
}

/// Adds the file's text to what was begun for it, puts the report, and has the file take its place.
fn complete<R: Threads + Sync, F: Files, O: Sink>(
    team: &Team<R>,
    alloc: Global,
    task: &Solve,
    words: &Words,
    widest: Fixed,
    files: &mut F,
    out: &mut O,
) -> Result<(), Failed>
    requires right { IsRightSolve task.now }
    requires words { AreWordsOf (head_of task.now words.now.rounds) words.now }
    requires made { (1 ≤ words.now.rounds) × (words.now.rounds ≤ 4096) }
    ensures { Completes task.now.file (solved_file task.now words.now)
        (solved_report task.now words.now.rounds widest) (F.log files.old) (F.log files.new)
        (O.output out.old) (O.output out.new) result }
{
    let name = task.file.as_str();
    let made = words.rounds();
    let head = head_of(task, made);
    append_base_by(team, alloc, files, name, &head, words, Version::Three)?;
    let put = report(task, made, widest, out);
    settle(files, name, put)
}

/// Begins the file, solves the game, writes the file and puts the report, before the file takes its name's place. After an error no file has
/// changed: where writing failed, or what stands there is of another kind or couldn't be looked at, or there was no memory.
pub fn run_solve<R: Threads + Sync, F: Files, O: Sink, G: Gate + Sync>(
    team: &Team<R>,
    alloc: Global,
    task: &Solve,
    files: &mut F,
    out: &mut O,
    gate: &G,
) -> Result<(), RunStop>
    requires right { IsRightSolve task.now }
    requires team { team.now ≡ task.now.workers }
    ensures ends { EndsBy IsOfWriting result }
    ensures solves { Solves task.now (is_faithful (F.log files.new))
        (standing (F.log files.old) task.now.file) (F.log files.old) (F.log files.new)
        (O.output out.old) (O.output out.new) result }
    ensures cause { result ≡ Err NotWritten
        → Rose (failures (F.log files.old)) (failures (F.log files.new))
        ⊎ Rose (O.output out.old).faults (O.output out.new).faults }
    ensures read_cause { result ≡ Err (Refused Read)
        → Rose (read_faults (F.log files.old)) (read_faults (F.log files.new)) }
    ensures leaves { OnErr result (LeavesPlaces (F.log files.old) (F.log files.new)) }
{
    let name = task.file.as_str();
    begin(files, name, &BASE_START)?;
    let Ok(closed) = solved_words(team, alloc, task, gate) else {
        files.give_up(name);
        return Err(RunStop::Refused(Refusal::Memory));
    };
    let words = closed.words();
    complete(team, alloc, task, words, words.widest(), files, out)?;
    Ok(())
}
