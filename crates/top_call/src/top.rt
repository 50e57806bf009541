ghost use Rattle.std.specs.Prelude.{◌≡◌, ◌⊎◌, Err};
ghost use Rattle.hyper_outside.specs.Causes.{Rose};
ghost use Rattle.outside_log.specs.Log.{failures};
ghost use Rattle.outside_log.specs.Readings.{read_faults};
ghost use Rattle.command_line.specs.Right.{IsRightCommand};
ghost use Rattle.equity_report.specs.declared.refusal.Refusal.TheVariants.{Read};
ghost use Rattle.run_endings.specs.declared.ending.RunStop.TheVariants.{NotWritten, Refused};
ghost use Rattle.run_endings.specs.Endings.{Ending, PutsEnding, status_at};
ghost use Rattle.run_endings.specs.Notes.{PutsNote, PutsNotes};
ghost use Rattle.top_call.specs.Outcomes.{Ends, HasRun, KeepsFiles, LeavesAllFiles, LeavesFiles, NotesBefore, RunsAsAsked, asked, asks_list, is_list, unread_refusal};

use crate::board::run_board;
use base_commands::{run_advise, run_advise_list, run_show, run_show_list, words_refusal};
use command_line::{Command, WordsStop, read_words};
use equity_report::Refusal;
use hyper_outside::Gate;
use outside_log::{Files, Sink};
use plain_record::LineFront;
use record_commands::{run_analyse, run_make, run_study};
use refusal_notes::put_note;
use run_endings::{RunStop, end};
use solve_commands::{run_bound, run_ladder, run_race, run_solve};
use std::alloc::Global;
use std::thread::Threads;
use whole_file_commands::{run_migrate, run_plan, run_reply, run_scan, run_verify};
use worker_team::Team;

/// The refusal of words that weren't read.
fn unread_refusal(stop: WordsStop) -> Refusal
    ensures { result ≡ unread_refusal stop }
{
    match stop {
        WordsStop::Bad(fault) => words_refusal(fault),
        WordsStop::NoMemory => Refusal::Memory,
    }
}

/// Does what is asked for, up to the line of a refusal. Of a line of a record that is refused the first bytes are kept.
fn perform<R: Threads + Sync, F: Files, O: Sink, N: Sink, G: Gate + Sync>(
    rt: &R,
    alloc: Global,
    command: &Command,
    files: &mut F,
    out: &mut O,
    notes: &mut N,
    gate: &G,
    wrong: &mut LineFront,
) -> Result<(), RunStop>
    requires { IsRightCommand command.now }
    ensures ends { Ends command.now result }
    ensures has_run { HasRun command.now (F.log files.old) (F.log files.new)
        (O.output out.old) (O.output out.new) result }
    ensures cause { result ≡ Err NotWritten
        → Rose (failures (F.log files.old)) (failures (F.log files.new))
        ⊎ Rose (O.output out.old).faults (O.output out.new).faults }
    ensures read_cause { result ≡ Err (Refused Read)
        → Rose (read_faults (F.log files.old)) (read_faults (F.log files.new)) }
    ensures kept { KeepsFiles command.now (F.log files.old) (F.log files.new) result }
    ensures untouched { LeavesFiles command.now result → files.new ≡ files.old }
    ensures noted { NotesBefore (is_list command.now) result
        (N.output notes.old) (N.output notes.new) }
{
    match command {
        Command::Bound(task) => run_bound(alloc, task, out),
        Command::Race(task) => run_race(alloc, task, out),
        Command::Solve(task) => {
            run_solve(&Team::new(rt, task.workers), alloc, task, files, out, gate)
        }
        Command::Show(task) => run_show(alloc, task, files, out),
        Command::ShowList(task) => {
            let team = Team::new(rt, task.workers);
            run_show_list(&team, alloc, task, files, out, notes, gate)
        }
        Command::Migrate(task) => {
            run_migrate(&Team::new(rt, task.workers), alloc, task, files, out, gate)
        }
        Command::Advise(task) => run_advise(alloc, task, files, out),
        Command::AdviseList(task) => {
            let team = Team::new(rt, task.workers);
            run_advise_list(&team, alloc, task, files, out, notes, gate)
        }
        Command::Verify(task) => {
            run_verify(&Team::new(rt, task.workers), alloc, task, files, out, gate)
        }
        Command::Ladder(task) => {
            run_ladder(&Team::new(rt, task.workers), alloc, task, files, out, gate)
        }
        Command::Study(task) => {
            let team = Team::new(rt, task.workers);
            run_study(&team, alloc, task, files, out, wrong, gate)
        }
        Command::Make(task) => run_make(&Team::new(rt, 1), alloc, task, files, out, gate),
        Command::Analyse(task) => run_analyse(alloc, task, files, out, wrong),
        Command::Plan(task) => run_plan(&Team::new(rt, 1), alloc, task, files, out, gate),
        Command::Scan(task) => {
            run_scan(&Team::new(rt, task.workers), alloc, task, files, out, gate)
        }
        Command::Reply(task) => run_reply(&Team::new(rt, 1), alloc, task, files, out, gate),
        Command::Board(task) => run_board(task, out),
    }
}

/// Ends a run of these words: puts the note and the line of the refusal where they are due, and answers the status. A line of a record that is
/// refused begins with the bytes of `wrong`.
fn conclude<O: Sink, N: Sink>(
    words: &[String],
    out: &mut O,
    notes: &mut N,
    ending: Result<(), RunStop>,
    wrong: &LineFront,
) -> u8
    ensures status { result ≡ status_at ending }
    ensures line { PutsEnding ending (O.output out.old) (O.output out.new) }
    ensures note { PutsNote ending (N.output notes.old) (N.output notes.new) }
{
    put_note(notes, words, &ending, wrong.as_slice());
    end(out, ending)
}

/// Runs the program on the words after its name, over these files, this output, these notes and this gate, and answers its status.
///
/// At status 0 the report was put. Where it is asked for, those of `bound`, `race`, `show` and `advise` have the position's board before its
/// line.
///
/// - `bound`: of a pair that encloses what the position is worth exactly in every game of at least as many turns as there were
///   rounds, however its unfinished end is scored.
/// - `race`: of how many turns a race may still take, and of a pair that encloses what it is worth exactly in every game of at least
///   as many turns, however its unfinished end is scored. The pair is at least as tight as after any number of rounds, and at most as
///   many units wide as there are turns.
/// - `solve`: the file holds, for each state, a pair at least as tight as the rounds that its head and the report tell and, in every
///   game of enough turns, however its unfinished end is scored, enclosing what the state is worth exactly, for every number of
///   workers and every gate; no other file changed. The rounds told are those asked for, or fewer where a width is asked for and no
///   pair is wider; fewer plain rounds leave some pair wider.
/// - `ladder`: each file is of a score of the match, with the start pairs of the scores before it, and each line has the start pair and
///   the width of the widest pair of its file's words. From one number of turns on for all of them, however unfinished games are
///   scored, the words enclose the game of their score with the exact payoffs of the match, and the start pairs the exact starts; all
///   are at least as tight as the asked rounds from plain starts. No other file changed.
/// - `plan`: of the take points and gammon prices of a match, from the start pairs of the file of its first game and that of its words.
///   Each encloses those of all exact starts inside these pairs; and where the file is the last one of a match that was solved, those of
///   the match itself, from one number of turns on for all of them.
/// - `show`: of the position's pairs in the file, whose header and page are right. Where a match score is asked for, the file is that of
///   the score, and so of `advise`, with the kind that the place of the cube tells.
/// - `show` with `--positions`: for each line of a list, in their order, what `show` of its position alone says by the same file, whose header
///   is right: the position's pairs, or behind a `!` the refusal of the line's text, of the position or of its page. Of a long list, and of
///   one of `advise`, the workers check the file's pages beforehand, which changes no line.
/// - `migrate`: the new file, of version 3, holds the old one's head and words. The old one is of any version, and its words are
///   consistent as those of `verify` are.
/// - `advise`: of the plays of a roll, or of what to do with the cube, by the pairs of the file, whose header and pages are right as
///   far as the advice rests on them. Where the file's pairs enclose what their states are worth exactly in every game of enough
///   turns, the best play, the offer and the answer lose, in every game of enough turns, at most the bound that is told with each.
///   With `--take` the advice is on the cube in the position with the sides exchanged, and its answer stands first.
/// - `advise` with `--rolls`: for each line of a list, a position and a roll, in their order, what `advise` of them alone says by the same file,
///   whose header is right: the best play, or behind a `!` the refusal of the line's text, of the position, the kind or a page.
/// - `verify`: of a file whose words are consistent. Whoever made it, they enclose every state in games of any number of turns, and
///   what a choice loses over them encloses what it loses exactly.
/// - `scan`: of the states of the file's words that meet the condition, all of them and no others, by rising live rank and then by
///   kind, for every number of workers.
/// - `reply`: of what a state guarantees a side that makes the plays which the file's words advise against the best reply, of what the
///   best reply to such a side has there, each after the asked rounds, and of the file's own pair. Whatever the words are, the first
///   two enclose both exactly in every game of at least as many turns, however its unfinished end is scored; exactly, following is
///   worth no more than best play on both sides, and replying no less.
/// - `analyse`: of each decision of a recorded game that breaks no rule, with what it loses by the pairs of the file, in a match of
///   the file of its score, whose header and pages are right as far as the losses rest on them, and of both players' totals. Where
///   the files' pairs enclose what their states are worth exactly in every game of enough turns, and in a match the start pairs in
///   their heads the exact starts, each loss encloses what its decision loses exactly, from one number of turns on for all of them,
///   in a match for all its games. Where it is asked for, here and of `study`, all decisions have their positions, or only so many are
///   told as are asked for, with theirs: those that lost most at most, the worst first.
/// - `study`: of the same losses by pairs that are solved for the record, in a match at each of its scores, at least as tight as
///   after the asked rounds, in a match from plain starts. Each encloses what its decision loses exactly, from one number of turns
///   on, with nothing asked of a file.
/// - `make`: of a record that is drawn from a number and breaks no rule, with both players' totals after eight rounds. The file
///   holds its text, and no other changed.
/// - `board`: of the position as a board, and of its ID where that is asked for, as of `show`.
///
/// Else the line of one refusal was put, or a front of it where that failed, each only where the ones before don't come:
///
/// 1. 1 comes where the words are outside their form.
/// 2. 2 where a position's text is, or else a roll's; 10 where `bound` or `race` asks for another number of checkers than
///    its position has; 12 where the position of `race` isn't a race;
///    11 where the text of `scan` isn't that of a condition, with the first word with which none can go on.
/// 3. 13 comes where what stands under the name of a file that `solve`, `migrate`, `make` or `ladder` is to write has a byte and
///    begins otherwise than files of its kind. That the file can be begun, of `ladder` each, is seen before any work is done.
/// 4. Of a record or a list that is to be read: 3 where it isn't there; 5 where its file is too long, or a line of a record, in what its
///    text is read as, is wrong, with the number of the first in the file.
/// 5. Of a file of bounds that is to be read: 3 where it isn't there; 4 where it isn't one of version 3, or of any for `migrate`, of
///    `show`, `advise` and `analyse` up to its pages; 10 where these or `reply` are asked for a position of another number of
///    checkers, `advise` or `reply` for a kind that the game hasn't, or `analyse` for a record of another game, or where the file
///    of `plan` isn't of the first game of the match; 4 where the page of the position isn't right, or that of a state on which the
///    advice or a loss rests, and of several such pages the one that is met first: decisions as recorded; rolls from 11 to 66,
///    first without a double and then answer by answer; plays in their order, the played one first. For a record of a match
///    `analyse` looks at what stands before the pages of all files, those of the first games first, before it looks at a page.
/// 6. 9 where the words of a file that `verify` or `migrate` checks aren't consistent, with the first that doesn't hold by rising
///    live rank, then by kind, the lower word before the upper one.
///
/// 6 comes only where reading a file failed, 7 only where writing a file or the output failed, 8 where there was no memory. At 7 the
/// report or a front of it may stand before the line. At all but 0 no file changed, but that those of the scores stay that a `ladder`
/// has solved; their lines stand before that of the refusal. What lets one mend the call is put to the notes, a line without a control
/// byte in it, or a front of it where that failed; at status 0 nothing is, but such a line of a list that was gone through.
pub fn run<R: Threads + Sync, F: Files, O: Sink, N: Sink, G: Gate + Sync>(
    rt: &R,
    alloc: Global,
    words: &[String],
    files: &mut F,
    out: &mut O,
    notes: &mut N,
    gate: &G,
) -> u8
    ensures { (ending : Ending)
        × RunsAsAsked (asked words.now) (F.log files.old) (F.log files.new)
        (O.output out.old) (O.output out.new) result ending
        × (LeavesAllFiles (asked words.now) ending → files.new ≡ files.old)
        × PutsNotes (asks_list (asked words.now)) ending
        (N.output notes.old) (N.output notes.new) }
{
    let mut wrong = LineFront::new();
    match read_words(alloc, words) {
        Ok(command) => {
            let ending = perform(rt, alloc, &command, files, out, notes, gate, &mut wrong);
            conclude(words, out, notes, ending, &wrong)
        }
        Err(stop) => conclude(
            words,
            out,
            notes,
            Err(RunStop::Refused(unread_refusal(stop))),
            &wrong,
        ),
    }
}
