ghost use Rattle.std.specs.Prelude.{◌≡◌, false};
ghost use Rattle.outside_log.specs.Log.{failures};
ghost use Rattle.word_pages.specs.declared.version.Version.TheVariants.{Three};
ghost use Rattle.base_head.specs.Heads.{HasText, IsHead};
ghost use Rattle.command_line.specs.Right.{IsRightLadder};
ghost use Rattle.database_file.specs.Texts.{AreWordsOf, file_text};
ghost use Rattle.solve_reports.specs.Ladder.{ladder_score_text};
ghost use Rattle.match_scores.specs.Keepers.{no_pairs};
ghost use Rattle.solve_commands.specs.Ladders.{HasKeptSince, LadderPast, LadderStays, WritesAndTells, score_bytes, score_head};
ghost use Rattle.run_endings.specs.Scores.{score_file};
ghost use Rattle.run_endings.specs.Endings.{Completes};

use base_head::Head;
use command_line::Ladder;
use cube_actions::{Score, Starts, ladders_are_exact};
use database_file::append_base;
use directed_fixed::{Fixed, Pair};
use hyper_outside::Failed;
use interval_words::{Closed, Words};
use match_scores::{Keep, solved_ladders_are_true_and_tight, start_pair};
use outside_log::{Files, Sink};
use run_endings::{score_file, settle};
use solve_reports::write_ladder_score;
use word_pages::Version;

/// What the line of a score tells.
#[derive(Clone, Copy)]
struct ScoreLine {
    score: Score,
    /// What the near side has of the score's game at its start.
    start: Pair,
    /// How wide the widest pair of its words is.
    widest: Fixed,
}

/// Adds the text of a score's file to what was begun for it, puts the score's line, and has the file take its place.
fn complete<F: Files, O: Sink>(
    name: &str,
    head: &Head,
    words: &Words,
    line: &ScoreLine,
    files: &mut F,
    out: &mut O,
) -> Result<(), Failed>
    requires takes { HasText Three head.now }
    requires words { AreWordsOf head.now words.now }
    ensures { Completes name.now (file_text Three head.now words.now.list)
        (ladder_score_text line.now.score line.now.start line.now.widest)
        (F.log files.old) (F.log files.new) (O.output out.old) (O.output out.new) result }
{
    append_base(files, name, head, words, Version::Three)?;
    let put = write_ladder_score(out, line.score, line.start, line.widest);
    settle(files, name, put)
}

/// The head of a score's file.
fn head_for(task: &Ladder, score: Score, starts: &Starts) -> Head
    requires right { IsRightLadder task.now }
    requires head { IsHead (score_head task.now score starts.now) }
    ensures { result ≡ score_head task.now score starts.now }
{
    Head::of_score(task.checkers, score, task.rounds, starts.copied()).unwrap()
}

/// Writes the file of a score, and puts its line before the file takes its place. After `Failed` no file has changed.
fn write_score<F: Files, O: Sink>(
    task: &Ladder,
    starts: &Starts,
    words: &Words,
    line: &ScoreLine,
    files: &mut F,
    out: &mut O,
) -> Result<(), Failed>
    requires right { IsRightLadder task.now }
    requires head { IsHead (score_head task.now line.now.score starts.now) }
    requires words { AreWordsOf (score_head task.now line.now.score starts.now) words.now }
    ensures { WritesAndTells (score_file task.now.prefix line.now.score)
        (score_bytes task.now line.now.score starts.now words.now)
        (ladder_score_text line.now.score line.now.start line.now.widest)
        (F.log files.old) (F.log files.new) (O.output out.old) (O.output out.new) result }
{
    let name = score_file(task.prefix.as_str(), line.score);
    let name = name.as_str();
    let head = head_for(task, line.score, starts);
    files.start(name)?;
    complete(name, &head, words, line, files, out)
}

/// Keeps the scores of a ladder: writes the file of each, and then puts its line.
#[derive(Drop)]
pub(crate) struct LadderKeep<'a, F: Files, O: Sink> {
    task: &'a Ladder,
    /// The start pairs of the scores that were kept.
    starts: Starts,
    failed: bool,
    files: &'a mut F,
    out: &'a mut O,
    ghost right: { IsRightLadder task.now },
}

impl<'a, F: Files, O: Sink> LadderKeep<'a, F, O> {
    /// A keeper for the ladder of a task, which has kept no score yet.
    pub(crate) fn new(task: &'a Ladder, files: &'a mut F, out: &'a mut O) -> LadderKeep<'a, F, O>
        requires { IsRightLadder task.now }
        ensures task { result.task.now ≡ task.now }
        ensures starts { result.starts ≡ no_pairs task.now.match_length }
        ensures works { result.failed ≡ false }
        ensures files { result.files.now ≡ files.old }
        ensures same_files { result.files.ghost_name ≡ files.entry.ghost_name }
        ensures out { result.out.now ≡ out.old }
        ensures same_out { result.out.ghost_name ≡ out.entry.ghost_name }
    {
        LadderKeep {
            task,
            starts: Starts::new(task.match_length),
            failed: false,
            files,
            out,
        }
    }
}

impl<'a, F: Files, O: Sink> Keep for LadderKeep<'a, F, O> {
    ghost Stays = { LadderStays };

    ghost stays = { λ k. record {
      task = k.task.now;
      files_lent = k.files.ghost_name;
      out_lent = k.out.ghost_name;
    } };

    ghost Past = { LadderPast };

    ghost since = { λ past k. HasKeptSince past k.task.now k.starts k.failed
        (F.log k.files.now) (O.output k.out.now) };

    ghost keeper = { λ k. record {
      checkers = k.task.now.checkers;
      rounds = k.task.now.rounds;
      starts = k.starts;
      failed = k.failed;
      write_faults = failures (F.log k.files.now);
      put_faults = (O.output k.out.now).faults;
    } };

    fn keep(&mut self, score: Score, starts: &Starts, words: &Closed) -> Result<(), Failed> {
        ladders_are_exact();
        solved_ladders_are_true_and_tight();
        let words = words.words();
        words.right();
        // What `match_length` ensures says that the start pairs are those of a match.
        let _length = starts.match_length();
        let line = ScoreLine {
            score,
            start: start_pair(score, words),
            widest: words.widest(),
        };
        // It has failed until the file has taken its place.
        self.failed = true;
        write_score(self.task, starts, words, &line, self.files, self.out)?;
        self.starts.add(line.start);
        // They still are.
        let _added = self.starts.match_length();
        self.failed = false;
        Ok(())
    }
}
