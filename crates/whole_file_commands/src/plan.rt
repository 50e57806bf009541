ghost use Rattle.std.specs.Prelude.{◌≡◌, ◌≤◌, ◌↔◌, IfErr, IsTrue, Err, length};
ghost use Rattle.hyper_outside.specs.Causes.{Rose};
ghost use Rattle.outside_log.specs.Log.{standing};
ghost use Rattle.outside_log.specs.Readings.{ReadsOn, is_faithful, read_faults};
ghost use Rattle.cube_actions.specs.Ladder.{ladder};
ghost use Rattle.equity_report.specs.declared.refusal.Refusal.TheVariants.{Read};
ghost use Rattle.command_line.specs.Right.{IsRightPlan};
ghost use Rattle.whole_file_commands.specs.Plans.{AnswersFirst, IsOfFirstGame, TellsPlan, first_file, first_score, planned_starts};
ghost use Rattle.run_endings.specs.Endings.{EndsBy, IsOfShowing};
ghost use Rattle.run_endings.specs.declared.ending.RunStop.TheVariants.{Refused};

use crate::plan_laws::{plans_hold_inside_their_pairs, plans_of_solved_matches_hold_in_the_end};
use base_head::Head;
use command_line::Plan;
use cube_actions::{Phase, Score, StakesName, Starts};
use database_file::Base;
use equity_report::{Refusal, Wanted};
use hyper_outside::{Failed, Gate};
use match_plan::write_plan;
use match_scores::start_pair;
use outside_log::{Files, Sink};
use run_endings::{RunStop, game_told, load_file, score_file};
use std::alloc::Global;
use std::thread::Threads;
use word_pages::Version;
use worker_team::Team;

/// The score at which a match begins, where both sides need all its points.
fn first_score(match_length: u8) -> Score
    requires from { 1 ≤ match_length }
    requires to { match_length ≤ 5 }
    ensures { result ≡ first_score match_length }
{
    let phase = if match_length == 1 {
        Phase::Post
    } else {
        Phase::Normal
    };
    Score {
        near: match_length,
        far: match_length,
        phase,
    }
}

/// Whether a head is of the first game of a match to so many points.
fn is_of_first_game(head: &Head, match_length: u8) -> bool
    requires from { 1 ≤ match_length }
    requires to { match_length ≤ 5 }
    ensures { IsTrue result ↔ IsOfFirstGame match_length head.now }
{
    head.name() == StakesName::Match(first_score(match_length))
        && head.starts().match_length() == match_length
}

/// What the file of a match's first game holds, or what refuses it.
fn load_first<R: Threads + Sync, F: Files, G: Gate>(
    team: &Team<R>,
    alloc: Global,
    task: &Plan,
    files: &mut F,
    gate: &G,
) -> Result<Base, Refusal>
    requires { IsRightPlan task.now }
    ensures told { AnswersFirst task.now (is_faithful (F.log files.new))
        (standing (F.log files.old) (first_file task.now)) result }
    ensures reads { ReadsOn (F.log files.old) (F.log files.new) }
    ensures cause { result ≡ Err Read
        → Rose (read_faults (F.log files.old)) (read_faults (F.log files.new)) }
    ensures kinds { IfErr result IsOfShowing }
{
    let score = first_score(task.match_length);
    let name = score_file(task.prefix.as_str(), score);
    let base = load_file(team, alloc, name.as_str(), files, Version::Three, gate)?;
    if is_of_first_game(base.head(), task.match_length) {
        Ok(base)
    } else {
        Err(Refusal::Base {
            wanted: Wanted::Scored {
                score,
                match_length: task.match_length,
            },
            found: game_told(base.head()),
        })
    }
}

/// The start pairs of all scores of the match whose first game a file is of.
fn planned_starts(base: &Base, match_length: u8) -> Starts
    requires from { 1 ≤ match_length }
    requires to { match_length ≤ 5 }
    requires first { IsOfFirstGame match_length base.now.head }
    ensures starts { result ≡ planned_starts base.now }
    ensures whole { length result.pairs ≡ length (ladder result.match_length) }
{
    let mut starts = base.head().starts().copied();
    starts.add(start_pair(first_score(match_length), base.words()));
    starts
}

/// Loads the file of a match's first game and puts the plan of the match. It is refused by `Missing` or `File` where the file isn't there or isn't
/// right, by `Base` where it is of another game, by `Read` where reading failed, and by `Memory`. `NotWritten` comes where putting failed.
pub fn run_plan<R: Threads + Sync, F: Files, O: Sink, G: Gate>(
    team: &Team<R>,
    alloc: Global,
    task: &Plan,
    files: &mut F,
    out: &mut O,
    gate: &G,
) -> Result<(), RunStop>
    requires right { IsRightPlan task.now }
    requires team { team.now ≡ 1 }
    ensures ends { EndsBy IsOfShowing result }
    ensures tells { TellsPlan task.now (is_faithful (F.log files.new))
        (standing (F.log files.old) (first_file task.now))
        (O.output out.old) (O.output out.new) result }
    ensures read_cause { result ≡ Err (Refused Read)
        → Rose (read_faults (F.log files.old)) (read_faults (F.log files.new)) }
    ensures reads { ReadsOn (F.log files.old) (F.log files.new) }
{
    plans_hold_inside_their_pairs();
    plans_of_solved_matches_hold_in_the_end();
    let base = load_first(team, alloc, task, files, gate)?;
    let starts = planned_starts(&base, task.match_length);
    match write_plan(out, &starts) {
        Ok(()) => Ok(()),
        Err(Failed) => Err(RunStop::NotWritten),
    }
}
