ghost use Rattle.run_endings.specs.Endings.{EndsBy, IsOfRacing};
ghost use Rattle.solve_commands.specs.Races.{TellsRace};
ghost use Rattle.command_line.specs.Right.{IsRightRace};

use crate::checkers::count_checkers;
use command_line::Race;
use equity_report::Refusal;
use outside_log::Sink;
use race_table::{RaceTable, is_race};
use run_endings::RunStop;
use solve_reports::write_race;
use std::alloc::Global;

/// Puts the task's report. Where the position has another number of checkers than is asked for, or isn't a race, that refuses it; else want of
/// memory may.
pub fn run_race<O: Sink>(alloc: Global, task: &Race, out: &mut O) -> Result<(), RunStop>
    requires { IsRightRace task.now }
    ensures ends { EndsBy IsOfRacing result }
    ensures tells { TellsRace task.now (O.output out.old) (O.output out.new) result }
{
    let position = &task.position;
    count_checkers(position, task.checkers)?;
    if !is_race(position) {
        return Err(RunStop::Refused(Refusal::Contact));
    }
    let table = RaceTable::build(alloc, task.checkers)?;
    write_race(
        out,
        task.board,
        position,
        table.turns(position),
        table.pair(position),
    )?;
    Ok(())
}
