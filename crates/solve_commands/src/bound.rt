ghost use Rattle.std.specs.Prelude.{◌≡◌, IfOk, sum};
ghost use Rattle.run_endings.specs.Endings.{EndsBy, IsOfBounding};
ghost use Rattle.command_line.specs.Right.{IsRightBound};
ghost use Rattle.solve_commands.specs.Truth.{IsTrueOfBound, TellsBound, asked_pair};

use crate::checkers::count_checkers;
use command_line::Bound;
use cube_actions::{MoneyRule, Stakes};
use directed_fixed::Pair;
use hyper_outside::NoMemory;
use outside_log::Sink;
use plain_table::PlainTable;
use run_endings::RunStop;
use solve_reports::write_bound;
use std::alloc::Global;

/// The position's pair after the rounds, in a game without a cube of as many checkers.
fn pair_after(alloc: Global, task: &Bound) -> Result<Pair, NoMemory>
    requires right { IsRightBound task.now }
    requires same { sum task.now.position.mover ≡ task.now.checkers }
    ensures pair { IfOk result (λ pair. pair ≡ asked_pair task.now) }
    ensures truth { IfOk result (IsTrueOfBound task.now) }
{
    let mut table = PlainTable::new(
        alloc,
        task.checkers,
        &Stakes::unlimited(MoneyRule::Cubeless),
    )?;
    for _round in 0..task.rounds {
        table.sweep_all();
    }
    Ok(table.pair(&task.position, 0))
}

/// Puts the task's report. Where the position has another number of checkers than is asked for, that refuses it; else want of memory may.
pub fn run_bound<O: Sink>(alloc: Global, task: &Bound, out: &mut O) -> Result<(), RunStop>
    requires { IsRightBound task.now }
    ensures ends { EndsBy IsOfBounding result }
    ensures tells { TellsBound task.now (O.output out.old) (O.output out.new) result }
{
    count_checkers(&task.position, task.checkers)?;
    let pair = pair_after(alloc, task)?;
    write_bound(out, task.board, &task.position, task.rounds, pair)?;
    Ok(())
}
