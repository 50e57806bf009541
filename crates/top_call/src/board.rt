ghost use Rattle.run_endings.specs.Endings.{EndsBy};
ghost use Rattle.top_call.specs.Boards.{TellsBoard};

use command_line::Board;
use equity_report::Report;
use outside_log::Sink;
use position_board::print_board;
use position_id::id_told;
use run_endings::RunStop;

/// Puts the board of the position, and its ID where that is asked for. Nothing refuses it; where `put` failed, a front of that was put.
pub(crate) fn run_board<O: Sink>(task: &Board, out: &mut O) -> Result<(), RunStop>
    ensures ends { EndsBy (λ refusal. ⊥) result }
    ensures tells { TellsBoard task.now (O.output out.old) (O.output out.new) result }
{
    let mut report = Report::new();
    report.push_str(print_board(&task.position).as_str());
    report.push_str(id_told(task.id, &task.position).as_str());
    out.put(report.as_str().as_bytes())?;
    Ok(())
}
