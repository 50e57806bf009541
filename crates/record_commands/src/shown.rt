ghost use Rattle.std.specs.Prelude.{All};
ghost use Rattle.outside_log.specs.Sink.{Puts};
ghost use Rattle.game_record.specs.Lines.{AreRecordStakes};
ghost use Rattle.game_record.specs.RightDecisions.{IsRightDecision};
ghost use Rattle.command_line.specs.Right.{IsRightShown};
ghost use Rattle.record_commands.specs.Records.{report_shown};

use command_line::Shown;
use game_record::Record;
use hyper_outside::Failed;
use outside_log::Sink;
use record_analysis::Analysis;
use record_reports::{write_analysis, write_full, write_worst};

/// Puts the report of these decisions of a record, and each player's total.
pub(crate) fn write_shown<O: Sink>(
    out: &mut O,
    shown: Shown,
    board: bool,
    rec: &Record,
    analysis: &Analysis,
) -> Result<(), Failed>
    requires shown { IsRightShown shown }
    requires points { AreRecordStakes rec.now.stakes }
    requires right { All (λ one. IsRightDecision rec.now one.decision) analysis.now }
    ensures { Puts (O.output out.old) (O.output out.new)
        (report_shown shown board rec.now.stakes analysis.now) result }
{
    match shown {
        Shown::Losses => write_analysis(out, analysis),
        Shown::Full => write_full(out, board, rec, analysis),
        Shown::Worst(most) => write_worst(out, most as usize, board, rec, analysis),
    }
}
