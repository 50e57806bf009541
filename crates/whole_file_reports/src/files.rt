ghost use Rattle.std.specs.Prelude.{◌≤◌, length};
ghost use Rattle.outside_log.specs.Sink.{Puts};
ghost use Rattle.whole_file_reports.specs.Files.{migrated_text, verified_text};

use equity_report::{GameName, Report, add_counted, add_rounds, add_written};
use hyper_outside::Failed;
use outside_log::Sink;

/// Puts the report of a file that was written anew under this name, of at most 255 bytes, and has so many bytes. `Failed` comes only where `put`
/// failed; then a front of the text was put.
pub fn write_migrated<O: Sink>(
    out: &mut O,
    game: GameName,
    rounds: u32,
    file: &str,
    bytes: u64,
) -> Result<(), Failed>
    requires { length file.now ≤ 255 }
    ensures { Puts (O.output out.old) (O.output out.new)
        (migrated_text game rounds file.now bytes) result }
{
    let mut report = Report::new();
    report.push_str("migrated ");
    add_rounds(&mut report, game, rounds);
    report.push_str("\n");
    add_written(&mut report, file, bytes);
    out.put(report.as_str().as_bytes())
}

/// Puts the report of a file whose words are consistent, of a game with so many live positions. `Failed` comes only where `put` failed; then a
/// front of the text was put.
pub fn write_verified<O: Sink>(
    out: &mut O,
    game: GameName,
    rounds: u32,
    positions: u64,
) -> Result<(), Failed>
    ensures { Puts (O.output out.old) (O.output out.new)
        (verified_text game rounds positions) result }
{
    let mut report = Report::new();
    report.push_str("consistent ");
    add_rounds(&mut report, game, rounds);
    report.push_str(" ");
    add_counted(&mut report, "positions", positions);
    report.push_str("\n");
    out.put(report.as_str().as_bytes())
}
