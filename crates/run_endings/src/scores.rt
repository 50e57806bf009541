ghost use Rattle.std.specs.Prelude.{◌≡◌, ◌≤◌, ◌*◌, length};
ghost use Rattle.cube_actions.specs.Ladder.{ladder};
ghost use Rattle.run_endings.specs.Scores.{score_file};

use cube_actions::{Score, ladder};
use cube_text::print_score;
use equity_report::FileName;

/// The name of a score's file: the prefix, a point, and the score's text, as `L.1.3.c`.
pub fn score_file(prefix: &str, score: Score) -> FileName
    requires { length prefix.now ≤ 255 }
    ensures { result.bytes ≡ score_file prefix.now score }
{
    let mut name = FileName::new();
    name.push_str(prefix);
    name.push('.');
    name.push_str(print_score(score).as_str());
    name
}

/// How many rounds all scores of a match take together, with so many each.
pub fn ladder_rounds(match_length: u8, rounds: u32) -> u32
    requires from { 1 ≤ match_length }
    requires to { match_length ≤ 5 }
    requires few { rounds ≤ 4096 }
    ensures { result ≡ length (ladder match_length) * rounds }
{
    ladder(match_length).len() as u32 * rounds
}
