ghost use Rattle.std.specs.Prelude.{◌≡◌};
ghost use Rattle.cube_text.specs.Texts.{letter, score_text};

use arrayvec::ArrayString;
use cube_actions::{Phase, Score, Side};
use itoa::Buffer;

/// The points needed and a letter for the phase, `n`, `c` or `p`, as `1.3.c`.
pub fn print_score(score: Score) -> ArrayString<8>
    ensures { result.bytes ≡ score_text score }
{
    let mut text = ArrayString::new();
    text.push_str(Buffer::new().format(score.needs(Side::Near)));
    text.push('.');
    text.push_str(Buffer::new().format(score.needs(Side::Far)));
    text.push('.');
    text.push_str(letter(score.phase));
    text
}

fn letter(phase: Phase) -> &'static str
    ensures { result.now ≡ letter phase }
{
    match phase {
        Phase::Normal => "n",
        Phase::Crawford => "c",
        Phase::Post => "p",
    }
}
