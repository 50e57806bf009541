ghost use Rattle.std.specs.Prelude.{◌≤◌};

use crate::size::Size;
use game_record::Progress;
use rand_pcg::Lcg64Xsh32;

/// How far a record has come that is made.
#[derive(Drop)]
pub(crate) struct Maker {
    pub(crate) size: Size,
    /// The game in progress.
    pub(crate) game: Progress,
    /// The words that come.
    pub(crate) words: Lcg64Xsh32,
    pub(crate) ghost few_turns: { game.cube.turns ≤ size.lines },
}
