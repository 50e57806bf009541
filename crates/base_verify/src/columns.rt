ghost use Rattle.std.specs.Prelude.{◌≡◌, ◌<◌, ◌+◌, ◌≤ℤ◌, ℕ, IsTrue, length};
ghost use Rattle.position_rank.specs.Ranks.{layouts};
ghost use Rattle.turn_rule.specs.Games.{kinds_of};
ghost use Rattle.base_verify.specs.Columns.{ColumnsHold, IsPositionTurned, KindHolds};
ghost use Rattle.column_turns.specs.Columns.{IsRoomOf};

use column_turns::ColumnTurns;
use directed_fixed::Pair;
use interval_words::Words;

/// Whether a pair is no tighter than the turn.
fn is_no_tighter(stored: Pair, turn: Pair) -> bool
    ensures lower { IsTrue result → stored.lower ≤ℤ turn.lower }
    ensures upper { IsTrue result → turn.upper ≤ℤ stored.upper }
{
    stored.lower().units() <= turn.lower().units() && turn.upper().units() <= stored.upper().units()
}

/// Whether the words of all of a column's positions hold in one kind. They stand far apart in memory; in a short loop
/// reads don't wait for one another.
fn kind_holds(words: &Words, turns: &ColumnTurns, kind: usize) -> bool
    requires kind { kind < turns.now.kinds }
    requires kinds { turns.now.kinds ≡ kinds_of words.now.game }
    requires turned { (i : ℕ) → i < length turns.now.movers
        → IsPositionTurned words.now turns.now i }
    ensures { IsTrue result → KindHolds words.now turns.now kind (length turns.now.movers) }
{
    for i in 0..turns.len() {
        let stored = words.pair_by_square(&turns.position(i), turns.square(i), kind);
        if !is_no_tighter(stored, turns.pair(i, kind)) {
            return false;
        }
    }
    true
}

/// Whether all words of a column hold, whose turns are worked out together.
pub(crate) fn column_holds(words: &Words, turns: &mut ColumnTurns, other: usize) -> bool
    requires room { IsRoomOf words.now.game turns.old }
    requires other { other < layouts words.now.game.checkers }
    ensures room { IsRoomOf words.now.game turns.new }
    ensures held { IsTrue result → ColumnsHold words.now other (other + 1) }
{
    turns.fill(other, words.stakes(), &mut words.reader());
    for kind in 0..turns.kinds() {
        if !kind_holds(words, turns, kind) {
            return false;
        }
    }
    true
}
