ghost use Rattle.std.specs.Prelude.{◌≡◌, ◌<◌, ◌+◌, ℕ, length, sum};
ghost use Rattle.position_rank.specs.Ranks.{square_rank_of};
ghost use Rattle.turn_rule.specs.States.{pair_of};
ghost use Rattle.plain_table.specs.Tables.{IsFull, words_at};
ghost use Rattle.plain_table.specs.Columns.{position_at, turn_at, IsColumnOver, IsSameBut};
ghost use Rattle.plain_table.specs.Rounds.{AreAlike, IsTurnedBefore};

use crate::plain_reader::PlainReader;
use crate::table::Table;
use column_turns::ColumnTurns;
use cube_actions::Stakes;

/// Puts the turns of one position of a column in a table, in each kind.
fn put_position(turns: &ColumnTurns, i: usize, table: &mut Table)
    requires position { i < length turns.now.movers }
    requires many { sum (position_at turns.now i).mover ≡ table.old.checkers }
    requires kinds { turns.now.kinds ≡ table.old.kinds }
    requires full { IsFull table.old }
    ensures alike { AreAlike table.old table.new }
    ensures full { IsFull table.new }
    ensures turned { (k : ℕ) → k < table.old.kinds
        → pair_of (words_at table.new) (position_at turns.now i) k ≡ turn_at turns.now i k }
    ensures rest { IsSameBut (square_rank_of (position_at turns.now i)) table.old table.new }
{
    let kinds = table.kinds();
    let first = turns.position(i).square_rank() as usize * kinds;
    for number in 0..kinds {
        table.set(first + number, turns.pair(i, number));
    }
}

/// Gives each state of a column its turn over the old table.
fn sweep_column(
    other: usize,
    stakes: &Stakes,
    turns: &mut ColumnTurns,
    old: &Table,
    new: &mut Table,
)
    requires other { other < length turns.old.layouts }
    requires over { IsColumnOver stakes.now turns.old old.now }
    requires alike { AreAlike old.now new.old }
    requires full { IsFull new.old }
    requires before { IsTurnedBefore stakes.now old.now new.old other }
    ensures layouts { turns.new.layouts ≡ turns.old.layouts }
    ensures kinds { turns.new.kinds ≡ turns.old.kinds }
    ensures alike { AreAlike old.now new.new }
    ensures full { IsFull new.new }
    ensures turned { IsTurnedBefore stakes.now old.now new.new (other + 1) }
{
    let mut reader = PlainReader::of(old, stakes.bound());
    turns.fill(other, stakes, &mut reader);
    for i in 0..turns.len() {
        put_position(turns, i, new);
    }
}

/// Gives every state its turn over the old table, a column after the other.
pub(crate) fn sweep_columns(stakes: &Stakes, turns: &mut ColumnTurns, old: &Table, new: &mut Table)
    requires over { IsColumnOver stakes.now turns.old old.now }
    requires alike { AreAlike old.now new.old }
    requires full { IsFull new.old }
    ensures layouts { turns.new.layouts ≡ turns.old.layouts }
    ensures kinds { turns.new.kinds ≡ turns.old.kinds }
    ensures alike { AreAlike old.now new.new }
    ensures full { IsFull new.new }
    ensures turned { IsTurnedBefore stakes.now old.now new.new (length turns.old.layouts) }
{
    for other in 0..turns.layouts() {
        sweep_column(other, stakes, turns, old, new);
    }
}
