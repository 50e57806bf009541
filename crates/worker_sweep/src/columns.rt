ghost use Rattle.std.specs.Prelude.{◌≡◌, ◌<◌, ℕ, length};
ghost use Rattle.position_rank.specs.Ranks.{rank_of};
ghost use Rattle.cube_actions.specs.Stakes.{IsValid};
ghost use Rattle.turn_rule.specs.Games.{kinds_of};
ghost use Rattle.turn_rule.specs.States.{IsState};
ghost use Rattle.interval_words.specs.Seats.{SitsAt, KeepsNotes};
ghost use Rattle.worker_sweep.specs.Blocks.{blocks, IsSwept, WorksIn};
ghost use Rattle.worker_sweep.specs.Columns.{MayBringColumn, AreNotedTo};
ghost use Rattle.column_turns.specs.Columns.{IsRoomOf, position_in};

use crate::seat_pairs::SeatPairs;
use column_turns::ColumnTurns;
use interval_words::{Board, BoardSeat};

/// Tightens the words of one of the column's positions, in each kind, to its pairs.
fn tighten_position(pairs: &mut SeatPairs, turns: &ColumnTurns, i: usize, kinds: usize)
    requires kinds { kinds ≡ kinds_of pairs.old.board.now.game }
    requires valid { IsValid pairs.old.board.now.game.stakes }
    requires room { IsRoomOf pairs.old.board.now.game turns.now }
    requires column { MayBringColumn pairs.old.board.now.game pairs.old.seat.view turns.now }
    requires position { i < length turns.now.movers }
    requires hand { 0 < pairs.old.seat.view.hands }
    ensures board { pairs.new.board.now ≡ pairs.old.board.now }
    ensures kept { KeepsNotes pairs.old.seat pairs.new.seat }
    ensures noted { AreNotedTo pairs.old.board.now.game pairs.new.seat.view
        (position_in turns.now i) (kinds_of pairs.old.board.now.game) }
    ensures works { WorksIn pairs.old.board.now.game (rank_of turns.now.other)
        pairs.old.seat pairs.new.seat }
{
    let position = turns.position(i);
    let square = turns.square(i);
    for kind in 0..kinds {
        pairs.tighten(&position, square, kind, turns.pair(i, kind));
    }
}

/// Reads a word of each of the column's positions. They stand far apart in memory, and a step that tightens one waits
/// until it is there; reads don't wait for one another.
fn fetch_words(pairs: &mut SeatPairs, turns: &ColumnTurns)
    requires states { (i : ℕ) → i < length turns.now.movers
        → IsState pairs.old.board.now.game (position_in turns.now i) 0 }
    ensures board { pairs.new.board.now ≡ pairs.old.board.now }
    ensures kept { KeepsNotes pairs.old.seat pairs.new.seat }
    ensures work { pairs.new.seat.view.work ≡ pairs.old.seat.view.work }
{
    for i in 0..turns.len() {
        pairs.fetch(&turns.position(i), turns.square(i));
    }
}

/// Works out a column whole, with the words as they stand meanwhile, and then tightens its words to its pairs, and no
/// others. Gives the seat back.
pub(crate) fn sweep_column(
    board: &Board,
    seat: BoardSeat,
    block: u64,
    turns: &mut ColumnTurns,
) -> BoardSeat
    requires seat { SitsAt board.now seat }
    requires hand { 0 < seat.view.hands }
    requires room { IsRoomOf board.now.game turns.old }
    requires block { block < blocks board.now.game.checkers }
    ensures kept { KeepsNotes seat result }
    ensures swept { IsSwept board.now.game result.view block }
    ensures works { WorksIn board.now.game block seat result }
    ensures room { IsRoomOf board.now.game turns.new }
{
    let stakes = board.stakes();
    let kinds = stakes.kinds();
    let mut pairs = SeatPairs::new(board, seat);
    turns.fill(block as usize, stakes, &mut pairs);
    fetch_words(&mut pairs, turns);
    for i in 0..turns.len() {
        tighten_position(&mut pairs, turns, i, kinds);
    }
    pairs.seat
}
