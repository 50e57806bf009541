ghost use Rattle.std.specs.Prelude.{◌≡◌, ◌<◌, true, slice_set};
ghost use Rattle.worker_sweep.specs.Blocks.{blocks, IsSwept, WorksIn};
ghost use Rattle.worker_sweep.specs.Workers.{WorksAt};
ghost use Rattle.interval_words.specs.Seats.{KeepsNotes};

use crate::worker::Worker;
use interval_words::Board;

/// Sweeps a block of the worker's own board: the turns of its column are worked out over the words as they then stand, and
/// then its words are tightened to them, and no others. Afterwards the block is swept and marked. No note is lost.
pub fn sweep_block(worker: &mut Worker, board: &Board, block: u64)
    requires works { WorksAt board.now worker.old }
    requires block { block < blocks board.now.game.checkers }
    ensures seat { KeepsNotes worker.old.seat worker.new.seat }
    ensures swept { IsSwept board.now.game worker.new.seat.view block }
    ensures works { WorksIn board.now.game block worker.old.seat worker.new.seat }
    ensures marks { worker.new.marks ≡ slice_set worker.old.marks block true }
    ensures claims { worker.new.claims ≡ worker.old.claims }
    ensures number { worker.new.number ≡ worker.old.number }
{
    worker.sweep(board, block);
}
