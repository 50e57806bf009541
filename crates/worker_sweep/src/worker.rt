ghost use Rattle.std.specs.Prelude.{◌≡◌, ℕ, ◌+◌, ◌<◌, ◌≤◌, ◌||◌, true, false, IfOk, length, replicate, slice_set};
ghost use Rattle.turn_rule.specs.Turn.{rounds};
ghost use Rattle.interval_words.specs.Core.{noted, settled};
ghost use Rattle.interval_words.specs.Seats.{SitsAt, KeepsNotes, AddsWork, joining, knowing};
ghost use Rattle.interval_words.specs.WordLists.{AreNarrow};
ghost use Rattle.block_claims.specs.Claiming.{with_taken};
ghost use Rattle.worker_sweep.specs.Blocks.{blocks, IsSwept, WorksIn};
ghost use Rattle.worker_sweep.specs.Workers.{SeatsAndMarks, WorksAt, IsHonest, IsOnUnmarked, WentThrough, is_marked, unmarked, unmarked_worker};

use crate::blocks::block_count;
use crate::columns::sweep_column;
use block_claims::{ClaimSeat, Claims};
use column_turns::ColumnTurns;
use directed_fixed::Fixed;
use hyper_outside::{Gate, NoMemory};
use interval_words::{Board, BoardSeat};
use std::alloc::Global;
use std::marker::Model;
use std::mem;

/// A worker: a seat at a board and one at its claims, and for each block whether the worker has swept it in this round.
#[derive(Drop)]
pub struct Worker {
    seat: BoardSeat,
    claims: ClaimSeat,
    number: u32,
    swept: Vec<bool>,
    turns: ColumnTurns,
}

impl Model for Worker {
    ghost use Rattle.worker_sweep.specs.Workers.{SeatsAndMarks, IsHonest, HasColumnRoom};

    ghost Value = { SeatsAndMarks };

    ghost view = { λ a. record {
      seat = a.seat;
      claims = a.claims;
      number = a.number;
      marks = a.swept.items;
    } };

    ghost invariant = { λ a. IsHonest (record {
      seat = a.seat;
      claims = a.claims;
      number = a.number;
      marks = a.swept.items;
    }) × HasColumnRoom a.seat.view a.turns };
}

impl Worker {
    /// A worker of a board with these seats and this number, which has swept none of its blocks. It asks for memory for
    /// the marks and the room of a column, and may answer `NoMemory`; then both seats are gone.
    pub fn new(
        alloc: Global,
        board: &Board,
        board_seat: BoardSeat,
        claim_seat: ClaimSeat,
        number: u32,
    ) -> Result<Worker, NoMemory>
        requires { SitsAt board.now board_seat }
        ensures { IfOk result
            (λ worker. worker ≡ unmarked_worker board_seat claim_seat number
            (blocks board.now.game.checkers)) }
    {
        let swept = vec![in alloc; false; block_count(board) as usize]?;
        let turns = ColumnTurns::new(alloc, board.checkers(), board.stakes())?;
        Ok(Worker {
            seat: board_seat,
            claims: claim_seat,
            number,
            swept,
            turns,
        })
    }

    /// Whether the worker has swept this block in this round.
    pub fn swept(&self, block: u64) -> bool
        requires { block < length self.now.marks }
        ensures { result ≡ is_marked self.now.marks block }
    {
        self.swept[block as usize]
    }

    /// Each block that the worker has marked is swept: what its seat knows of each of its states is at least as tight
    /// as after one round more than it has settled.
    pub fn marked_is_swept(&self)
        ensures { IsHonest self.now }
    {
        // What contracts know of the worker holds where a field is read.
        let _number = self.number;
    }

    /// Tightens the words of each state of a block by its turn over them, and no others, and marks it.
    pub(crate) fn sweep(&mut self, board: &Board, block: u64)
        requires works { WorksAt board.now self.old }
        requires block { block < blocks board.now.game.checkers }
        ensures seat { KeepsNotes self.old.seat self.new.seat }
        ensures swept { IsSwept board.now.game self.new.seat.view block }
        ensures works { WorksIn board.now.game block self.old.seat self.new.seat }
        ensures marks { self.new.marks ≡ slice_set self.old.marks block true }
        ensures claims { self.new.claims ≡ self.old.claims }
        ensures number { self.new.number ≡ self.old.number }
    {
        let copy = board.split(&mut self.seat);
        let seat = mem::replace(&mut self.seat, copy);
        self.seat = sweep_column(board, seat, block, &mut self.turns);
        self.swept[block as usize] = true;
    }

    /// Claims a block, and sweeps it if it gets it.
    fn sweep_if_claimed<G: Gate>(
        &mut self,
        board: &Board,
        claims: &Claims,
        gate: &G,
        block: u64,
        round: u64,
    )
        requires works { WorksAt board.now self.old }
        requires claims { self.old.claims.table ≡ claims.now.table }
        requires many { claims.now.blocks ≡ blocks board.now.game.checkers }
        requires block { block < claims.now.blocks }
        requires round { round ≡ self.old.seat.view.base + 1 }
        ensures seat { KeepsNotes self.old.seat self.new.seat }
        ensures many { length self.new.marks ≡ length self.old.marks }
        ensures claims { self.new.claims.table ≡ self.old.claims.table }
        ensures number { self.new.number ≡ self.old.number }
        ensures through { (first : SeatsAndMarks)
            → WentThrough board.now.game round block first self.old
            → WentThrough board.now.game round (block + 1) first self.new }
    {
        if !claims.claim(&mut self.claims, block, round) {
            return;
        }
        gate.pass(self.number, block);
        self.sweep(board, block);
    }

    /// Goes once through all blocks, from the first on, claims each for the round, and sweeps those that it gets.
    pub(crate) fn sweep_claimed<G: Gate>(
        &mut self,
        board: &Board,
        claims: &Claims,
        gate: &G,
        round: u64,
    )
        requires works { WorksAt board.now self.old }
        requires claims { self.old.claims.table ≡ claims.now.table }
        requires many { claims.now.blocks ≡ blocks board.now.game.checkers }
        requires round { round ≡ self.old.seat.view.base + 1 }
        ensures seat { KeepsNotes self.old.seat self.new.seat }
        ensures many { length self.new.marks ≡ length self.old.marks }
        ensures claims { self.new.claims.table ≡ self.old.claims.table }
        ensures number { self.new.number ≡ self.old.number }
        ensures through { WentThrough board.now.game round claims.now.blocks self.old self.new }
    {
        for block in 0..block_count(board) {
            self.sweep_if_claimed(board, claims, gate, block, round);
        }
    }

    /// Takes in what another worker has noted and which blocks it has swept. The other keeps its seats.
    pub(crate) fn take_in(&mut self, board: &Board, other: &mut Worker)
        requires works { WorksAt board.now self.old }
        requires other { WorksAt board.now other.old }
        requires base { other.old.seat.view.base ≡ self.old.seat.view.base }
        ensures seat { KeepsNotes self.old.seat self.new.seat }
        ensures work { self.new.seat.view.work ≡ self.old.seat.view.work }
        ensures marks { (block : ℕ)
            → is_marked self.new.marks block
            ≡ (is_marked self.old.marks block || is_marked other.old.marks block) }
        ensures many { length self.new.marks ≡ length self.old.marks }
        ensures claims { self.new.claims ≡ self.old.claims }
        ensures number { self.new.number ≡ self.old.number }
        ensures other { other.new
            ≡ record other.old { marks = unmarked (length other.old.marks) } }
    {
        let noted = board.split(&mut other.seat);
        board.join(&mut self.seat, noted);
        move_marks(&mut other.swept, &mut self.swept);
    }

    /// Sweeps each block that isn't marked, and no other.
    pub(crate) fn sweep_rest(&mut self, board: &Board)
        requires works { WorksAt board.now self.old }
        ensures seat { KeepsNotes self.old.seat self.new.seat }
        ensures many { length self.new.marks ≡ length self.old.marks }
        ensures marks { (block : ℕ) → block < blocks board.now.game.checkers
            → is_marked self.new.marks block ≡ true }
        ensures work { AddsWork (IsOnUnmarked board.now.game self.old)
            self.old.seat.view.work self.new.seat.view.work }
        ensures claims { self.new.claims ≡ self.old.claims }
        ensures number { self.new.number ≡ self.old.number }
    {
        for block in 0..self.swept.len() as u64 {
            if !self.swept(block) {
                self.sweep(board, block);
            }
        }
    }

    /// Whether the pair of each state is at most so wide, as the worker reads them up to the first that
    /// is wider.
    pub(crate) fn is_narrow(&mut self, board: &Board, width: Fixed) -> bool
        requires works { WorksAt board.now self.old }
        ensures seat { KeepsNotes self.old.seat self.new.seat }
        ensures work { self.new.seat.view.work ≡ self.old.seat.view.work }
        ensures marks { self.new.marks ≡ self.old.marks }
        ensures claims { self.new.claims ≡ self.old.claims }
        ensures number { self.new.number ≡ self.old.number }
        ensures narrow { result ≡ true
            → AreNarrow board.now.game (noted board.now.game self.new.seat.view.notes) width }
        ensures wide { result ≡ false
            → ¬ AreNarrow board.now.game
            (rounds board.now.game.stakes self.old.seat.view.base) width }
    {
        board.is_narrow(&mut self.seat, width)
    }

    /// Ends the round, for which all blocks are marked.
    pub(crate) fn settle(&mut self, board: &Board)
        requires works { WorksAt board.now self.old }
        requires marks { (block : ℕ) → block < blocks board.now.game.checkers
            → is_marked self.old.marks block ≡ true }
        ensures { self.new
            ≡ record self.old {
              seat = record self.old.seat { view = settled self.old.seat.view };
              marks = unmarked
                  (length self.old.marks);
            } }
    {
        board.settle(&mut self.seat);
        self.swept.fill(false);
    }

    /// Knows from now on what another worker knows too.
    pub(crate) fn follow(&mut self, board: &Board, other: &mut Worker)
        requires own { SitsAt board.now self.old.seat }
        requires works { WorksAt board.now other.old }
        requires marks { self.old.marks ≡ unmarked (length self.old.marks) }
        ensures other { other.new ≡ other.old }
        ensures seat { self.new
            ≡ record self.old { seat = joining self.old.seat (knowing other.old.seat) } }
    {
        let known = board.split(&mut other.seat);
        board.join(&mut self.seat, known);
    }

    /// Hands what the worker has claimed to another seat at the claims.
    pub(crate) fn hand_claims(&mut self, claims: &Claims, seat: &mut ClaimSeat)
        requires own { self.old.claims.table ≡ claims.now.table }
        requires seat { seat.old.table ≡ claims.now.table }
        ensures own { self.new.seat ≡ self.old.seat }
        ensures seat { seat.new ≡ record {
          table = seat.old.table;
          view = with_taken seat.old.view self.old.claims.view;
        } }
    {
        let none = claims.split(&mut self.claims);
        let own = mem::replace(&mut self.claims, none);
        claims.join(seat, own);
    }

    /// The worker's seats at the board and at the claims.
    pub(crate) fn into_seats(self) -> (BoardSeat, ClaimSeat)
        ensures board { result.0 ≡ self.seat }
        ensures claims { result.1 ≡ self.claims }
    {
        (self.seat, self.claims)
    }
}

/// Moves the marks of the first list to the second.
fn move_marks(from: &mut Vec<bool>, to: &mut Vec<bool>)
    requires { length from.old.items ≡ length to.old.items }
    ensures from { from.new.items ≡ unmarked (length from.old.items) }
    ensures many { length to.new.items ≡ length to.old.items }
    ensures to { (block : ℕ)
        → is_marked to.new.items block
        ≡ (is_marked to.old.items block || is_marked from.old.items block) }
{
    for block in 0..from.len() {
        if from[block] {
            to[block] = true;
        }
    }
    from.fill(false);
}
