ghost use Rattle.std.specs.Prelude.{◌≡◌, ◌<◌, ℕ};
ghost use Rattle.position_rank.specs.Ranks.{square_rank_of, rank_of};
ghost use Rattle.directed_fixed.specs.Bounds.{IsNoLooser, at};
ghost use Rattle.directed_fixed.specs.declared.bounds.End.{End};
ghost use Rattle.directed_fixed.specs.declared.bounds.End.TheVariants.{Lower, Upper};
ghost use Rattle.cube_actions.specs.Stakes.{IsValid};
ghost use Rattle.turn_rule.specs.Turn.{rounds};
ghost use Rattle.turn_rule.specs.States.{IsState, AreWithin};
ghost use Rattle.interval_words.specs.Core.{noted};
ghost use Rattle.interval_words.specs.Seats.{SitsAt, KeepsNotes, GameTable};
ghost use Rattle.worker_sweep.specs.Blocks.{MaySweep, WorksIn};

use directed_fixed::{Fixed, Pair};
use hyper_outside::LookStop;
use interval_words::{Board, BoardSeat};
use position_rank::Position;
use turn_rule::Pairs;

/// The words of a board as one seat reads them.
#[derive(Drop)]
pub(crate) struct SeatPairs<'a> {
    pub(crate) board: &'a Board,
    pub(crate) seat: BoardSeat,
    ghost sits: { SitsAt board.now seat },
    ghost floor: { AreWithin board.now.game (rounds board.now.game.stakes seat.view.base) },
    ghost noted_within: { AreWithin board.now.game (noted board.now.game seat.view.notes) },
}

impl<'a> Pairs for SeatPairs<'a> {
    ghost use Rattle.std.specs.Prelude.{ℕ, List};
    ghost use Rattle.turn_rule.specs.Looks.{all_told};
    ghost use Rattle.interval_words.specs.Core.{noted};
    ghost use Rattle.interval_words.specs.declared.view.Work.{Work};
    ghost use Rattle.worker_sweep.specs.Sources.{board_source};

    ghost Stays = { GameTable × ℕ × List Work × ℕ };

    ghost stays = { λ s.
        (s.board.now, s.seat.view.base, s.seat.view.work, s.seat.view.hands) };

    ghost seen = { λ s. record {
      source = board_source s.board.now.game s.seat.view.base;
      notes = all_told (noted s.board.now.game s.seat.view.notes);
      faults = 0;
    } };

    #[inline]
    fn lower_of(&mut self, position: &Position, kind: usize) -> Result<Fixed, LookStop> {
        self.lower_at(position, position.square_rank(), kind)
    }

    #[inline]
    fn lower_at(
        &mut self,
        position: &Position,
        square: u64,
        kind: usize,
    ) -> Result<Fixed, LookStop> {
        let state = self.board.number_at(position, square, kind);
        Ok(self.board.read_lower(&mut self.seat, state))
    }

    #[inline]
    fn upper_of(&mut self, position: &Position, kind: usize) -> Result<Fixed, LookStop> {
        self.upper_at(position, position.square_rank(), kind)
    }

    #[inline]
    fn upper_at(
        &mut self,
        position: &Position,
        square: u64,
        kind: usize,
    ) -> Result<Fixed, LookStop> {
        let state = self.board.number_at(position, square, kind);
        Ok(self.board.read_upper(&mut self.seat, state))
    }

    ghost floor_within = { λ s _. s.floor };

    ghost notes_within = { λ s _. s.noted_within };
}

impl<'a> SeatPairs<'a> {
    /// A seat at a board.
    pub(crate) fn new(board: &'a Board, seat: BoardSeat) -> SeatPairs<'a>
        requires { SitsAt board.now seat }
        ensures board { result.board.now ≡ board.now }
        ensures seat { result.seat ≡ seat }
    {
        // The prover is told that the game is one, and its stakes valid.
        let _game = (board.checkers(), board.stakes().bound());
        seat.knows();
        SeatPairs { board, seat }
    }

    /// Reads the lower word of a position's first kind, whose square rank is at hand.
    pub(crate) fn fetch(&mut self, position: &Position, square: u64)
        requires state { IsState self.old.board.now.game position.now 0 }
        requires square { square ≡ square_rank_of position.now }
        ensures board { self.new.board.now ≡ self.old.board.now }
        ensures kept { KeepsNotes self.old.seat self.new.seat }
        ensures work { self.new.seat.view.work ≡ self.old.seat.view.work }
    {
        let state = self.board.number_at(position, square, 0);
        // What the word is doesn't matter yet; it has to be on its way.
        let _word = self.board.read_lower(&mut self.seat, state);
    }

    /// Tightens both words of a state to a pair that may be brought for it.
    pub(crate) fn tighten(&mut self, position: &Position, square: u64, kind: usize, pair: Pair)
        requires valid { IsValid self.old.board.now.game.stakes }
        requires state { IsState self.old.board.now.game position.now kind }
        requires square { square ≡ square_rank_of position.now }
        requires hand { 0 < self.old.seat.view.hands }
        requires pair { MaySweep self.old.board.now.game self.old.seat.view position.now kind pair }
        ensures board { self.new.board.now ≡ self.old.board.now }
        ensures kept { KeepsNotes self.old.seat self.new.seat }
        ensures noted { (end : End) → IsNoLooser end
            (noted self.old.board.now.game self.new.seat.view.notes end position.now kind)
            (at end pair) }
        ensures works { WorksIn self.old.board.now.game (rank_of position.now.other)
            self.old.seat self.new.seat }
    {
        let state = self.board.number_at(position, square, kind);
        self.board.raise(&mut self.seat, state, pair.lower());
        self.board.lower(&mut self.seat, state, pair.upper());
    }
}
