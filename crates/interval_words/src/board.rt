ghost use Rattle.std.specs.Prelude.{◌≡◌, ◌<◌, ◌≤◌, ◌^◌, ℕ, pos, ◌≤ℤ◌, true, false, IfOk};
ghost use Rattle.position_rank.specs.Placement.{Placement};
ghost use Rattle.position_rank.specs.Ranks.{square_rank_of};
ghost use Rattle.directed_fixed.specs.declared.bounds.End.TheVariants.{Lower, Upper};
ghost use Rattle.directed_fixed.specs.declared.word.TheConstants.{WORD_OFFSET};
ghost use Rattle.directed_fixed.specs.Bounds.{IsNoLooser, IsWithinUnits};
ghost use Rattle.turn_rule.specs.Games.{kinds_of, game_of};
ghost use Rattle.turn_rule.specs.States.{IsState, AreNoLooser};
ghost use Rattle.interval_words.specs.Numbers.{state_of, states_in, word_of, AreBoundWords};
ghost use Rattle.interval_words.specs.Core.{noted, known};
ghost use Rattle.interval_words.specs.Events.{IsRoundDone};
ghost use Rattle.interval_words.specs.WordLists.{AreClosed, AreNarrow, IsNarrowAt, words_in_list};
ghost use Rattle.std.specs.Slots.{slots_items, slots_len, IsFull};
ghost use Rattle.interval_words.specs.Seats.{GameSeat, SitsAt, IsNumber, MayTighten, Knows, WasHeld, KeepsNotes, Brings, first_seat, noting, bringing, settling, joining, knowing, giving, hiring};

use crate::live_index::LiveIndex;
use crate::number::{state_count, state_number, state_number_at};
use crate::rule::{Copying, CoreRule, Hiring, Joining, Reading, Settling, Tightening};
use crate::view::View;
use crate::words::Closed;
use atomic_table::{Seat, Table};
use cube_actions::Stakes;
use directed_fixed::{End, Fixed, to_word};
use hyper_outside::NoMemory;
use position_rank::Position;
use std::alloc::{AllocError, Global};
use std::marker::Model;
use turn_rule::Game;

/// A lower and an upper word for each state of a game, which many threads read and tighten at once,
/// each with a seat of its own. No call waits for another. Between any two of their steps every
/// word is sound.
#[derive(Drop)]
pub struct Board {
    table: Table<(), View, Game, CoreRule, Global>,
    stakes: Stakes,
    index: LiveIndex,
}

impl Model for Board {
    ghost use Rattle.turn_rule.specs.Games.{game_of};
    ghost use Rattle.interval_words.specs.Seats.{GameTable, Stands};

    ghost Value = { GameTable };

    ghost view = { λ b. let shared = b.table.shared in
        record { table = shared.table_id; game = game_of b.index b.stakes } };

    ghost invariant = { λ b. let shared = b.table.shared in
        Stands shared.table_id shared.key (game_of b.index b.stakes) };
}

/// A place at a board. It has no bytes; contracts see what its owner knows of the words: the notes
/// of what was read or written with it since the last round that was settled, and the number of
/// rounds settled; which words were brought a value with it, each after how many rounds; and how many
/// hands it has. A value is brought only with a seat that has a hand, and no hand is made after the
/// first seat's, so no work is lost from sight while the seats that have hands are at hand.
#[derive(Drop)]
pub struct BoardSeat {
    seat: Seat<(), View>,
}

impl Model for BoardSeat {
    ghost use Rattle.std.specs.Prelude.{◌≡◌, []};
    ghost use Rattle.interval_words.specs.Seats.{GameSeat, Knows};

    ghost Value = { GameSeat };

    ghost view = { λ s. record { table = s.seat.table_id; view = s.seat.me.0 } };

    ghost invariant = { λ s. (s.seat.me.1 ≡ []) × Knows s.seat.me.0 };
}

impl BoardSeat {
    /// What every seat keeps of its notes.
    pub fn knows(&self)
        ensures { Knows self.now.view }
    {
        // A look at the seat shows what it keeps.
        let _seat = &self.seat;
    }
}

/// The lower and the upper word of each of so many states, of which only the bound is known.
fn bound_words_list(alloc: Global, states: usize, bound: Fixed) -> Result<Vec<u64>, AllocError>
    requires small { states < 2 ^ 40 }
    requires from { pos 0 ≤ℤ bound }
    requires to { bound ≤ℤ WORD_OFFSET }
    ensures { IfOk result (λ words. AreBoundWords bound states words.items) }
{
    let lower = to_word(bound.neg());
    let upper = to_word(bound);
    let mut words = Vec::with_capacity(alloc, 2 * states)?;
    for _ in 0..states {
        words.push(lower)?;
        words.push(upper)?;
    }
    Ok(words)
}

/// The words of a table at its end, in a list.
fn last_words(
    alloc: Global,
    last: &atomic_table::Closed<(), Global>,
    many: usize,
) -> Result<Vec<u64>, AllocError>
    requires many { many ≡ slots_len last.now.words }
    requires full { IsFull last.now.words }
    ensures { IfOk result (λ list. list.items ≡ slots_items last.now.words) }
{
    let mut list = Vec::with_capacity(alloc, many)?;
    for place in 0..many {
        list.push(last.word(place))?;
    }
    Ok(list)
}

impl Board {
    /// A board for one to three checkers a side on which only the bound is known of any state, and
    /// its first seat, which knows nothing and has settled no round. It asks for memory for the
    /// words and the index of positions, and may answer `NoMemory`.
    pub fn new(alloc: Global, checkers: u8, stakes: &Stakes) -> Result<(Board, BoardSeat), NoMemory>
        requires low { 1 ≤ checkers }
        requires high { checkers ≤ 3 }
        ensures game { IfOk result (λ made. made.0.game ≡ game_of checkers stakes.now) }
        ensures seat { IfOk result (λ made. made.1 ≡ first_seat made.0) }
    {
        let index = LiveIndex::new(alloc, checkers)?;
        let words = bound_words_list(alloc, state_count(&index, stakes), stakes.bound())?;
        let game = Game {
            checkers,
            stakes: stakes.copied(),
        };
        let (table, seat) = Table::of_words(alloc, &words, &game)?;
        let Game {
            checkers: _,
            stakes,
        } = game;
        Ok((
            Board {
                table,
                stakes,
                index,
            },
            BoardSeat { seat },
        ))
    }

    /// How many checkers a side has.
    pub fn checkers(&self) -> u8
        ensures checkers { result ≡ self.now.game.checkers }
        ensures low { 1 ≤ result }
        ensures high { result ≤ 3 }
    {
        self.index.checkers()
    }

    /// What the game is played for.
    pub fn stakes(&self) -> &Stakes
        ensures { result.now ≡ self.now.game.stakes }
    {
        &self.stakes
    }

    /// The index of the game's positions.
    pub fn index(&self) -> &LiveIndex
        ensures { result.now ≡ self.now.game.checkers }
    {
        &self.index
    }

    /// The number of a state, from 0: the position's live rank times the number of kinds, and the
    /// kind.
    #[inline]
    pub fn number(&self, position: &Position, kind: usize) -> u64
        requires { IsState self.now.game position.now kind }
        ensures number { result ≡ state_of (kinds_of self.now.game) position.now kind }
        ensures below { result < states_in self.now.game.checkers (kinds_of self.now.game) }
        ensures state { IsNumber self.now.game result }
    {
        state_number(&self.index, &self.stakes, position, kind)
    }

    /// `number` of a position whose square rank is at hand.
    #[inline]
    pub fn number_at(&self, position: &Position, square: u64, kind: usize) -> u64
        requires state { IsState self.now.game position.now kind }
        requires square { square ≡ square_rank_of position.now }
        ensures number { result ≡ state_of (kinds_of self.now.game) position.now kind }
        ensures below { result < states_in self.now.game.checkers (kinds_of self.now.game) }
        ensures state { IsNumber self.now.game result }
    {
        state_number_at(&self.index, &self.stakes, position, square, kind)
    }

    /// Where a word of the state with this number stands.
    #[inline]
    fn place(&self, end: End, state: u64) -> usize
        requires { IsNumber self.now.game state }
        ensures place { result ≡ word_of end state }
        ensures below { result < self.now.table.words }
    {
        // A look at the table shows how many words it has.
        let _table = &self.table;
        match end {
            End::Lower => 2 * state as usize,
            End::Upper => 2 * state as usize + 1,
        }
    }

    /// A word of the state with this number.
    #[inline]
    fn read(&self, seat: &mut BoardSeat, end: End, state: u64) -> Fixed
        requires seat { SitsAt self.now seat.old }
        requires state { IsNumber self.now.game state }
        ensures seat { seat.new ≡ noting seat.old (word_of end state) result }
        ensures knows { Knows seat.new.view }
        ensures within { IsWithinUnits self.now.game.stakes.bound result }
        ensures tight { (p : Placement) (k : ℕ) → IsState self.now.game p k
            → state ≡ state_of (kinds_of self.now.game) p k
            → IsNoLooser end result (known self.now.game seat.old.view end p k) }
        ensures held { WasHeld self.now.game seat.old.view (word_of end state) result }
    {
        let place = self.place(end, state);
        let word = self.table.shared.load::<Reading>(&mut seat.seat, place);
        Fixed::of_word(word)
    }

    /// The lower word of the state with this number, as it is at one moment. It is noted.
    #[inline]
    pub fn read_lower(&self, seat: &mut BoardSeat, state: u64) -> Fixed
        requires seat { SitsAt self.now seat.old }
        requires state { IsNumber self.now.game state }
        ensures seat { seat.new ≡ noting seat.old (word_of Lower state) result }
        ensures knows { Knows seat.new.view }
        ensures within { IsWithinUnits self.now.game.stakes.bound result }
        ensures tight { (p : Placement) (k : ℕ) → IsState self.now.game p k
            → state ≡ state_of (kinds_of self.now.game) p k
            → IsNoLooser Lower result (known self.now.game seat.old.view Lower p k) }
        ensures held { WasHeld self.now.game seat.old.view (word_of Lower state) result }
    {
        self.read(seat, End::Lower, state)
    }

    /// The upper word of the state with this number, as it is at one moment. It is noted.
    #[inline]
    pub fn read_upper(&self, seat: &mut BoardSeat, state: u64) -> Fixed
        requires seat { SitsAt self.now seat.old }
        requires state { IsNumber self.now.game state }
        ensures seat { seat.new ≡ noting seat.old (word_of Upper state) result }
        ensures knows { Knows seat.new.view }
        ensures within { IsWithinUnits self.now.game.stakes.bound result }
        ensures tight { (p : Placement) (k : ℕ) → IsState self.now.game p k
            → state ≡ state_of (kinds_of self.now.game) p k
            → IsNoLooser Upper result (known self.now.game seat.old.view Upper p k) }
        ensures held { WasHeld self.now.game seat.old.view (word_of Upper state) result }
    {
        self.read(seat, End::Upper, state)
    }

    /// Raises the lower word of the state with this number to a value, unless it is as high
    /// already.
    #[inline]
    pub fn raise(&self, seat: &mut BoardSeat, state: u64, value: Fixed)
        requires seat { SitsAt self.now seat.old }
        requires value { MayTighten Lower self.now.game seat.old.view state value }
        ensures seat { SitsAt self.now seat.new }
        ensures knows { Knows seat.new.view }
        ensures brings { Brings Lower self.now.game state value seat.old seat.new }
    {
        if self.read_lower(seat, state).units() < value.units() {
            self.raise_word(seat, state, value);
        }
    }

    /// Lowers the upper word of the state with this number to a value, unless it is as low already.
    #[inline]
    pub fn lower(&self, seat: &mut BoardSeat, state: u64, value: Fixed)
        requires seat { SitsAt self.now seat.old }
        requires value { MayTighten Upper self.now.game seat.old.view state value }
        ensures seat { SitsAt self.now seat.new }
        ensures knows { Knows seat.new.view }
        ensures brings { Brings Upper self.now.game state value seat.old seat.new }
    {
        if value.units() < self.read_upper(seat, state).units() {
            self.lower_word(seat, state, value);
        }
    }

    /// Makes a lower word at least this value, which is noted, and so is the work.
    fn raise_word(&self, seat: &mut BoardSeat, state: u64, value: Fixed)
        requires seat { SitsAt self.now seat.old }
        requires value { MayTighten Lower self.now.game seat.old.view state value }
        ensures seat { seat.new ≡ bringing seat.old (word_of Lower state) value }
        ensures knows { Knows seat.new.view }
    {
        let shared = &self.table.shared;
        let place = self.place(End::Lower, state);
        let word = to_word(value);
        shared.fetch_max::<Tightening>(&mut seat.seat, place, word);
    }

    /// Makes an upper word at most this value, which is noted, and so is the work.
    fn lower_word(&self, seat: &mut BoardSeat, state: u64, value: Fixed)
        requires seat { SitsAt self.now seat.old }
        requires value { MayTighten Upper self.now.game seat.old.view state value }
        ensures seat { seat.new ≡ bringing seat.old (word_of Upper state) value }
        ensures knows { Knows seat.new.view }
    {
        let shared = &self.table.shared;
        let place = self.place(End::Upper, state);
        let word = to_word(value);
        shared.fetch_min::<Tightening>(&mut seat.seat, place, word);
    }

    /// Ends a round of the seat, for which it knows each word to be at least as tight as after one
    /// round more than it has settled. The notes are dropped.
    pub fn settle(&self, seat: &mut BoardSeat)
        requires seat { SitsAt self.now seat.old }
        requires round { IsRoundDone self.now.game seat.old.view }
        ensures seat { seat.new ≡ settling seat.old }
    {
        self.table.shared.load::<Settling>(&mut seat.seat, 0);
    }

    /// A second seat that knows the same. It has no hand, so it only reads.
    pub fn split(&self, seat: &mut BoardSeat) -> BoardSeat
        requires { SitsAt self.now seat.old }
        ensures seat { seat.new ≡ seat.old }
        ensures copy { result ≡ knowing seat.old }
    {
        BoardSeat {
            seat: self.table.shared.split_seat::<Copying>(&mut seat.seat),
        }
    }

    /// A second seat that knows the same, with one of this seat's hands.
    pub fn hire(&self, seat: &mut BoardSeat) -> BoardSeat
        requires seat { SitsAt self.now seat.old }
        requires spare { 1 < seat.old.view.hands }
        ensures seat { seat.new ≡ giving seat.old }
        ensures hired { result ≡ hiring seat.old }
    {
        BoardSeat {
            seat: self.table.shared.split_seat::<Hiring>(&mut seat.seat),
        }
    }

    /// Gives the seat the notes, the work and the hands of another too, and the larger number of
    /// rounds settled.
    pub fn join(&self, seat: &mut BoardSeat, other: BoardSeat)
        requires seat { SitsAt self.now seat.old }
        requires other { SitsAt self.now other }
        ensures { seat.new ≡ joining seat.old other }
    {
        let shared = &self.table.shared;
        shared.join_seat::<Joining>(&mut seat.seat, other.seat);
    }

    /// Whether the pair of the state with this number is at most so wide, as its words are read one
    /// after the other.
    fn is_narrow_at(&self, seat: &mut BoardSeat, state: u64, width: Fixed) -> bool
        requires seat { SitsAt self.now seat.old }
        requires state { IsNumber self.now.game state }
        ensures keeps { KeepsNotes seat.old seat.new }
        ensures work { seat.new.view.work ≡ seat.old.view.work }
        ensures narrow { result ≡ true
            → IsNarrowAt self.now.game (noted self.now.game seat.new.view.notes) width state }
        ensures wide { result ≡ false
            → ¬ IsNarrowAt self.now.game (known self.now.game seat.old.view) width state }
    {
        let lower = self.read_lower(seat, state);
        let upper = self.read_upper(seat, state);
        upper.units() - lower.units() <= width.units()
    }

    /// Whether the pair of each state is at most so wide, in units. The words are read by rising number
    /// of the state, up to the first pair that is wider, and noted. Where one is wider, some state's
    /// pair was so by what the seat knew before.
    pub fn is_narrow(&self, seat: &mut BoardSeat, width: Fixed) -> bool
        requires { SitsAt self.now seat.old }
        ensures keeps { KeepsNotes seat.old seat.new }
        ensures work { seat.new.view.work ≡ seat.old.view.work }
        ensures narrow { result ≡ true
            → AreNarrow self.now.game (noted self.now.game seat.new.view.notes) width }
        ensures wide { result ≡ false
            → ¬ AreNarrow self.now.game (known self.now.game seat.old.view) width }
    {
        for state in 0..state_count(&self.index, &self.stakes) as u64 {
            if !self.is_narrow_at(seat, state, width) {
                return false;
            }
        }
        true
    }

    /// The board's words at the end, after the rounds that the seat has settled. For a while they
    /// stand in memory twice. They are at least as tight as all that the seat has noted. After
    /// `NoMemory` the board and the seat are gone.
    pub fn close(self, alloc: Global, seat: BoardSeat, rounds: u32) -> Result<Closed, NoMemory>
        requires seat { SitsAt self seat }
        requires rounds { rounds ≡ seat.view.base }
        ensures game { IfOk result (λ closed. closed.game ≡ self.game) }
        ensures rounds { IfOk result (λ closed. closed.rounds ≡ rounds) }
        ensures closed { IfOk result AreClosed }
        ensures noted { IfOk result (λ closed. AreNoLooser closed.game (words_in_list closed)
            (noted closed.game seat.view.notes)) }
    {
        let Board {
            table,
            stakes,
            index,
        } = self;
        let many = table.word_count();
        let last = table.close_with(seat.seat);
        let list = last_words(alloc, &last, many);
        last.free();
        Ok(Closed::new(index, stakes, rounds, list?))
    }
}
