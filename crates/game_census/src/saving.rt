ghost use Rattle.std.specs.Prelude.{◌≡◌, ◌<◌, ◌+◌, IsOk, IfOk, IfSome};
ghost use Rattle.interval_words.specs.Seats.{SitsAt};
ghost use Rattle.interval_words.specs.WordLists.{list_of, states_of};
ghost use Rattle.database_file.specs.Texts.{game_in};
ghost use Rattle.game_census.specs.Saved.{WereRead, IsSaved};

use crate::stop::Stop;
use crate::widths::state_count;
use base_head::Head;
use database_file::append_base;
use directed_fixed::to_word;
use hyper_outside::NoMemory;
use interval_words::{Board, BoardSeat, LiveIndex, Words, states_are_numbered};
use outside_log::Files;
use std::alloc::{AllocError, Global};
use word_pages::Version;

/// Adds both words of a state to those of the states with lower numbers, the lower one first.
fn add_words(
    board: &Board,
    seat: &mut BoardSeat,
    state: u64,
    list: &mut Vec<u64>,
) -> Result<(), AllocError>
    requires seat { SitsAt board.now seat.old }
    requires state { state < states_of board.now.game }
    requires before { WereRead board.now.game state list.old.items }
    ensures seat { SitsAt board.now seat.new }
    ensures read { IfOk result (λ _. WereRead board.now.game (state + 1) list.new.items) }
{
    states_are_numbered();
    // What contracts know of the board's game, and that its bound is a word's, holds where it is asked for.
    let _game = (
        board.checkers(),
        board.stakes().kinds(),
        board.stakes().bound(),
    );
    let lower = to_word(board.read_lower(seat, state));
    let upper = to_word(board.read_upper(seat, state));
    list.push(lower)?;
    list.push(upper)?;
    Ok(())
}

/// The words on the board: two for each state by its number, the lower one first.
fn read_words(alloc: Global, board: &Board, seat: &mut BoardSeat) -> Result<Vec<u64>, AllocError>
    requires { SitsAt board.now seat.old }
    ensures { IfOk result
        (λ list. WereRead board.now.game (states_of board.now.game) list.items) }
{
    let states = state_count(board);
    let mut list = Vec::with_capacity(alloc, 2 * states as usize)?;
    for state in 0..states {
        add_words(board, seat, state, &mut list)?;
    }
    Ok(list)
}

/// The words of a list as those of the head's game after its rounds. `None` where they aren't right, as the words of a board never are.
fn words_of(alloc: Global, head: &Head, list: Vec<u64>) -> Result<Option<Words>, NoMemory>
    ensures { IfOk result (λ made. IfSome made (λ words.
        words ≡ list_of (game_in head.now) head.now.rounds list.items)) }
{
    let index = LiveIndex::new(alloc, head.checkers())?;
    Ok(Words::from_list(index, &head.stakes(), head.rounds(), list))
}

/// Writes the words on the board as a file of bounds, of version 3.
pub(crate) fn save<F: Files>(
    alloc: Global,
    board: &Board,
    seat: &mut BoardSeat,
    head: &Head,
    name: &str,
    files: &mut F,
) -> Result<(), Stop>
    requires seat { SitsAt board.now seat.old }
    requires game { board.now.game ≡ game_in head.now }
    ensures { IsOk result
        → IsSaved head.now name.now (F.log files.old) (F.log files.new) }
{
    let list = read_words(alloc, board, seat)?;
    let Some(words) = words_of(alloc, head, list)? else {
        return Err(Stop::Unsaved);
    };
    // What every list of words keeps holds where it is asked for.
    words.right();
    files.start(name)?;
    append_base(files, name, head, &words, Version::Three)?;
    files.finish(name)?;
    Ok(())
}
