//! Solves a game by rounds of one worker and tells how tight its words are meanwhile: the width of the widest pair, and the start's pair in
//! its first kind; then writes the words as a file of bounds, where one is named.

ghost use Rattle.std.specs.Prelude.{◌≡◌, ◌<◌, ◌^◌, IsOk, IfOk, IfSome};
ghost use Rattle.interval_words.specs.Seats.{IsNumber, SitsAt};
ghost use Rattle.interval_words.specs.WordLists.{states_of};
ghost use Rattle.worker_sweep.specs.Workers.{WorksAt};
ghost use Rattle.database_file.specs.Texts.{game_in};
ghost use Rattle.game_census.specs.Saved.{IsSaved, head_asked};

use crate::saving::save;
use crate::stop::Stop;
use crate::task::WidthsTask;
use base_head::Head;
use block_claims::Claims;
use directed_fixed::Fixed;
use interval_words::{Board, BoardSeat, states_are_numbered};
use outside_log::Files;
use point_text::{print_down, print_up};
use position_rank::Position;
use std::alloc::Global;
use std::io::Print;
use worker_sweep::{Worker, blocks_of, sweep_block};

/// A round of one worker.
fn sweep_all(worker: &mut Worker, board: &Board)
    requires { WorksAt board.now worker.old }
    ensures { WorksAt board.now worker.new }
{
    for block in 0..blocks_of(board.checkers()) {
        sweep_block(worker, board, block);
    }
}

/// How far the words of the state with this number are apart, in units.
fn width_of(board: &Board, seat: &mut BoardSeat, state: u64) -> i64
    requires seat { SitsAt board.now seat.old }
    requires state { state < states_of board.now.game }
    ensures { SitsAt board.now seat.new }
{
    states_are_numbered();
    // What contracts know of the board's game holds where it is asked for.
    let _game = (board.checkers(), board.stakes().kinds());
    let lower = board.read_lower(seat, state).units();
    let upper = board.read_upper(seat, state).units();
    upper.saturating_sub(lower)
}

/// How many states the board's game has.
pub(crate) fn state_count(board: &Board) -> u64
    ensures states { result ≡ states_of board.now.game }
    ensures small { result < 2 ^ 36 }
{
    board.index().count() * board.stakes().kinds() as u64
}

/// The number of the start's state in the first kind.
fn start_number(board: &Board) -> u64
    ensures { IsNumber board.now.game result }
{
    // A game has some kind.
    let _kinds = board.stakes().kinds();
    board.number(&Position::start(board.checkers()), 0)
}

/// The width of the widest pair, in units.
fn widest(board: &Board, seat: &mut BoardSeat) -> i64
    requires { SitsAt board.now seat.old }
    ensures { SitsAt board.now seat.new }
{
    let mut widest = 0;
    for state in 0..state_count(board) {
        widest = width_of(board, seat, state).max(widest);
    }
    widest
}

/// A line for a round, in points: its number, the width of the widest pair, and the start's pair in its first kind, rounded outwards.
/// Whether it was printed.
fn print_round<R: Print>(rt: &R, board: &Board, seat: &mut BoardSeat, round: u32) -> bool
    requires { SitsAt board.now seat.old }
    ensures { SitsAt board.now seat.new }
{
    let Some(widest) = Fixed::new(widest(board, seat)) else {
        return false;
    };
    let start = start_number(board);
    let lower = print_down(board.read_lower(seat, start));
    let upper = print_up(board.read_upper(seat, start));
    let width = print_up(widest);
    println!(rt;
        "{round}\t{}\t{}\t{}",
        width.as_str(),
        lower.as_str(),
        upper.as_str()
    )
    .is_ok()
}

/// Makes so many rounds, and prints a line after those from 4 on that are powers of two, and after the last one. Whether all were printed.
fn print_rounds<R: Print>(
    rt: &R,
    board: &Board,
    seat: &mut BoardSeat,
    worker: &mut Worker,
    rounds: u32,
) -> bool
    requires sits { SitsAt board.now seat.old }
    requires works { WorksAt board.now worker.old }
    ensures { SitsAt board.now seat.new }
{
    for round in 1..=rounds {
        sweep_all(worker, board);
        let is_told = round >= 4 && (round.is_power_of_two() || round == rounds);
        if is_told && !print_round(rt, board, seat, round) {
            return false;
        }
    }
    true
}

/// Solves a game by the rounds of one worker, and prints how tight it is meanwhile.
fn solve<R: Print>(rt: &R, alloc: Global, head: &Head) -> Result<(Board, BoardSeat), Stop>
    ensures game { IfOk result (λ made. made.0.game ≡ game_in head.now) }
    ensures seat { IfOk result (λ made. SitsAt made.0 made.1) }
{
    let (board, mut seat) = Board::new(alloc, head.checkers(), &head.stakes())?;
    let (_, claim_seat) = Claims::new(alloc, 1)?;
    let own = board.hire(&mut seat);
    let mut worker = Worker::new(alloc, &board, own, claim_seat, 0)?;
    if !print_rounds(rt, &board, &mut seat, &mut worker, head.rounds()) {
        return Err(Stop::Unprinted);
    }
    Ok((board, seat))
}

/// Solves the task's game, prints how tight it is meanwhile, and writes its file where one is named.
pub(crate) fn tell_widths<R: Print, F: Files>(
    rt: &R,
    alloc: Global,
    task: &WidthsTask,
    files: &mut F,
) -> Result<(), Stop>
    ensures { IsOk result → IfSome task.now.file
        (λ name. IsSaved (head_asked task.now) name.now (F.log files.old) (F.log files.new)) }
{
    let head = Head::unlimited(task.checkers, task.rule, task.rounds);
    let (board, mut seat) = solve(rt, alloc, &head)?;
    match task.file {
        Some(file) => save(alloc, &board, &mut seat, &head, file, files),
        None => Ok(()),
    }
}
