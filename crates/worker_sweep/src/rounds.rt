ghost use Rattle.std.specs.Prelude.{◌≡◌, ◌+◌, ◌-◌, ◌<◌, ◌≤◌, true, false, All, IfOk, IfSome, IsSomeAnd, length};
ghost use Rattle.turn_rule.specs.Games.{game_of};
ghost use Rattle.turn_rule.specs.Turn.{rounds as rounds_after};
ghost use Rattle.interval_words.specs.Core.{all_hands, noted};
ghost use Rattle.interval_words.specs.Seats.{SitsAt, KeepsNotes, first_seat};
ghost use Rattle.interval_words.specs.WordLists.{AreClosed, AreNarrow, words_in_list};
ghost use Rattle.worker_sweep.specs.Blocks.{blocks as blocks_in};
ghost use Rattle.block_claims.specs.Views.{fresh};
ghost use Rattle.worker_sweep.specs.Workers.{WorksAt, IsAtWork, IsReady, HaveGoneThrough, HasMarksOf, unmarked_worker};
ghost use Rattle.worker_sweep.specs.LastRounds.{IsLastRound};
ghost use Rattle.worker_sweep.specs.Shares.{HasDone, IsOnLeft, IsDivided, with_hands, shares_of, works_of, hands_of, all_claims};

use crate::blocks::block_count;
use crate::worker::Worker;
use block_claims::{ClaimSeat, Claims};
use cube_actions::Stakes;
use directed_fixed::Fixed;
use hyper_outside::{Gate, NoMemory};
use interval_words::{Board, BoardSeat, Closed};
use std::alloc::Global;
use std::thread::Threads;
use worker_team::Team;

/// A game that was solved: its closed words, and who has claimed and tightened what. The seats take no bytes; contracts
/// see in them all claims of the workers, and the work of each worker and of their owner.
#[derive(Drop)]
pub struct Solved {
    pub closed: Closed,
    pub claims: ClaimSeat,
    pub crew: Vec<Worker>,
    pub owner: BoardSeat,
}

/// The workers claim and sweep blocks, each in a thread of its own where one can be started, else in turn.
fn sweep_together<R: Threads + Sync, G: Gate + Sync>(
    team: &Team<R>,
    board: &Board,
    claims: &Claims,
    gate: &G,
    crew: &mut [Worker],
    base: u32,
)
    requires many { claims.now.blocks ≡ blocks_in board.now.game.checkers }
    requires crew { All (IsReady board.now claims.now base) crew.old }
    ensures len { length crew.new ≡ length crew.old }
    ensures crew { All (IsAtWork board.now claims.now base) crew.new }
    ensures through { HaveGoneThrough board.now.game (base + 1) claims.now.blocks
        crew.old crew.new }
{
    let round = u64::from(base) + 1;
    team.for_each_mut(
        crew,
        &|_, worker| { worker.sweep_claimed(board, claims, gate, round) },
    );
}

/// The owner takes in what each worker has noted and swept. It does no work itself.
fn take_all_in(board: &Board, claims: &Claims, owner: &mut Worker, crew: &mut [Worker], base: u32)
    requires owner { IsAtWork board.now claims.now base owner.old }
    requires crew { All (IsAtWork board.now claims.now base) crew.old }
    ensures owner { IsAtWork board.now claims.now base owner.new }
    ensures work { owner.new.seat.view.work ≡ owner.old.seat.view.work }
    ensures hands { owner.new.seat.view.hands ≡ owner.old.seat.view.hands }
    ensures claims { owner.new.claims ≡ owner.old.claims }
    ensures marks { HasMarksOf crew.old owner.new }
    ensures len { length crew.new ≡ length crew.old }
    ensures crew { All (IsReady board.now claims.now base) crew.new }
    ensures shares { shares_of crew.new ≡ shares_of crew.old }
{
    for worker in crew.iter_mut() {
        owner.take_in(board, worker);
    }
}

/// Each worker knows what the owner knows. Its claims and its work stay.
fn follow_all(board: &Board, claims: &Claims, owner: &mut Worker, crew: &mut [Worker], base: u32)
    requires owner { IsAtWork board.now claims.now (base + 1) owner.old }
    requires crew { All (IsReady board.now claims.now base) crew.old }
    ensures owner { owner.new ≡ owner.old }
    ensures len { length crew.new ≡ length crew.old }
    ensures crew { All (IsReady board.now claims.now (base + 1)) crew.new }
    ensures shares { shares_of crew.new ≡ shares_of crew.old }
{
    for worker in crew.iter_mut() {
        worker.follow(board, owner);
    }
}

/// One round. The workers sweep together; then the owner takes in what they know, sweeps each block that none of them has
/// marked, and ends the round; and they go on from what it then knows.
fn run_round<R: Threads + Sync, G: Gate + Sync>(
    team: &Team<R>,
    board: &Board,
    claims: &Claims,
    gate: &G,
    owner: &mut Worker,
    crew: &mut [Worker],
    base: u32,
)
    requires many { claims.now.blocks ≡ blocks_in board.now.game.checkers }
    requires owner { IsReady board.now claims.now base owner.old }
    requires crew { All (IsReady board.now claims.now base) crew.old }
    requires done { All (HasDone board.now.game base) (shares_of crew.old) }
    requires rest { All (IsOnLeft board.now.game base (shares_of crew.old))
        owner.old.seat.view.work }
    ensures owner { IsReady board.now claims.now (base + 1) owner.new }
    ensures claims { owner.new.claims ≡ owner.old.claims }
    ensures hands { owner.new.seat.view.hands ≡ owner.old.seat.view.hands }
    ensures len { length crew.new ≡ length crew.old }
    ensures crew { All (IsReady board.now claims.now (base + 1)) crew.new }
    ensures done { All (HasDone board.now.game (base + 1)) (shares_of crew.new) }
    ensures rest { All (IsOnLeft board.now.game (base + 1) (shares_of crew.new))
        owner.new.seat.view.work }
{
    sweep_together(team, board, claims, gate, crew, base);
    take_all_in(board, claims, owner, crew, base);
    owner.sweep_rest(board);
    owner.settle(board);
    follow_all(board, claims, owner, crew, base);
}

/// Whether the owner finds every pair to be at most as wide as the goal. Without a goal it reads none.
fn has_met(owner: &mut Worker, board: &Board, goal: &Option<Fixed>) -> bool
    requires { WorksAt board.now owner.old }
    ensures seat { KeepsNotes owner.old.seat owner.new.seat }
    ensures work { owner.new.seat.view.work ≡ owner.old.seat.view.work }
    ensures marks { owner.new.marks ≡ owner.old.marks }
    ensures claims { owner.new.claims ≡ owner.old.claims }
    ensures number { owner.new.number ≡ owner.old.number }
    ensures met { result ≡ true → IsSomeAnd goal.now
        (AreNarrow board.now.game (noted board.now.game owner.new.seat.view.notes)) }
    ensures unmet { result ≡ false → IfSome goal.now (λ widest. ¬ AreNarrow board.now.game
        (rounds_after board.now.game.stakes owner.old.seat.view.base) widest) }
{
    match goal {
        Some(width) => owner.is_narrow(board, *width),
        None => false,
    }
}

/// So many rounds, or fewer where the owner finds that the goal is met. Answers how many were made.
fn run_each<R: Threads + Sync, G: Gate + Sync>(
    team: &Team<R>,
    board: &Board,
    claims: &Claims,
    gate: &G,
    owner: &mut Worker,
    crew: &mut [Worker],
    rounds: u32,
    goal: Option<Fixed>,
) -> u32
    requires many { claims.now.blocks ≡ blocks_in board.now.game.checkers }
    requires owner { IsReady board.now claims.now 0 owner.old }
    requires crew { All (IsReady board.now claims.now 0) crew.old }
    requires done { All (HasDone board.now.game 0) (shares_of crew.old) }
    requires rest { All (IsOnLeft board.now.game 0 (shares_of crew.old)) owner.old.seat.view.work }
    requires some { 1 ≤ rounds }
    ensures owner { IsReady board.now claims.now result owner.new }
    ensures claims { owner.new.claims ≡ owner.old.claims }
    ensures hands { owner.new.seat.view.hands ≡ owner.old.seat.view.hands }
    ensures len { length crew.new ≡ length crew.old }
    ensures crew { All (IsReady board.now claims.now result) crew.new }
    ensures done { All (HasDone board.now.game result) (shares_of crew.new) }
    ensures rest { All (IsOnLeft board.now.game result (shares_of crew.new))
        owner.new.seat.view.work }
    ensures last { IsLastRound board.now.game goal rounds
        (noted board.now.game owner.new.seat.view.notes) result }
{
    for base in 0..rounds {
        run_round(team, board, claims, gate, owner, crew, base);
        if has_met(owner, board, &goal) {
            return base + 1;
        }
    }
    rounds
}

/// The seat takes over the claims of all workers, one after the other.
fn hand_all(claims: &Claims, seat: &mut ClaimSeat, crew: &mut [Worker])
    requires seat { seat.old ≡ record { table = claims.now.table; view = fresh } }
    requires crew { All (λ worker. worker.claims.table ≡ claims.now.table) crew.old }
    ensures seat { seat.new.view ≡ all_claims (shares_of crew.old) }
    ensures len { length crew.new ≡ length crew.old }
    ensures works { works_of crew.new ≡ works_of crew.old }
    ensures hands { hands_of crew.new ≡ hands_of crew.old }
{
    for worker in crew.iter_mut() {
        worker.hand_claims(claims, seat);
    }
}

/// So many workers, who know what the two seats know, and have done nothing. Each gets one of the seat's hands.
fn make_crew(
    alloc: Global,
    board: &Board,
    claims: &Claims,
    seat: &mut BoardSeat,
    claim_seat: &mut ClaimSeat,
    workers: u32,
) -> Result<Vec<Worker>, NoMemory>
    requires seat { SitsAt board.now seat.old }
    requires claims { claim_seat.old.table ≡ claims.now.table }
    requires many { workers ≤ 64 }
    requires hands { seat.old.view.hands ≡ all_hands }
    ensures seat { IfOk result (λ crew. seat.new ≡ with_hands seat.old (all_hands - workers)) }
    ensures claim_seat { claim_seat.new ≡ claim_seat.old }
    ensures many { IfOk result (λ crew. length crew.items ≡ workers) }
    ensures crew { IfOk result
        (λ crew. All (IsReady board.now claims.now seat.old.view.base) crew.items) }
    ensures done { IfOk result (λ crew. All (HasDone board.now.game 0) (shares_of crew.items)) }
{
    let mut crew = Vec::new(alloc);
    for number in 0..workers {
        let board_seat = board.hire(seat);
        let own_claims = claims.split(claim_seat);
        crew.push(Worker::new(alloc, board, board_seat, own_claims, number)?)?;
    }
    Ok(crew)
}

/// So many workers, and their owner, who works from the seats that are left.
fn make_workers(
    alloc: Global,
    board: &Board,
    claims: &Claims,
    mut seat: BoardSeat,
    mut claim_seat: ClaimSeat,
    workers: u32,
) -> Result<(Vec<Worker>, Worker), NoMemory>
    requires seat { SitsAt board.now seat }
    requires claims { claim_seat.table ≡ claims.now.table }
    requires many { workers ≤ 64 }
    requires hands { seat.view.hands ≡ all_hands }
    ensures many { IfOk result (λ made. length made.0.items ≡ workers) }
    ensures crew { IfOk result
        (λ made. All (IsReady board.now claims.now seat.view.base) made.0.items) }
    ensures done { IfOk result (λ made. All (HasDone board.now.game 0) (shares_of made.0.items)) }
    ensures owner { IfOk result (λ made. made.1
        ≡ unmarked_worker (with_hands seat (all_hands - workers)) claim_seat 0
        (blocks_in board.now.game.checkers)) }
{
    let crew = make_crew(alloc, board, claims, &mut seat, &mut claim_seat, workers)?;
    let owner = Worker::new(alloc, board, seat, claim_seat, 0)?;
    Ok((crew, owner))
}

/// What the workers of a board leave after its rounds: the owner's seat, all claims, the workers, and how many rounds were made.
#[derive(Drop)]
struct Worked {
    owner: BoardSeat,
    claims: ClaimSeat,
    crew: Vec<Worker>,
    rounds: u32,
}

/// Has so many workers sweep a new board in rounds.
fn work<R: Threads + Sync, G: Gate + Sync>(
    team: &Team<R>,
    alloc: Global,
    board: &Board,
    claims: &Claims,
    seat: BoardSeat,
    claim_seat: ClaimSeat,
    rounds: u32,
    goal: Option<Fixed>,
    gate: &G,
) -> Result<Worked, NoMemory>
    requires seat { seat ≡ first_seat board.now }
    requires many { claims.now.blocks ≡ blocks_in board.now.game.checkers }
    requires claims { claim_seat ≡ record { table = claims.now.table; view = fresh } }
    requires rounds { (1 ≤ rounds) × (rounds ≤ 4096) }
    ensures seat { IfOk result (λ worked. SitsAt board.now worked.owner) }
    ensures base { IfOk result (λ worked. worked.owner.view.base ≡ worked.rounds) }
    ensures rounds { IfOk result (λ worked. IsLastRound board.now.game goal rounds
        (noted board.now.game worked.owner.view.notes) worked.rounds) }
    ensures divided { IfOk result (λ worked. IsDivided board.now.game worked.rounds
        team.now worked.claims worked.crew.items worked.owner) }
{
    let (mut crew, mut owner) = make_workers(
        alloc,
        board,
        claims,
        seat,
        claim_seat,
        team.workers(),
    )?;
    let made = run_each(
        team, board, claims, gate, &mut owner, &mut crew, rounds, goal,
    );
    let (owner, mut all) = owner.into_seats();
    hand_all(claims, &mut all, &mut crew);
    // The prover is told that none of all claims comes twice.
    all.has_each_once();
    Ok(Worked {
        owner,
        claims: all,
        crew,
        rounds: made,
    })
}

/// Solves a game of one to three checkers a side by 1 to 4,096 rounds of a team's workers, each in a thread of its own
/// where one can be started, else in turn.
///
/// In a round each worker goes once through all blocks, from the first on, claims each, and sweeps those that it gets,
/// with the words as they then stand. A block that is claimed passes the gate first. Then the blocks that no worker has
/// marked are swept. After each round, where there is a goal, the pairs are read up to the first that is wider than the
/// goal, and no more rounds are made where there is none. The words are sound, consistent and at least as tight as those
/// after as many rounds of a plain table as were made. All memory but that of the closed words is asked for before the
/// first round. It may answer `NoMemory`, and no other error.
///
/// Each worker came to each block once in each round, and tightened only words in blocks that it got for that round;
/// no block was got twice for a round; and what was tightened after the workers was in blocks that none of them had got.
pub fn run_rounds<R: Threads + Sync, G: Gate + Sync>(
    team: &Team<R>,
    alloc: Global,
    checkers: u8,
    stakes: &Stakes,
    rounds: u32,
    goal: Option<Fixed>,
    gate: &G,
) -> Result<Solved, NoMemory>
    requires low { 1 ≤ checkers }
    requires high { checkers ≤ 3 }
    requires rounds { (1 ≤ rounds) × (rounds ≤ 4096) }
    ensures game { IfOk result (λ solved. solved.closed.game ≡ game_of checkers stakes.now) }
    ensures closed { IfOk result (λ solved. AreClosed solved.closed) }
    ensures rounds { IfOk result (λ solved. IsLastRound solved.closed.game goal rounds
        (words_in_list solved.closed) solved.closed.rounds) }
    ensures divided { IfOk result (λ solved. IsDivided solved.closed.game solved.closed.rounds
        team.now solved.claims solved.crew.items solved.owner) }
{
    let (board, seat) = Board::new(alloc, checkers, stakes)?;
    let (claims, claim_seat) = Claims::new(alloc, block_count(&board))?;
    let Worked {
        mut owner,
        claims,
        crew,
        rounds,
    } = work(
        team, alloc, &board, &claims, seat, claim_seat, rounds, goal, gate,
    )?;
    let known = board.split(&mut owner);
    let closed = board.close(alloc, known, rounds)?;
    Ok(Solved {
        closed,
        claims,
        crew,
        owner,
    })
}

/// The closed words that `run_rounds` finds, where nobody asks who has done what.
pub fn words_after_rounds<R: Threads + Sync, G: Gate + Sync>(
    team: &Team<R>,
    alloc: Global,
    checkers: u8,
    stakes: &Stakes,
    rounds: u32,
    goal: Option<Fixed>,
    gate: &G,
) -> Result<Closed, NoMemory>
    requires low { 1 ≤ checkers }
    requires high { checkers ≤ 3 }
    requires rounds { (1 ≤ rounds) × (rounds ≤ 4096) }
    ensures game { IfOk result (λ closed. closed.game ≡ game_of checkers stakes.now) }
    ensures closed { IfOk result (λ closed. AreClosed closed) }
    ensures rounds { IfOk result (λ closed. IsLastRound closed.game goal rounds
        (words_in_list closed) closed.rounds) }
{
    let (board, seat) = Board::new(alloc, checkers, stakes)?;
    let (claims, claim_seat) = Claims::new(alloc, block_count(&board))?;
    // The workers give their room back before the words are copied.
    let Worked { owner, rounds, .. } = work(
        team, alloc, &board, &claims, seat, claim_seat, rounds, goal, gate,
    )?;
    let closed = board.close(alloc, owner, rounds)?;
    Ok(closed)
}
