//! Workers that really run at once: each is held at its first block until all have come to theirs.
ghost use Rattle.std.specs.Prelude.{◌≤◌};

use crate::tests::test_asserts::{holds, same};
use crate::tests::test_gates::Counting;
use crate::tests::test_words::units;
use cube_actions::{MoneyRule, Stakes};
use hyper_outside::Gate;
use interval_words::Closed;
use std::alloc::{AllocGlobal, Global};
use std::process::Abort;
use std::sync::atomic::{AtomicU64, Ordering};
use std::thread;
use std::thread::Threads;
use worker_sweep::words_after_rounds;
use worker_team::Team;

/// How often a held worker looks whether it may go on, before it gives up.
const TURNS: u32 = 50_000_000;

/// How many blocks, and how many columns, one checker a side has.
const BLOCKS: u64 = 26;

/// Holds each of some workers at its first block until all have come to their first, and whoever comes to block 1 there
/// until all blocks have been come to. Where one has given up, none is held any more.
#[derive(Drop)]
struct Meeting {
    counting: Counting,
    /// How many blocks each worker has come to.
    came: Vec<AtomicU64>,
    /// How many blocks all workers have come to.
    all: AtomicU64,
    /// Who came to block 1.
    last: AtomicU64,
    /// How often a worker gave up.
    gave_up: AtomicU64,
}

impl Meeting {
    fn new(rt: &impl Abort, alloc: Global, workers: u32) -> Meeting {
        let mut came = Vec::new(alloc);
        for _ in 0..workers {
            came.push(AtomicU64::new(0)).expect(rt, "no memory");
        }
        Meeting {
            counting: Counting::new(rt, alloc, workers),
            came,
            all: AtomicU64::new(0),
            last: AtomicU64::new(0),
            gave_up: AtomicU64::new(0),
        }
    }

    /// Waits until so many blocks were come to.
    fn hold(&self, came: &AtomicU64, many: u64) {
        for _turn in 0..TURNS {
            if came.load(Ordering::SeqCst) >= many || self.gave_up.load(Ordering::SeqCst) > 0 {
                return;
            }
            thread::yield_now();
        }
        self.gave_up.fetch_add(1, Ordering::SeqCst);
    }

    /// Nobody gave up, and each block was passed so often. Where that is once, whoever came to block 1 came to no other.
    fn check(&self, rt: &impl Abort, times: u64) {
        same(rt, &self.gave_up.load(Ordering::SeqCst), &0, &"gave up");
        self.counting.check(rt, times);
        let last = self.last.load(Ordering::SeqCst) as usize;
        let of_last = self.came.get(last).map(|came| came.load(Ordering::SeqCst));
        holds(rt, times > 1 || of_last == Some(1), &"who came last");
    }
}

impl Gate for Meeting {
    fn expect(&self, _rounds: u32, _blocks: u32) {}

    fn pass(&self, worker: u32, block: u64) {
        self.counting.pass(worker, block);
        self.all.fetch_add(1, Ordering::SeqCst);
        let is_first = match self.came.get(worker as usize) {
            Some(came) => came.fetch_add(1, Ordering::SeqCst) == 0,
            None => false,
        };
        if is_first {
            for other in &self.came {
                self.hold(other, 1);
            }
        }
        if block == 1 {
            self.last.store(u64::from(worker), Ordering::SeqCst);
            self.hold(&self.all, BLOCKS);
        }
    }
}

/// What so many workers find who meet.
fn met<R: Threads + Sync + Abort + AllocGlobal>(
    rt: &R,
    stakes: &Stakes,
    rounds: u32,
    workers: u32,
) -> Closed
    requires rounds { (1 ≤ rounds) × (rounds ≤ 4096) }
    requires workers { (1 ≤ workers) × (workers ≤ 64) }
{
    let gate = Meeting::new(rt, rt.alloc(), workers);
    let team = Team::new(rt, workers);
    let solved = words_after_rounds(&team, rt.alloc(), 1, stakes, rounds, None, &gate);
    let closed = solved.ok().expect(rt, "no memory");
    gate.check(rt, u64::from(rounds));
    closed
}

#[test]
fn each_block_passes_once_a_round(rt: HostRuntime) {
    let gate = Counting::new(&rt, rt.alloc(), 4);
    let team = Team::new(&rt, 4);
    let solved = words_after_rounds(
        &team,
        rt.alloc(),
        1,
        &Stakes::unlimited(MoneyRule::Money),
        3,
        None,
        &gate,
    );
    solved.ok().expect(&rt, "no memory");
    gate.check(&rt, 3);
}

/// Whoever has block 1 waits there until the others have come to all others: so it comes last, and one worker passes one block. From
/// `12 / 1` 4 rolls win 2 points, 30 lose 2, and 6 and 5 lead to a position of the same column, of which only the bound is known: from
/// (8 - 60 - 6) / 36 to (8 - 60 + 6) / 36 of a point. One thread, a table of its own, or rounds over the words of the round before end
/// otherwise.
#[test]
fn two_at_once_solve(rt: HostRuntime) {
    let closed = met(&rt, &Stakes::unlimited(MoneyRule::Cubeless), 1, 2);
    let last = units(&rt, closed.words(), "12 / 1", 0);
    same(&rt, &last, &(-6_919_669_533, -5_488_013_767), &"12 / 1");
}

/// Which of four has written what when block 1 is swept depends on the schedule, but from `1 / 1` every play wins a gammon at once.
#[test]
fn four_at_once_solve(rt: HostRuntime) {
    let closed = met(&rt, &Stakes::unlimited(MoneyRule::Cubeless), 1, 4);
    let won = units(&rt, closed.words(), "1 / 1", 0);
    same(&rt, &won, &(8_589_934_592, 8_589_934_592), &"1 / 1");
    // With a cube, in more rounds than one.
    met(&rt, &Stakes::unlimited(MoneyRule::Money), 3, 4);
}
