ghost use Rattle.std.specs.Prelude.{◌≡◌, ℕ, ◌<◌, ◌≤◌, IfOk, vec_len};
ghost use Rattle.std.specs.Fn.{FnOnceReturnsAt};
ghost use Rattle.std.specs.Fork.{AcceptsEach, ChangesEach, GivesEach};

use std::alloc::{AllocError, Global};
use std::marker::Model;
use std::thread;
use std::thread::Threads;

/// So many workers, 1 to 64, each in a thread of its own where one can be started, else in turn. Clauses see how many.
#[derive(Drop)]
pub struct Team<'a, R> {
    rt: &'a R,
    workers: u32,
}

impl<'a, R> Model for Team<'a, R> {
    ghost use Rattle.std.specs.Prelude.{ℕ, ◌≤◌};

    ghost Value = { ℕ };

    ghost view = { λ team. team.workers };

    ghost invariant = { λ team. (1 ≤ team.workers) × (team.workers ≤ 64) };
}

impl<'a, R: Threads + Sync> Team<'a, R> {
    /// A team of so many workers.
    pub fn new(rt: &'a R, workers: u32) -> Team<'a, R>
        requires { (1 ≤ workers) × (workers ≤ 64) }
        ensures { result ≡ workers }
    {
        Team { rt, workers }
    }

    /// How many workers there are.
    pub fn workers(&self) -> u32
        ensures is { result ≡ self.now }
        ensures low { 1 ≤ result }
        ensures high { result ≤ 64 }
    {
        self.workers
    }

    /// Calls `f(i, &mut s[i])` at each place, the places shared among the workers.
    pub fn for_each_mut<T: Send, F: Fn(usize, &mut T) + Sync>(&self, s: &mut [T], f: &F)
        requires { AcceptsEach F.Fn f.now s.old }
        ensures { ChangesEach F.Fn f.now s.old s.new }
    {
        thread::for_each_mut(self.rt, s, self.workers as usize, f);
    }

    /// Calls `f(0)` to the last of as many as there are workers, one a worker, and gives the results in order. On `Err` memory ran out.
    pub fn map<X: Send + Drop, F: Fn(usize) -> X + Sync>(
        &self,
        alloc: Global,
        f: &F,
    ) -> Result<Vec<X>, AllocError>
        requires { (i : ℕ) → i < self.now → F.pre f.now i }
        ensures len { IfOk result (λ results. vec_len results ≡ self.now) }
        ensures each { IfOk result (λ results. GivesEach F.Fn f.now self.now results.items) }
    {
        thread::map_indices(self.rt, alloc, self.workers as usize, f)
    }

    /// Calls `f` with workers, and `g` beside it in this thread. This thread is one of a team of three or more, so `f` is given the others; a smaller
    /// team calls `f` with all its workers, and then `g`.
    pub fn join<A: Send, B, F: FnOnce(&Team<R>) -> A + Send, G: FnOnce() -> B>(
        &self,
        f: F,
        g: G,
    ) -> (A, B)
        requires first { F.IsAlwaysCallable f }
        requires second { G.pre g }
        ensures first { (workers : ℕ) × (workers ≤ self.now)
            × FnOnceReturnsAt F.FnOnce f workers result.0 }
        ensures second { G.post g result.1 }
    {
        if self.workers < 3 {
            return (f(self), g());
        }
        let others = Team {
            rt: self.rt,
            workers: self.workers - 1,
        };
        let by_others = ||
            requires { F.IsAlwaysCallable f }
            ensures { FnOnceReturnsAt F.FnOnce f others.entry result }
        { f(&others) };
        thread::join(self.rt, by_others, g)
    }
}
