//! A gate that counts who passes.
use crate::tests::test_asserts::same;
use hyper_outside::Gate;
use std::alloc::Global;
use std::process::Abort;
use std::sync::atomic::{AtomicU64, Ordering};

/// How many blocks, and how many columns, one checker a side has.
const BLOCKS: usize = 26;

/// Counts how often each block is passed by one of so many workers, and what else passes.
#[derive(Drop)]
pub struct Counting {
    workers: u32,
    blocks: Vec<AtomicU64>,
    others: AtomicU64,
}

impl Counting {
    pub fn new(rt: &impl Abort, alloc: Global, workers: u32) -> Counting {
        let mut blocks = Vec::new(alloc);
        for _ in 0..BLOCKS {
            blocks.push(AtomicU64::new(0)).expect(rt, "no memory");
        }
        Counting {
            workers,
            blocks,
            others: AtomicU64::new(0),
        }
    }

    /// Each block was passed so often, and nothing else.
    pub fn check(&self, rt: &impl Abort, times: u64) {
        same(rt, &self.blocks.len(), &BLOCKS, &"blocks");
        for block in &self.blocks {
            same(rt, &block.load(Ordering::SeqCst), &times, &self.workers);
        }
        same(rt, &self.others.load(Ordering::SeqCst), &0, &self.workers);
    }
}

impl Gate for Counting {
    fn expect(&self, _rounds: u32, _blocks: u32) {}

    fn pass(&self, worker: u32, block: u64) {
        match self.blocks.get(block as usize) {
            Some(passes) if worker < self.workers => {
                passes.fetch_add(1, Ordering::SeqCst);
            }
            _ => {
                self.others.fetch_add(1, Ordering::SeqCst);
            }
        }
    }
}
