/// Where a worker stops before each block.
pub trait Gate {
    /// So many rounds over so many blocks each are to come. A run that can tell says so before it comes to the first block, one of several
    /// parts before the first of each.
    fn expect(&self, rounds: u32, blocks: u32);

    /// The worker of this number comes to the block of this number.
    fn pass(&self, worker: u32, block: u64);
}

/// Returns at once.
#[derive(Clone, Copy)]
pub struct OpenGate;

impl Gate for OpenGate {
    fn expect(&self, _rounds: u32, _blocks: u32) {}

    fn pass(&self, _worker: u32, _block: u64) {}
}
