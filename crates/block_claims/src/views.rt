use std::collections::LinkedList;

/// A block that was claimed for a round. Only contracts speak of it.
pub struct Claim {
    pub block: u64,
    pub round: u64,
}

/// A word that a block had at some moment. Only contracts speak of it.
pub struct ClaimNote {
    pub block: u64,
    pub word: u64,
}

/// What a seat has claimed, and which words it has noted, the newest first. Only contracts speak of it.
pub struct ClaimView {
    pub claims: LinkedList<Claim>,
    pub notes: LinkedList<ClaimNote>,
}
