//! The head of a file of bounds: what its words are of, the bytes that say it, and what is wrong first with such bytes.
#![tactic(auto)]

mod fault;
mod fields;
mod front;
mod head;
mod header;
mod laws;
mod reading;

pub use fault::{BadFile, FileFault};
pub use front::put_front;
pub use head::Head;
pub use header::{BASE_START, Header, LONGEST_FRONT, PAGE_POSITIONS};
pub use laws::{fronts_are_read_back, header_examples};
pub use reading::read_header;
