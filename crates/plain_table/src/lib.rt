//! The table of pairs that is swept round by round, a column after the other.
#![tactic(auto)]

mod plain_reader;
mod plain_table;
mod sweep;
mod table;

pub use plain_reader::PlainReader;
pub use plain_table::PlainTable;
