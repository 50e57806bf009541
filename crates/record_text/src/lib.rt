//! The text of recorded games: read line by line, and printed.
#![tactic(auto)]

mod draft;
mod examples;
mod form;
mod laws;
mod print;
mod read;
mod read_line;
mod words;

pub use examples::{shape_examples, wrong_examples};
pub use laws::{
    no_record_text_begins_another, record_texts_begin_so, record_texts_have_no_fault,
    texts_have_one_first_fault, texts_tell_records,
};
pub use print::{RECORD_START, print_record};
pub use read::{MOST_RECORD_BYTES, read_record};
