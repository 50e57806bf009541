//! Words as bytes of a file, in pages that each end with a digest, which may bind them to their file and place.
#![tactic(auto)]

mod digest;
mod flaws;
mod laws;
mod page;
mod version;
mod words;

pub use digest::{Binding, binding_of, is_sealed, is_sealed_under, put_digest, put_digest_under};
pub use flaws::{Flaw, check_pairs, read_pairs};
pub use laws::{
    flaw_examples, lengths_are_known, pages_are_bound, pages_stand_in_order, right_pages_are_texts,
    right_pairs_are_within, sealed_bytes_are_sealed, word_examples,
    words_and_bytes_are_each_others,
};
pub use page::read_page;
pub use version::Version;
pub use words::{put_words, read_words};
