//! Files of bounds: their text, which is written and read.
#![tactic(auto)]

mod batch;
mod front;
mod keeping;
mod kept;
mod laws;
mod load;
mod opening;
mod paged;
mod pages;
mod stop;
mod write;

pub use laws::{
    base_texts_begin_so, pages_have_their_places, right_files_hold_right_words,
    right_pages_are_their_words, texts_are_read_back,
};
pub use load::{Base, load_base};
pub use opening::open_paged;
pub use paged::{PagedBase, PagedReader};
pub use stop::LoadStop;
pub use write::{LONGEST_PAGE, append_base, append_base_by};
