//! Sentences on a refusal, for whoever made the call.
#![tactic(auto)]

mod call;
mod files;
mod note;
mod record;
mod sentence;
mod texts;

pub use note::{put_note, put_unread_note};
