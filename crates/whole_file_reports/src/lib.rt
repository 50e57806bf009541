//! The exact texts of the reports of commands that load a file of bounds whole.
#![tactic(auto)]

mod files;
mod reply;
mod scan;

pub use files::{write_migrated, write_verified};
pub use reply::write_reply;
pub use scan::write_scan;
