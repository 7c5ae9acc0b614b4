//! Edits of writable views.
#![tactic(auto)]

mod edits;
mod views;

pub use edits::BitEdits;
