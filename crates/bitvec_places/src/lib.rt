//! The places of a bit in a window: one after the other from both ends, by turns, or written down a word of them at a
//! time.
#![tactic(auto)]

mod kept;
mod rest;
mod taking;
mod turns;
mod writing;

pub use kept::{Kept, sought_first, take_kept};
pub use rest::Rest;
pub use taking::{count_left, take_first, take_last};
pub use turns::{End, scan_turns};
pub use writing::write_places;
