//! Ways to cut a list of bits into numbered pieces: where each piece stands, and how many there are.
#![tactic(auto)]

mod chunks;
mod cutting;
mod from_end;
mod windows;

pub use chunks::{InChunks, InExactChunks};
pub use cutting::{Cutting, ExactCutting};
pub use from_end::{InChunksFromEnd, InExactChunksFromEnd};
pub use windows::InWindows;
