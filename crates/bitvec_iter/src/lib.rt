//! Walks over the parts of a view, from both ends: shared parts, and those of a writable view, lent one at a time.
#![tactic(auto)]

mod calls;
mod lent_bits;
mod lent_calls;
mod lent_halves;
mod lent_next;
mod lent_next_bits;
mod lent_pieces;
mod lent_remainders;
mod lent_texts;
mod parts;
mod piece_walk;
mod pieces;
mod texts;
mod views;

pub use calls::IterCalls;
pub use lent_bits::IterMut;
pub use lent_calls::PieceCallsMut;
pub use lent_halves::HalvesMut;
pub use lent_pieces::{ChunksExactMut, ChunksMut, PiecesMut, RChunksExactMut, RChunksMut};
pub use piece_walk::PieceWalk;
pub use pieces::{Chunks, ChunksExact, Pieces, RChunks, RChunksExact, Windows};
