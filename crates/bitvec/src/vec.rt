//! Owned sequences of bits.
pub use bitvec_owned::{BitVec, RepeatError, ToBitVec};
