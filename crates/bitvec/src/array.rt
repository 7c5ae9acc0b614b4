//! Arrays of elements as bits.
pub use bitvec_owned::BitArray;
