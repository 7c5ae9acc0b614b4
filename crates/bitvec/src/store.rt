//! The elements that a memory is made of.
pub use bitvec_store::BitStore;
