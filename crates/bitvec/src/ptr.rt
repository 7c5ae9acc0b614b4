//! References to one bit, and why a view was refused.
pub use bitvec_base::BitSpanError;
pub use bitvec_domain::{BitRef, BitRefMut};
