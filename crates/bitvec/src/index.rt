//! Places in a memory: windows of its bits, and parts of its elements.
pub use bitvec_base::{MAX_BITS, Part, Window};
