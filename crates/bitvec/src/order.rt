//! Orders of the bits of an element.
pub use bitvec_base::{BitOrder, HiLo, Lsb0, Msb0};
pub use bitvec_engine::SliceOrder;
#[doc(hidden)]
pub use bitvec_segments::with_next;
pub use bitvec_words::WordOrder;
