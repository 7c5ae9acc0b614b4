//! Bit addressing: elements, bit orders, windows of a memory and where they come apart, and parts of its elements.
#![tactic(auto)]

mod apart;
mod hi_lo;
mod lsb0;
mod msb0;
mod ones;
mod order;
mod part;
mod span_error;
mod window;

pub use apart::comes_apart;
pub use hi_lo::HiLo;
pub use lsb0::Lsb0;
pub use msb0::Msb0;
pub use order::BitOrder;
pub use part::{Part, elements_of};
pub use span_error::BitSpanError;
pub use window::{MAX_BITS, Window};
