//! Bit operations on whole windows in one way each: bit by bit, by elements as they are, or by blocks from both ends.
#![tactic(auto)]

mod by_bits;
mod by_elements;
mod reversing;

pub use by_bits::{
    bits_copy, bits_copy_within, bits_eq, bits_op, bits_reverse, bits_swap, compare,
};
pub use by_elements::{elements_copy, elements_eq, elements_op, elements_swap};
pub use reversing::words_reverse;
