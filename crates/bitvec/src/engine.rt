//! The bit operations on windows of a memory, through counted access to its elements.
pub use bitvec_cells::{get_bit, replace_bit, swap_bits};
pub use bitvec_engine::{
    ByWords, all, any, contains, ends_with, reverse, rotate_left, rotate_right, shift_end,
    shift_start, starts_with, word_steps,
};
pub use bitvec_passes::{
    bits_copy, bits_copy_within, bits_eq, bits_op, bits_reverse, bits_swap, compare, elements_copy,
    elements_eq, elements_op, elements_swap,
};
pub use bitvec_places::{End, Rest, count_left, scan_turns, take_first, take_last};
pub use bitvec_words::{BitOp, bits_scan_first, bits_scan_last, count, count_zeros, fill, invert};
