//! The bits of a slice of elements edited in place, by functions over the slice and a range of its bits, and read and written by
//! cursors.
pub use bitvec_in_place::{
    BitReader, BitWriter, CursorError, all, and_bits, and_not_bits, and_not_within, and_within,
    any, cmp_bits, contains, copy_from, copy_within, count_ones, count_zeros, edit, ends_with,
    eq_bits, fill, fill_with, first_one, first_zero, for_each, get, insert, invert, last_one,
    last_zero, leading_ones, leading_zeros, load_be, load_le, not_all, not_any, or_bits, or_within,
    remove, replace, reverse, rotate_left, rotate_right, set, shift_end, shift_start, some,
    starts_with, store_be, store_le, swap, swap_with, swap_within, trailing_ones, trailing_zeros,
    xor_bits, xor_within,
};
