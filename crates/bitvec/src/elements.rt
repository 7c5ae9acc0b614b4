//! The bit operations on windows of borrowed slices of elements, which views call.
pub use bitvec_domain::{bit_in, fill_with_in, for_each_in, replace_in, set_in, swap_in};
pub use bitvec_elements::{
    all_in, any_in, combine_block_in, combine_in, compare_block_in, compare_in, copy_from_block_in,
    copy_from_in, count_in, ends_with_in, eq_block_in, eq_in, fill_in, find_first_in, find_last_in,
    invert_in, starts_with_in, swap_with_block_in, swap_with_in,
};
pub use bitvec_within::{
    combine_within_in, contains_in, copy_within_in, reverse_in, rotate_left_in, rotate_right_in,
    shift_end_in, shift_start_in, swap_within_in,
};
