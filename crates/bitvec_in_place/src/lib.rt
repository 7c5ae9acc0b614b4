//! Bits of a slice of elements edited in place: what views do, as functions over a slice and a range of its bits, so that
//! a caller knows its array afterwards.
#![tactic(auto)]

mod answering;
mod asking;
mod bits;
mod combining;
mod comparing;
mod cursor_error;
mod editing;
mod ends;
mod exchanging;
mod filling;
mod inserting;
mod moving;
mod numbers;
pub mod own_edit;
mod questions;
mod reader;
mod rows;
mod runs;
mod spans;
mod within;
mod writer;

pub use answering::{fill_with, for_each};
pub use asking::{all, any, not_all, not_any, some};
pub use bits::{get, replace, set, swap};
pub use combining::{and_bits, and_not_bits, copy_from, or_bits, xor_bits};
pub use comparing::{cmp_bits, contains, ends_with, eq_bits, starts_with};
pub use cursor_error::CursorError;
pub use editing::edit;
pub use exchanging::swap_with;
pub use filling::{fill, invert};
pub use inserting::{insert, remove};
pub use moving::{
    copy_within, reverse, rotate_left, rotate_right, shift_end, shift_start, swap_within,
};
pub use numbers::{load_be, load_le, store_be, store_le};
pub use questions::{count_ones, count_zeros, first_one, first_zero, last_one, last_zero};
pub use reader::BitReader;
pub use runs::{leading_ones, leading_zeros, trailing_ones, trailing_zeros};
pub use within::{and_not_within, and_within, or_within, xor_within};
pub use writer::BitWriter;
