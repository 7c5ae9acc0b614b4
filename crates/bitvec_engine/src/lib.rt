//! Every bit operation on a window of a memory, through counted access to its elements.
#![tactic(auto)]

mod by_words;
mod hi_lo;
mod order_direction;
mod searching;
mod shifting;
mod slice_order;
pub mod word_steps;

pub use order_direction::{Direction, direction_of};
pub use searching::{all, any, contains, ends_with, starts_with};
pub use shifting::{reverse, rotate_left, rotate_right, shift_end, shift_start};
pub use slice_order::{ByWords, SliceOrder};
