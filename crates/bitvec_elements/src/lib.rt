//! The bit operations on windows of borrowed slices of elements, without counts: what views call.
#![tactic(auto)]

/// Under an order that runs from one end of an element to the other, returns what a function gives under `Lsb0` or
/// `Msb0`, which has the same bits at each index; under other orders it does nothing. The `_` stands for that order.
#[macro_export]
macro_rules! return_by_direction {
    ($order:ty, $element:ty => $function:ident::<_ $(, $kind:ty)*>($($argument:expr),* $(,)?)) => {
        match bitvec_engine::direction_of::<$order, $element>() {
            bitvec_engine::Direction::Up => {
                return $function::<bitvec_base::Lsb0 $(, $kind)*>($($argument),*);
            }
            bitvec_engine::Direction::Down => {
                return $function::<bitvec_base::Msb0 $(, $kind)*>($($argument),*);
            }
            bitvec_engine::Direction::Other => {}
        }
    };
}

/// [`return_by_direction`] for two orders, each of an element: it returns where both run up through theirs, or both down.
macro_rules! return_by_directions {
    ($order:ty, $element:ty; $other:ty, $other_element:ty => $function:ident::<_ $(, $kind:ty)*>($($argument:expr),* $(,)?)) => {
        match (
            bitvec_engine::direction_of::<$order, $element>(),
            bitvec_engine::direction_of::<$other, $other_element>(),
        ) {
            (bitvec_engine::Direction::Up, bitvec_engine::Direction::Up) => {
                return $function::<bitvec_base::Lsb0 $(, $kind)*>($($argument),*);
            }
            (bitvec_engine::Direction::Down, bitvec_engine::Direction::Down) => {
                return $function::<bitvec_base::Msb0 $(, $kind)*>($($argument),*);
            }
            _ => {}
        }
    };
}

/// Calls a function with the size of a block for so many bits: 8, 258 or 2,050 elements. The `_` stands for it.
macro_rules! with_room {
    ($element:ty, $len:expr => $function:ident::<$W:ty, $T:ty, $U:ty, $P:ty, _>($($argument:expr),*)) => {{
        let bits = <$element>::BITS as usize;
        if $len <= 8 * bits {
            $function::<$W, $T, $U, $P, 8>($($argument),*)
        } else if bits > 16 || $len <= 258 * bits {
            $function::<$W, $T, $U, $P, 258>($($argument),*)
        } else {
            $function::<$W, $T, $U, $P, 2050>($($argument),*)
        }
    }};
}

mod combining;
mod comparing;
mod converting;
mod copying;
mod copying_elements;
mod counting;
mod difference;
mod filling;
mod prefixes;
mod recutting;
mod scanning;
mod swapping;
mod tuning;
mod window_words;

pub use combining::{combine_block_in, combine_in};
pub use comparing::{compare_block_in, compare_in, eq_block_in, eq_blocks_in, eq_in};
pub use copying::{copy_from_block_in, copy_from_in, copy_from_long_block_in};
pub use counting::{count_blocks_in, count_in};
pub use filling::{fill_in, invert_in};
pub use prefixes::{ends_with_in, starts_with_in};
pub use scanning::{all_in, any_in, find_first_in, find_last_in};
pub use swapping::{swap_with_block_in, swap_with_in};
pub use window_words::{is_at_once, word_from};
