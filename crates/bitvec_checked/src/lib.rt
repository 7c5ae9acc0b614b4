//! Operations on windows of slices of elements that test what they are handed: the order is a number, and a
//! call whose condition fails answers a status and writes nothing.
#![tactic(auto)]

/// Calls a function of the order of a number, which is one. The function behind the word `or` is called of short windows that
/// begin at different indices of their elements.
macro_rules! under {
    ($order:expr, $function:ident::<$element:ty>($elements:expr, $window:expr, $right:expr, $right_window:expr $(, $argument:expr)*) or $shifted:ident) => {
        if $crate::shifted::are_short_shifted::<$element>($window, $right_window) {
            under!($order, $shifted::<$element>($elements, $window, $right, $right_window $(, $argument)*))
        } else {
            under!($order, $function::<$element>($elements, $window, $right, $right_window $(, $argument)*))
        }
    };
    ($order:expr, $function:ident::<$element:ty>($($argument:expr),*)) => {
        match $order {
            $crate::status::LSB0 => $function::<$element, bitvec_base::Lsb0>($($argument),*),
            _ => $function::<$element, bitvec_base::Msb0>($($argument),*),
        }
    };
}

/// Gives a status, and calls a function of the order of a number where it says that the tests have passed. A place in
/// front of the order gets the answer.
macro_rules! tested {
    ($status:ident, $order:ident, $($call:tt)*) => {{
        if $status == $crate::status::DONE {
            under!($order, $($call)*);
        }
        $status
    }};
    ($status:ident, $answer:expr, $order:ident, $($call:tt)*) => {{
        if $status == $crate::status::DONE {
            $answer = under!($order, $($call)*);
        }
        $status
    }};
}

/// Tests two windows, each of a slice by its start and length, and calls a function of them under the order of a number where
/// the tests have passed. Behind the function stand its other arguments. A place in front of the order gets the answer.
macro_rules! tested_beside {
    ($test:ident, $(*$answer:ident,)? $order:ident, $elements:ident[$start:ident, $len:ident], $right:ident[$right_start:ident, $right_len:ident],
        $function:ident::<$element:ty> $(or $shifted:ident)? $(, $argument:expr)*) => {{
        let window = Window {
            start: $start,
            len: $len,
        };
        let right_window = Window {
            start: $right_start,
            len: $right_len,
        };
        let status = $test($order, $elements, window, $right, right_window);
        tested!(
            status,
            $(*$answer,)?
            $order,
            $function::<$element>($elements, window, $right, right_window $(, $argument)*) $(or $shifted)?
        )
    }};
}

mod bits;
mod comparing;
mod counting;
mod every;
mod filling;
mod moving;
mod needles;
mod numbers;
mod pairs;
mod scanning;
mod shifted;
mod status;
mod transfers;
mod tuning;

pub use bits::{get, replace, set, swap_bits};
pub use comparing::{compare, equal};
pub use counting::{all, any, count_ones, count_zeros};
pub use every::{copy_step, count_step, fill_step};
pub use filling::{fill, invert};
pub use moving::{copy_within, reverse, rotate_left, rotate_right, shift_end, shift_start};
pub use needles::{contains, ends_with, starts_with};
pub use numbers::{load_be, load_le, store_be, store_le};
pub use pairs::{count_and, count_xor, disjoint, subset};
pub use scanning::{first_one, first_zero, last_one, last_zero};
pub use status::{
    DONE, LSB0, MSB0, NONE, ORDER, SIZE, end_status, memories_status, or_next, window_status,
};
pub use transfers::{and, and_not, copy, or, swap, xor};
