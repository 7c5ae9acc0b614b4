//! Counted access to the elements of a memory: single bits of a window, and parts of one element.
#![tactic(auto)]

mod bit;
mod cells;
mod counts;
mod exclusive;
mod find;
mod part;
mod shared;
mod swap;

pub use bit::{get_bit, replace_bit};
pub use cells::{Cells, CellsRead, fits_max_bits, has_window};
pub use exclusive::Exclusive;
pub use find::{first_in_element, first_in_part, last_in_element, last_in_part, sought};
pub use part::{count_part, fill_part, filled, invert_part};
pub use shared::Shared;
pub use swap::swap_bits;
