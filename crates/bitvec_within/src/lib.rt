//! The bits within one window of a borrowed slice moved, exchanged, combined and looked for, without counts: what views
//! and slices call.
#![tactic(auto)]

mod candidates;
mod combining_within;
mod copying_within;
mod needles;
mod reversing;
mod rotating;
mod shifting;
mod swapping_within;
mod tuning;

pub use combining_within::combine_within_in;
pub use copying_within::copy_within_in;
pub use needles::contains_in;
pub use reversing::reverse_in;
pub use rotating::{rotate_left_in, rotate_right_in};
pub use shifting::{shift_end_in, shift_start_in};
pub use swapping_within::swap_within_in;
