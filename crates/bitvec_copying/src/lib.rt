//! Copies of views, as elements of their own.
#![tactic(auto)]

mod copying;

pub use copying::{copied, zeros};
