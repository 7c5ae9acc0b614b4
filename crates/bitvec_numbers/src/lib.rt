//! Numbers in windows as an order has them, and integers as such numbers.
#![tactic(auto)]

mod field_order;
mod integers;

pub use field_order::FieldOrder;
pub use integers::{extended, reduced};
