//! Integers in views.
pub use bitvec_field::{BitField, BitFieldMut, Integral};
pub use bitvec_numbers::FieldOrder;
