//! Why a list of fields is no layout.

/// Why there is no layout, in the order in which it is tested. Fields go by their numbers, from 0.
#[derive(Clone, Copy, PartialEq, Eq, Debug)]
pub enum LayoutError {
    /// This field, the first such one, has no bits, or more than 128.
    Width(usize),
    /// This field, the first such one, doesn't lie in the record's bits.
    Outside(usize),
    /// These two fields have a bit in common: the first field that has one with a later field, and
    /// the first such later field.
    Overlap(usize, usize),
    /// There was no memory for the fields.
    Memory,
}
