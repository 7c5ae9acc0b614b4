//! From which end a field's number is read.

/// Which of the segments of a field, its bits cut at the edges of elements, counts lowest: as
/// `load_le` and `load_be` of `BitField` read them.
#[derive(Clone, Copy, PartialEq, Eq, Debug)]
pub enum Endian {
    /// The first one.
    Little,
    /// The last one.
    Big,
}
