//! Why values weren't encoded.

/// Why values weren't encoded, in the order in which it is tested. Nothing was written then.
#[derive(Clone, Copy, PartialEq, Eq, Debug)]
pub enum EncodeError {
    /// There isn't one value a field.
    Count,
    /// The value of this number, the first such one, has more bits than its field.
    Range(usize),
}
