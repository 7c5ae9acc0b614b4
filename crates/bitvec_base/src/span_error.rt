//! Why a slice of elements can't be viewed as bits.

/// Why a slice of elements can't be viewed as bits: `bitvec`'s `BitSpanError` without its parameter.
#[derive(Clone, Copy, PartialEq, Eq, Debug)]
pub enum BitSpanError {
    /// The elements have more than `MAX_BITS` bits: this many, or `usize::MAX` where a `usize`
    /// can't hold the number.
    TooLong(usize),
}
