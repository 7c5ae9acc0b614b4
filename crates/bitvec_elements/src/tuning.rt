//! The tuned numbers of this crate: none changes what a function does. Each names the rows of the benchmark that show it.

/// The least number of bits of one phase that are copied as whole elements at once. Rows `copy`.
pub(crate) const COPY_AT_ONCE_BITS: usize = 256;

/// Whole elements of windows of fewer bits are compared in the caller. Rows `equality` of 2^10 bits.
pub(crate) const SHORT_EQUAL_BITS: usize = 2048;

/// The order of so few bits of two types is found by words, with no block. Rows `compare` of 2^10 bits.
pub(crate) const NO_BLOCK_BITS: usize = 2048;

/// How many equal bits [`crate::compare_block_in`] passes at a time. Rows `compare`.
pub(crate) const COMPARE_TURN_BITS: usize = 4096;
