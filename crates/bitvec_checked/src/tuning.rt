//! The tuned numbers of this crate: none changes what a function does. Each names the rows of the benchmark that show it.

/// Windows of fewer bits are short ones: their whole elements make at most eight vectors of 128 bits, so many that the
/// compiler unrolls the loop over them whole. Shifted rows `copy` and `equality` of 2^10 bits.
pub(crate) const SHORT_SHIFTED_BITS: usize = 9 * 128;

/// Steps above this one go bit by bit. Python's slices with a step have it; no row does.
pub(crate) const FAR_STEP: usize = 64;

/// So many elements have the places of a step several times. No row has it.
pub(crate) const BLOCK_ELEMENTS: usize = 512;
