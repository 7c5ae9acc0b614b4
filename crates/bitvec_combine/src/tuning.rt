//! The tuned numbers of this crate: none changes what a function does. Each names the rows of the benchmark that show it.

/// How many bits are compared before each test. A test after each single element would keep the loop from vector instructions;
/// LLVM doesn't unroll longer loops over the widest elements, so they have none. Rows `equality`.
pub(crate) const BITS_PER_TEST: usize = 2048;

/// How many bits are compared before each test where a window is shorter than that. Rows `equality` of 2^10 bits.
pub(crate) const BITS_PER_SHORT_TEST: usize = 1024;

/// How many shifted elements are copied in a turn: so many that the compiler makes vectors of them before it unrolls the turn.
/// By its own choice a turn has two vectors, and takes up to twice as long where its jump falls badly. Shifted rows `copy`.
pub(crate) const COPY_TURN: usize = 64;
