//! The tuned numbers of this crate: none changes what a function does. Each names the rows of the benchmark that show it.

/// How many bits of a needle are compared before the search asks whether any place is left: in a row, with no jump in between.
/// Rows `contains`.
pub(crate) const PASSES_PER_TEST: usize = 8;

/// Ranges that touch at most so many elements, and aren't whole elements, are combined with a copy of the one that is read, whichever
/// lies first. No row has it; a row of 100 bits of u64 takes 174 instructions in place of 312.
pub(crate) const ASIDE: usize = 6;
