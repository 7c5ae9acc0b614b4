//! The tuned numbers of this crate: none changes what a function does. Each names the rows of the benchmark that show it.

use crate::word_parts::WORD_BITS;

/// The elements of a turn of a search from the end: a jump back costs as much as the comparison of an element. No row has it.
pub(crate) const SCAN_TURN: usize = 4;

/// The bits of a block of a search by words, which is four words. Rows `first_one`.
pub(crate) const SCAN_BLOCK_BITS: usize = 4 * WORD_BITS;

/// The bits of a turn of that search, which is four blocks. Rows `first_one`.
pub(crate) const SCAN_TURN_BITS: usize = 4 * SCAN_BLOCK_BITS;

/// The words of a block of a count. Rows `count_ones`.
pub(crate) const COUNT_BLOCK_WORDS: usize = 4;

/// The bits of that block.
pub(crate) const COUNT_BLOCK_BITS: usize = COUNT_BLOCK_WORDS * WORD_BITS;

/// The fewest bits of narrow elements for which a loop of its own for each shift pays. Shifted rows of u8 and u16.
pub(crate) const KNOWN_SKIP_BITS: usize = 512;
