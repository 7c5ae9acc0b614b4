//! Elements as words, and windows that go many bits at a time.
pub use bitvec_combine::{combine, copy, equal};
pub use bitvec_few::{
    load_element, load_element_after, load_parts, load_short, store_parts, store_short,
};
pub use bitvec_move::{copy_within, swap};
pub use bitvec_passes::words_reverse as reverse;
pub use bitvec_words::{
    WORD_BITS, joined, merged, moved, reversed, store_part, toward_end, toward_start,
};
