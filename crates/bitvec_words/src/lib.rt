//! Elements as words: their bits moved, joined, merged and reversed many at a time; parts of elements stored, and the
//! elements of a word loaded and stored; windows filled, flipped, counted and searched.
#![tactic(auto)]

mod carried;
mod counting;
mod element;
mod filling;
mod fronts;
mod known_skip;
mod lanes;
mod operator;
mod part;
mod pieces;
mod scanning;
mod scanning_words;
mod split;
mod stretch;
mod touching;
mod tuning;
mod word_elements;
mod word_order;
mod word_parts;

pub use carried::{Carried, Whole};
pub use counting::{count, count_zeros};
pub use element::{joined, merged, reversed, toward_end, toward_start};
pub use filling::{fill, invert};
pub use fronts::{bits_load_front, bits_lowest_first, gathered, words_load_front};
pub use known_skip::known_skip_pays;
pub use lanes::Lanes;
pub use operator::BitOp;
pub use part::store_part;
pub use scanning::{bits_scan_first, bits_scan_last};
pub use scanning_words::words_scan_first;
pub use stretch::Stretch;
pub use touching::{touched, whole_bits};
pub use word_elements::{load_across, load_elements, store_elements};
pub use word_order::WordOrder;
pub use word_parts::{WORD_BITS, moved};
