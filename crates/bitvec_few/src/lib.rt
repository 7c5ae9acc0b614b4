//! Windows of few bits, loaded and stored as one value: of at most an element's width as an element, and of up to 64
//! bits as a word.
#![tactic(auto)]

mod element;
mod word;

pub use element::{load_element, load_element_after, load_short, store_short};
pub use word::{is_few, load_parts, store_parts};
