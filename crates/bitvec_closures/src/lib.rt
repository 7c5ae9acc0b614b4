//! Edits of parts of a writable view, and of the pieces of a split, in the view's place, by closures: the
//! view is known exactly afterwards.
#![tactic(auto)]

mod edit_elements;
mod edit_parts;
mod edit_splits;
mod left;
mod views;

pub use edit_elements::EditElements;
pub use edit_parts::EditParts;
pub use edit_splits::EditSplits;
#[doc(hidden)]
pub use left::ToSplit;
