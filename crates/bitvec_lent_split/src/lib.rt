//! Writable views, split by a predicate into pieces that are lent one at a time.
#![tactic(auto)]

mod calls_mut;
mod lending;
mod lent_texts;
mod limits;
mod split_state;

pub use calls_mut::SplitCallsMut;
pub use lending::{
    RSplitMut, RSplitNMut, SplitInclusiveMut, SplitMut, SplitNMut, SplitsMut, SplitsNMut,
};
pub use limits::{AtMost, Every, SplitLimit};
