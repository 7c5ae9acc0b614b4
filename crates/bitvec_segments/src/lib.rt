//! Numbers in windows: the bits of a window, cut at the edges of elements, loaded and stored as one
//! number.
#![tactic(auto)]

mod cutting;
mod joining;
mod loading;
mod part;
mod storing;

pub use joining::with_next;
pub use loading::load;
pub use storing::store;
