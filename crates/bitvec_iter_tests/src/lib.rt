//! Walks over the bits and pieces of views, those that are lent one at a time, and splits by a predicate: callers, and
//! what no clause says.
#![tactic(auto)]

#[cfg(test)]
mod bits;
#[cfg(test)]
mod by_value;
#[cfg(test)]
mod ended;
#[cfg(test)]
mod halves;
#[cfg(test)]
mod lent_bits;
#[cfg(test)]
mod lent_chunks;
#[cfg(test)]
mod lent_next;
#[cfg(test)]
mod lent_splits;
#[cfg(test)]
mod pieces;
#[cfg(test)]
mod shown;
#[cfg(test)]
mod splits;
#[cfg(test)]
mod walked;
