//! Callers of `bitvec` with pieces, walks, splits and closures, and with a sequence that grows, and what they know: blocks of
//! the pages in docs/.
#![tactic(auto)]

#[cfg(test)]
mod adapters;
#[cfg(test)]
mod captures;
#[cfg(test)]
mod closures;
#[cfg(test)]
mod closures_known;
#[cfg(test)]
mod first_piece;
#[cfg(test)]
mod lends_known;
#[cfg(test)]
mod lent_known;
#[cfg(test)]
mod marks;
#[cfg(test)]
mod parts_lent;
#[cfg(test)]
mod sequences;
#[cfg(test)]
mod split_edits;
#[cfg(test)]
mod splits_known;
#[cfg(test)]
mod walks_known;
