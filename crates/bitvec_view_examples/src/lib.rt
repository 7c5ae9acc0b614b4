//! Callers of `bitvec` with whole views: what they know of edits, of answers and of comparisons, and an order of their own.
#![tactic(auto)]

#[cfg(test)]
mod answers;
#[cfg(test)]
mod domains_known;
#[cfg(test)]
mod edit_laws;
#[cfg(test)]
mod edits_composed;
#[cfg(test)]
mod edits_within;
#[cfg(test)]
mod first_runs;
#[cfg(test)]
mod needles_known;
#[cfg(test)]
mod ordered;
#[cfg(test)]
mod own_order;
#[cfg(test)]
mod transfers;
