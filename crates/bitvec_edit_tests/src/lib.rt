//! Edits of views, by calls, by closures and of the numbers in them, and sequences, arrays and copies of bits: callers,
//! what the user's elements are afterwards, and what no clause says. The calls of `limits` just keep their conditions.
#![tactic(auto)]

#[cfg(test)]
mod arrays;
#[cfg(test)]
mod copies;
#[cfg(test)]
mod digits;
#[cfg(test)]
mod edits;
#[cfg(test)]
mod growing;
#[cfg(test)]
mod growth_refused;
#[cfg(test)]
mod numbers;
#[cfg(test)]
mod old_names;
#[cfg(test)]
mod owned;
#[cfg(test)]
mod refusals;
#[cfg(test)]
mod repeats;
#[cfg(test)]
mod transfers;
