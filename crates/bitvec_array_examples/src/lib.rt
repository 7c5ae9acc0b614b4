//! Callers of `bitvec` with arrays, copies and runs, and what they know: the functions of docs/GUIDE.md, and blocks of the
//! pages in docs/.
#![tactic(auto)]

#[cfg(test)]
mod arrays;
#[cfg(test)]
mod bit_arrays;
#[cfg(test)]
mod copies_known;
#[cfg(test)]
mod device;
#[cfg(test)]
mod filled;
#[cfg(test)]
mod guide;
#[cfg(test)]
mod in_place_calls;
#[cfg(test)]
mod numbers_known;
#[cfg(test)]
mod owned_composed;
#[cfg(test)]
mod ranges_known;
#[cfg(test)]
mod reserved;
#[cfg(test)]
mod retained;
#[cfg(test)]
mod run_halves;
#[cfg(test)]
mod single_edits;
#[cfg(test)]
mod slots;
#[cfg(test)]
mod word_runs;
