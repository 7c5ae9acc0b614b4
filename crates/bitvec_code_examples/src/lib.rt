//! Callers of `bitvec` as codecs, maps and containers need it: bytes by their bits, numbers of ranges side by side, what was found
//! in place, the front of an array, cursors, headers, prefix codes, flags, sets of numbers, and types of one's own that edit and
//! are asked.
#![tactic(auto)]

#[cfg(test)]
mod bytes;
#[cfg(test)]
mod cursors;
#[cfg(test)]
mod ends;
#[cfg(test)]
mod flags;
#[cfg(test)]
mod found;
#[cfg(test)]
mod fronts;
#[cfg(test)]
mod headers;
#[cfg(test)]
mod long_rows;
#[cfg(test)]
mod number_sides;
#[cfg(test)]
mod numbers_in_views;
#[cfg(test)]
mod optional;
#[cfg(test)]
mod own_edits;
#[cfg(test)]
mod own_views;
#[cfg(test)]
mod prefix_codes;
#[cfg(test)]
mod segments;
#[cfg(test)]
mod sets;
