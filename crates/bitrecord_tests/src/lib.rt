//! Packed records: published ones and small ones, each refusal, memory that is refused, and what callers know of a record.
#![tactic(auto)]

#[cfg(test)]
mod coding;
#[cfg(test)]
mod headers;
#[cfg(test)]
mod laws;
#[cfg(test)]
mod memory;
#[cfg(test)]
mod records;
