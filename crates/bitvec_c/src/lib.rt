//! The operations of `bitvec_checked` as C functions, a file an element type: `fb_u8_fill` and its kin.
//! `of_u8.rt` is the source; `.ci/exports` writes the other three.
//!
//! A slice is handed over as a pointer and a number of elements. Condition of all: these are there,
//! aligned, and used by nobody else meanwhile. Each other argument is tested; the contract of each
//! function says which status it answers, and what it does.
#![tactic(auto)]

mod of_u16;
mod of_u32;
mod of_u64;
mod of_u8;
mod ones;
