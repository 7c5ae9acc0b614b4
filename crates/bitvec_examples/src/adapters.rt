//! Walks over bits with the adapters of std.
ghost use Rattle.std.specs.Prelude.{◌≡◌, ◌+◌, ◌-◌, ◌%◌, ◌<◌, ◌==◌, ◌≤◌, IfOk, IfSome, count_by, false, min, reverse, slice_range};
ghost use Rattle.std.specs.List.{list_any};
ghost use Rattle.bitvec.specs.Views.{seen};

use bitvec::index::Window;
use bitvec::prelude::*;
use std::alloc::{AllocError, Global};

/// Whether an odd number of bits is 1.
pub fn parity<T: BitStore, O: BitOrder>(bits: BitSlice<'_, T, O>) -> bool
    ensures { result ≡ (count_by (λ bit. bit) (seen bits.entry).bits % 2 == 1) }
{
    bits.iter().by_vals().filter(|bit| *bit).count() % 2 == 1
}

/// The bits, the last first.
pub fn backwards<T: BitStore, O: BitOrder>(
    alloc: Global,
    bits: BitSlice<'_, T, O>,
) -> Result<Vec<bool>, AllocError>
    ensures { IfOk result (λ bools. bools.items ≡ reverse (seen bits.entry).bits) }
{
    bits.iter().by_vals().rev().collect(alloc)
}

/// The place of the bits behind one that has so many before it.
pub fn window_behind<T: BitStore, O: BitOrder>(bits: BitSlice<'_, T, O>, skipped: usize) -> Window
    ensures start { result.start ≡ ((seen bits.entry).window.start + min (skipped + 1) (seen bits.entry).window.len) % T.BITS }
    ensures len { result.len ≡ (seen bits.entry).window.len - (skipped + 1) }
{
    let mut walk = bits.iter();
    let _bit = walk.nth(skipped);
    walk.as_bitslice().window()
}

/// At how many places a bit differs from the next.
pub fn mixed_pairs<T: BitStore, O: SliceOrder>(bits: BitSlice<'_, T, O>) -> usize {
    bits.windows(2).filter(|pair| pair.some()).count()
}

/// Where the first so many bits in a row begin that are all 0. Condition: they are some.
#[tactic(auto, using(bitvec::specs::Laws::walked))]
pub fn first_window<T: BitStore, O: SliceOrder>(
    bits: BitSlice<'_, T, O>,
    size: usize,
) -> Option<usize>
    requires { 0 < size }
    ensures inside { IfSome result (λ start. start + size ≤ (seen bits.entry).window.len) }
    ensures zeros { IfSome result (λ start. list_any (λ bit. bit) (slice_range (seen bits.entry).bits start (start + size)) ≡ false) }
{
    bits.windows(size).position(|piece| piece.not_any())
}

/// How many bits are 1, added up over chunks.
#[tactic(auto, using(bitvec::specs::Laws::joining))]
pub fn ones_by_chunks<T: BitStore, O: SliceOrder>(bits: BitSlice<'_, T, O>, size: usize) -> usize
    requires { 0 < size }
    ensures { result ≡ count_by (λ bit. bit) (seen bits.entry).bits }
{
    let mut ones = 0;
    for piece in bits.chunks(size) {
        ones += piece.count_ones();
    }
    ones
}

/// How many bits are 1, by a loop over the view.
fn ones_by_loop(bits: BitSlice<'_, u8, Msb0>) -> usize {
    let mut ones = 0usize;
    for bit in bits {
        if *bit {
            ones = ones.wrapping_add(1);
        }
    }
    ones
}

/// Whether the bits are these from the last on, where their list was made.
fn is_backwards(alloc: Global, bits: BitSlice<'_, u8, Msb0>, wanted: &[bool]) -> bool {
    match backwards(alloc, bits) {
        Ok(list) => list.as_slice() == wanted,
        Err(_) => false,
    }
}

#[test]
fn callers_walk_over_bits(rt: HostRuntime) {
    let view = BitSlice::<u8, Msb0>::from_slice(&[0x17]);
    let ones = [
        ones_by_loop(view),
        ones_by_chunks(view, 3),
        mixed_pairs(view),
    ];
    assert!(rt; (ones, parity(view)) == ([4, 4, 3], false));
    assert!(rt; first_window(view, 3) == Some(0) && first_window(view, 4) == None);
    let behind = window_behind(view.into_part(2..8), 3);
    assert!(rt; [behind.start, behind.len] == [6, 2]);
    assert!(rt;
        is_backwards(
            rt.alloc(),
            view.into_part(0..4),
            &[true, false, false, false]
        )
    );
}
