//! What a caller knows of views that are compared: their order is total and agrees with equality, and equal ones feed a
//! hasher the same.
ghost use Rattle.std.specs.Prelude.{◌≡◌, ◌↔◌, IsTrue, fold};
ghost use Rattle.std.specs.Cmp.Lexicographic.{slice_cmp};
ghost use Rattle.std.specs.Hash.DefaultHasher as sip;
ghost use Rattle.std.specs.Ordering.{bool_cmp, ordering_reverse};
ghost use Rattle.std.proofs.Common.{Less};
ghost use Rattle.bitvec.specs.Feeding.{bits_fed};
ghost use Rattle.bitvec.specs.Views.{seen};

use bitvec::prelude::*;
use std::cmp::Ordering;
use std::hash::{DefaultHasher, Hash, Hasher};

/// Whether a view is greater than one and less than another: then the one is less than the other.
#[tactic(auto, using(bitvec::specs::Laws::ordered))]
pub fn lies_between<T: BitStore, O: SliceOrder>(
    view: BitSlice<'_, T, O>,
    low: BitSlice<'_, T, O>,
    high: BitSlice<'_, T, O>,
) -> bool
    ensures { IsTrue result → slice_cmp bool_cmp (seen low.entry).bits (seen high.entry).bits ≡ Less }
{
    low.cmp(&view).is_lt() && view.cmp(&high).is_lt()
}

/// How two views compare, each with the other: one way is the other reversed.
#[tactic(auto, using(bitvec::specs::Laws::ordered))]
pub fn compared_both_ways<T: BitStore, O: SliceOrder>(
    view: BitSlice<'_, T, O>,
    other: BitSlice<'_, T, O>,
) -> (Ordering, Ordering)
    ensures { result.0 ≡ ordering_reverse result.1 }
{
    (view.cmp(&other), other.cmp(&view))
}

/// Whether two views are equal, and whether neither is less: that is one.
#[tactic(auto, using(bitvec::specs::Laws::ordered))]
pub fn equal_and_neither_less<T: BitStore, O: SliceOrder>(
    view: BitSlice<'_, T, O>,
    other: BitSlice<'_, T, O>,
) -> (bool, bool)
    ensures { IsTrue result.0 ↔ IsTrue result.1 }
{
    (view == other, view.cmp(&other).is_eq())
}

/// The hash of a view: that of its bits alone.
fn hash_of<T: BitStore, O: SliceOrder>(view: BitSlice<'_, T, O>) -> u64
    ensures { result ≡ sip.finish (fold sip.write sip.initial (bits_fed (seen view.entry).bits)) }
{
    let mut state = DefaultHasher::new();
    view.hash(&mut state);
    state.finish()
}

/// Whether two views are equal, and the hash of each: of equal ones it is one.
#[tactic(auto, using(bitvec::specs::Laws::ordered))]
pub fn equal_and_hashed<T: BitStore, O: SliceOrder>(
    view: BitSlice<'_, T, O>,
    other: BitSlice<'_, T, O>,
) -> (bool, u64, u64)
    ensures { IsTrue result.0 → result.1 ≡ result.2 }
{
    (view == other, hash_of(view), hash_of(other))
}

// The bits are 0, 1, 0, 1, 1, 0, 1, 0.
#[test]
fn views_lie_in_order(rt: HostRuntime) {
    let bits = BitSlice::<u8, Lsb0>::from_slice(&[0x5A]);
    let (front, back) = (bits.into_part(0..2), bits.into_part(4..8));
    assert!(rt; lies_between(bits, front, back) && !lies_between(back, front, bits));
    let (middle, last) = (bits.into_part(1..3), bits.into_part(6..8));
    let (is_equal, hash, other) = equal_and_hashed(middle, last);
    assert!(rt; is_equal && hash == other);
}
