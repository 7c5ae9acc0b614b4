//! What a caller knows of the bits that a predicate kept, and of memory for more.
ghost use Rattle.std.specs.Prelude.{◌≡◌, ◌+◌, ◌%◌, ◌≤◌, ◌==◌, OnOk, filter};
ghost use Rattle.bitvec.specs.KeptBy.{kept_by};
ghost use Rattle.bitvec.specs.Owned.{bit_capacity, owned};

use bitvec::prelude::*;
use std::alloc::{AllocError, Global};

/// Drops the zeros.
pub fn keep_ones<T: BitStore, O: BitOrder>(bits: &mut BitVec<T, O, Global>)
    ensures { (owned bits.new).bits ≡ filter (λ bit. bit) (owned bits.old).bits }
{
    bits.retain(|_, bit| *bit);
}

/// Drops the bits at odd indices.
pub fn keep_even<T: BitStore, O: BitOrder>(bits: &mut BitVec<T, O, Global>)
    ensures { (owned bits.new).bits ≡ kept_by (λ index bit. index % 2 == 0) 0 (owned bits.old).bits }
{
    bits.retain(|index, _| index % 2 == 0);
}

/// Makes memory for as many bits again.
pub fn make_room<T: BitStore, O: BitOrder>(
    bits: &mut BitVec<T, O, Global>,
) -> Result<(), AllocError>
    ensures same { owned bits.new ≡ owned bits.old }
    ensures room { OnOk result ((owned bits.new).window.len + (owned bits.new).window.len ≤ bit_capacity bits.new) }
{
    let more = bits.len();
    bits.reserve(more)
}

#[test]
fn some_bits_are_kept(rt: HostRuntime) {
    let bools = [true, false, true, true, false];
    if let Ok(mut bits) = BitVec::<u8, Lsb0, Global>::from_bools(rt.alloc(), &bools) {
        keep_even(&mut bits);
        keep_ones(&mut bits);
        let room = make_room(&mut bits).is_ok();
        assert!(rt; room && bits.as_raw_slice() == [3].as_slice() && bits.capacity() >= 4);
    }
}
