//! All bits of a slice, filled through a view, and those of a copy's elements.
ghost use Rattle.std.specs.Prelude.{◌≡◌, ◌*◌, ◌≤◌, length, map, replicate};
ghost use Rattle.bitvec.specs.Memory.{memory_bits};
ghost use Rattle.bitvec.specs.Owned.{owned};
ghost use Rattle.bitvec.specs.Window.{max_bits};

use bitvec::prelude::*;
use std::alloc::{AllocError, Global};

/// Fills all bits of the elements, and gives them back.
fn filled<T: BitStore, O: SliceOrder>(elements: &mut [T], bit: bool) -> &mut [T]
    requires { T.BITS * length elements.old ≤ max_bits }
    ensures bits { memory_bits T.BITS O.at (map T.value result.now) ≡ replicate (T.BITS * length elements.old) bit }
    ensures name { result.ghost_name ≡ elements.entry.ghost_name }
{
    let mut view = BitSliceMut::<T, O>::from_slice_mut(elements);
    view.fill(bit);
    view.into_slice()
}

/// Fills all bits of the elements.
pub fn fill_all<T: BitStore, O: SliceOrder>(elements: &mut [T], bit: bool)
    requires { T.BITS * length elements.old ≤ max_bits }
    ensures { memory_bits T.BITS O.at (map T.value elements.new) ≡ replicate (T.BITS * length elements.old) bit }
{
    let _elements = filled::<T, O>(elements, bit);
}

/// Fills all bits of a sequence's elements, by a function over a slice: what it leaves in the slice is what the
/// sequence has.
pub fn fill_elements<T: BitStore, O: SliceOrder>(bits: &mut BitVec<T, O, Global>, bit: bool)
    ensures bits { memory_bits T.BITS O.at (map T.value (owned bits.new).elements)
        ≡ replicate (T.BITS * length (owned bits.old).elements) bit }
    ensures window { (owned bits.new).window ≡ (owned bits.old).window }
{
    fill_all::<T, O>(bits.as_raw_mut_slice(), bit);
}

/// Whether a copy was made, and has that byte once its elements are filled.
fn fills(copy: Result<BitVec<u8, Lsb0, Global>, AllocError>, byte: u8) -> bool {
    match copy {
        Ok(mut copy) => {
            fill_elements(&mut copy, true);
            copy.as_raw_slice() == [byte].as_slice()
        }
        Err(_) => false,
    }
}

#[test]
fn a_copy_is_filled(rt: HostRuntime) {
    let view = BitSlice::<u8, Lsb0>::from_slice(&[0x31]);
    assert!(rt; fills(view.to_bitvec(rt.alloc()), 0xFF));
}
