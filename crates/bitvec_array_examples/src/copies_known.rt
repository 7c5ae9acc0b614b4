//! What a caller knows of copies of a view, of repeats, and of a view that a sequence lends.
ghost use Rattle.std.specs.Prelude.{◌≡◌, IfOk, map, not};
ghost use Rattle.std.specs.List.{repeat};
ghost use Rattle.bitvec.specs.Copies.{Holds, copy_start};
ghost use Rattle.bitvec.specs.Counts.{ones_of};
ghost use Rattle.bitvec.specs.Owned.{owned};
ghost use Rattle.bitvec.specs.Views.{seen};

use bitvec::prelude::*;
use std::alloc::{AllocError, Global};

/// A copy of the bits, each of them flipped.
pub fn flipped<T: BitStore, O: SliceOrder>(
    alloc: Global,
    view: BitSlice<'_, T, O>,
) -> Result<BitVec<T, O, Global>, AllocError>
    ensures { IfOk result (λ copy. Holds T.BITS (map not (seen view.entry).bits)
        (copy_start T.BITS (seen view.entry).window) (owned copy)) }
{
    let mut copy = view.to_bitvec(alloc)?;
    copy.invert();
    Ok(copy)
}

/// The bits twice, in memory of their own.
pub fn twice<T: BitStore, O: SliceOrder>(
    alloc: Global,
    view: BitSlice<'_, T, O>,
) -> Result<BitVec<T, O, Global>, RepeatError>
    ensures { IfOk result (λ copy. Holds T.BITS (repeat 2 (seen view.entry).bits) 0 (owned copy)) }
{
    view.repeat(alloc, 2)
}

/// Flips a sequence's bits through a view of them, and gives how many were 1: of the sequence it is known that
/// it has as many bits as before.
pub fn flip_lent<T: BitStore, O: SliceOrder>(bits: &mut BitVec<T, O, Global>) -> usize
    ensures ones { result ≡ ones_of (owned bits.old).bits }
    ensures window { (owned bits.new).window ≡ (owned bits.old).window }
{
    let mut view = bits.as_mut_bitslice();
    let ones = view.count_ones();
    view.invert();
    ones
}
