//! Bits that go from one element type and order to another.
ghost use Rattle.std.specs.Prelude.{◌≡◌, ◌*◌, ◌≤◌, length};
ghost use Rattle.bitvec.specs.Arrays.{lsb0_bits, msb0_bits};
ghost use Rattle.bitvec.specs.Operators.{xor_of};
ghost use Rattle.bitvec.specs.Views.{seen, seen_mut};
ghost use Rattle.bitvec.specs.Window.{max_bits};

use bitvec::prelude::*;

/// The words with the bits of four bytes each, the highest bit of each byte first.
fn copied<'a>(words: &'a mut [u32], bytes: &[u8]) -> &'a mut [u32]
    requires fits { 32 * length words.old ≤ max_bits }
    requires lengths { length bytes.now ≡ 4 * length words.old }
    ensures bits { lsb0_bits 32 result.now ≡ msb0_bits 8 bytes.now }
    ensures name { result.ghost_name ≡ words.entry.ghost_name }
{
    let mut view = BitSliceMut::<u32, Lsb0>::from_slice_mut(words);
    view.clone_from_bitslice(BitSlice::<u8, Msb0>::from_slice(bytes));
    view.into_slice()
}

/// Makes the bits of the words those of the bytes. Condition: four bytes a word.
pub fn copy_bytes(words: &mut [u32], bytes: &[u8])
    requires fits { 32 * length words.old ≤ max_bits }
    requires lengths { length bytes.now ≡ 4 * length words.old }
    ensures { lsb0_bits 32 words.new ≡ msb0_bits 8 bytes.now }
{
    let _words = copied(words, bytes);
}

/// Flips each bit where the mask's, of any element type and order, is 1.
pub fn toggle<T: BitStore, O: SliceOrder, U: BitStore, P: BitOrder>(
    view: &mut BitSliceMut<'_, T, O>,
    mask: BitSlice<'_, U, P>,
)
    ensures { (seen_mut view.new).bits ≡ xor_of (seen_mut view.old).bits (seen mask.entry).bits }
{
    view.xor_bits(mask);
}
