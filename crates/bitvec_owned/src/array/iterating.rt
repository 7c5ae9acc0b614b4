//! Walks over the bits of arrays of bits.
ghost use Rattle.std.specs.Prelude.{◌≡◌, ◌≤◌, length};
ghost use Rattle.bitvec_base.specs.Window.{max_bits};
ghost use Rattle.bitvec_slice.specs.Walks.{YieldsBits, remaining_bits, walked};
ghost use Rattle.bitvec_owned.specs.Arrays.{in_array};

use crate::BitArray;
use bitvec_base::BitOrder;
use bitvec_domain::BitRef;
use bitvec_slice::Iter;
use bitvec_store::BitStore;

impl<T: BitStore, O: BitOrder, const N: usize> BitArray<T, O, N> {
    /// The bits, one by one.
    pub fn iter(&self) -> Iter<'_, T, O>
        ensures bits { remaining_bits result ≡ (in_array self.now).bits }
        ensures view { walked result ≡ in_array self.now }
        ensures bound { length (remaining_bits result) ≤ max_bits }
        ensures runs { YieldsBits result }
    {
        self.as_bitslice().iter()
    }
}

impl<'a, T: BitStore, O: BitOrder, const N: usize> IntoIterator for &'a BitArray<T, O, N> {
    type Item = BitRef<'a, T, O>;

    type IntoIter = Iter<'a, T, O>;

    ghost into_iter_gives = { λ bits it. (remaining_bits it ≡ (in_array bits.now).bits) × (length (remaining_bits it) ≤ max_bits) × YieldsBits it };

    fn into_iter(self) -> Iter<'a, T, O> {
        self.iter()
    }
}
