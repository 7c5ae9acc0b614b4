//! What a view is indexed by.
ghost use Rattle.std.specs.Prelude.{◌≡◌, ℕ, ◌<◌, ◌↔◌, IsTrue};

use crate::{BitSlice, BitSliceMut};
use bitvec_base::BitOrder;
use bitvec_domain::{BitRef, BitRefMut};
use bitvec_store::BitStore;

/// A shared view, as [`BitSliceIndex`] needs it.
#[doc(hidden)]
pub trait Viewed: Drop {
    ghost use Rattle.bitvec_slice.specs.Seen.{Seen};

    /// Its elements.
    type Element;

    /// The writable view of the same bits.
    type Writable: ViewedMut;

    // What contracts see of it.
    ghost sees: { Self → Seen Self.Element };

    /// How many bits there are.
    fn bit_len(&self) -> usize
        ensures { result ≡ (sees self.now).window.len };
}

/// A writable view, as [`BitSliceIndex`] needs it.
#[doc(hidden)]
pub trait ViewedMut: Drop {
    ghost use Rattle.bitvec_slice.specs.Seen.{Seen};

    /// Its elements.
    type Element;

    // What contracts see of it.
    ghost sees: { Self → Seen Self.Element };

    /// How many bits there are.
    fn bit_len(&self) -> usize
        ensures { result ≡ (sees self.now).window.len };
}

/// An index of a view, or a range of its indices, in bits: it stands for `bitvec`'s
/// `BitSliceIndex<'a, T, O>`, at the view `BitSlice<'a, T, O>`.
///
/// That a view has the index is the condition of the calls that give no `Option`.
pub trait BitSliceIndex<V: Viewed>: Sized + Drop {
    ghost use Rattle.bitvec_slice.specs.Seen.{IsGiven, Seen};

    /// What is read at the index.
    type Immut;

    /// What is written at the index.
    type Mut;

    // Holds where a view of so many bits has the index.
    ghost fits: { Self → ℕ → Type 0 };

    // Holds of the index, a view and what stands there.
    ghost gives: { Self → Seen V.Element → Self.Immut → Type 0 };

    // What a writable part shows.
    ghost gives_mut: { Self → Seen V.Writable.Element → Self.Mut → Type 0 };

    /// Whether a view of so many bits has the index. `bitvec` has no such call.
    fn fits(&self, len: usize) -> bool
        ensures { IsTrue result ↔ fits self.now len };

    /// What stands at the index. Condition: the view has it.
    fn index(self, bits: V) -> Self::Immut
        requires { fits self (V.sees bits).window.len }
        ensures { gives self (V.sees bits) result };

    /// What stands at the index, for writing. Condition: the view has it.
    fn index_mut(self, bits: V::Writable) -> Self::Mut
        requires { fits self (V.Writable.sees bits).window.len }
        ensures { gives_mut self (V.Writable.sees bits) result };

    /// What stands at the index: `None` exactly where the view does not have it.
    final fn get(self, bits: V) -> Option<Self::Immut>
        ensures { IsGiven (fits self (V.sees bits).window.len) (gives self (V.sees bits)) result }
    {
        if self.fits(bits.bit_len()) {
            Some(self.index(bits))
        } else {
            None
        }
    }

    /// What stands at the index, for writing: `None` exactly where the view does not have it.
    final fn get_mut(self, bits: V::Writable) -> Option<Self::Mut>
        ensures { IsGiven (fits self (V.Writable.sees bits).window.len) (gives_mut self (V.Writable.sees bits)) result }
    {
        if self.fits(bits.bit_len()) {
            Some(self.index_mut(bits))
        } else {
            None
        }
    }

    /// What stands at the index. Condition: the view has it.
    final fn get_unchecked(self, bits: V) -> Self::Immut
        requires { fits self (V.sees bits).window.len }
        ensures { gives self (V.sees bits) result }
    {
        self.index(bits)
    }

    /// What stands at the index, for writing. Condition: the view has it.
    final fn get_unchecked_mut(self, bits: V::Writable) -> Self::Mut
        requires { fits self (V.Writable.sees bits).window.len }
        ensures { gives_mut self (V.Writable.sees bits) result }
    {
        self.index_mut(bits)
    }
}

impl<'a, T: BitStore, O: BitOrder> Viewed for BitSlice<'a, T, O> {
    ghost use Rattle.bitvec_slice.specs.Views.{seen};

    type Element = T;

    type Writable = BitSliceMut<'a, T, O>;

    ghost sees = { seen };

    fn bit_len(&self) -> usize {
        self.len()
    }
}

impl<'a, T: BitStore, O: BitOrder> ViewedMut for BitSliceMut<'a, T, O> {
    ghost use Rattle.bitvec_slice.specs.Views.{seen_mut};

    type Element = T;

    ghost sees = { seen_mut };

    fn bit_len(&self) -> usize {
        self.len()
    }
}

impl<'a, T: BitStore + 'a, O: BitOrder> BitSliceIndex<BitSlice<'a, T, O>> for usize {
    ghost use Rattle.bitvec_slice.specs.Indices.{IsBitOf, WritesBitOf};

    type Immut = BitRef<'a, T, O>;

    type Mut = BitRefMut<'a, T, O>;

    ghost fits = { λ index len. index < len };

    ghost gives = { λ index view bit. IsBitOf view index bit };

    ghost gives_mut = { λ index view bit. WritesBitOf view index bit };

    fn fits(&self, len: usize) -> bool {
        *self < len
    }

    fn index(self, bits: BitSlice<'a, T, O>) -> BitRef<'a, T, O> {
        bits.into_bit(self)
    }

    fn index_mut(self, bits: BitSliceMut<'a, T, O>) -> BitRefMut<'a, T, O> {
        bits.into_bit(self)
    }
}
