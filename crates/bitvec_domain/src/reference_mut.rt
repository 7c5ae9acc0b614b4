//! One bit of a memory that is borrowed for writing.
ghost use Rattle.std.specs.Prelude.{◌≡◌, [], ◌∷◌, false, map, slice_index_or};
ghost use Rattle.bitvec_base.specs.Memory.{HasWindow, Writes, memory_bits};
ghost use Rattle.bitvec_base.specs.Window.{bit_window};

use crate::bits::{bit_in, replace_in, set_in};
use bitvec_base::{BitOrder, Window};
use bitvec_store::BitStore;
use std::marker::PhantomData;
use std::ops::Deref;

/// One bit of a view that is borrowed for writing: it stands for `bitvec`'s
/// `BitRef<'a, Mut, T, O>`. It is read by `*` and written at once.
///
/// Contracts see it as the memory that it borrows, by name and as bits, and as a place there.
#[derive(Drop)]
pub struct BitRefMut<'a, T: BitStore, O: BitOrder> {
    elements: &'a mut [T],
    place: usize,
    mark: PhantomData<O>,
    ghost window: { HasWindow T.BITS (map T.value elements.now) (bit_window place) },
}

impl<'a, T: BitStore, O: BitOrder> BitRefMut<'a, T, O> {
    ghost use Rattle.bitvec_domain.specs.References.{WritesBit, bit_of_ref_mut, elements_left, elements_of_ref_mut, name_of_ref_mut, place_of_ref_mut, window_of_ref_mut};

    /// The bit at a place of the elements' bits. Condition: the place is one of them, and they are at
    /// most `MAX_BITS`. `bitvec` has no such call; views make their references by it.
    #[tactic(auto, unfolding(crate::specs::References::memory_of_ref_mut, crate::specs::References::bit_of_ref_mut))]
    #[doc(hidden)]
    pub fn new(elements: &'a mut [T], place: usize) -> Self
        requires window { HasWindow T.BITS (map T.value elements.old) (bit_window place) }
        ensures bit { bit_of_ref_mut result
            ≡ slice_index_or (memory_bits T.BITS O.at (map T.value elements.old)) place false }
        ensures place { place_of_ref_mut result ≡ place }
        ensures elements { elements_of_ref_mut result ≡ elements.old }
        ensures name { name_of_ref_mut result ≡ elements.entry.ghost_name }
    {
        BitRefMut {
            elements,
            place,
            mark: PhantomData,
        }
    }

    /// Makes the bit `bit`.
    pub fn set(&mut self, bit: bool)
        ensures writes { WritesBit self.old self.new bit }
    {
        let window = self.window();
        set_in::<T, O>(&mut *self.elements, window, 0, bit);
    }

    /// Makes the bit `bit`, and gives the old one.
    pub fn replace(&mut self, bit: bool) -> bool
        ensures value { result ≡ bit_of_ref_mut self.old }
        ensures writes { WritesBit self.old self.new bit }
    {
        let window = self.window();
        replace_in::<T, O>(&mut *self.elements, window, 0, bit)
    }

    /// Makes the bit `bit`, and ends the reference.
    pub fn commit(self, bit: bool)
        ensures writes { Writes T.BITS O.at (map T.value (elements_of_ref_mut self.entry)) (map T.value (elements_left self.exit))
            (window_of_ref_mut self.entry) (bit ∷ []) }
    {
        let BitRefMut {
            elements,
            place,
            mark: _,
        } = self;
        let window = Window {
            start: place,
            len: 1,
        };
        set_in::<T, O>(elements, window, 0, bit);
    }

    fn window(&self) -> Window
        ensures { result ≡ window_of_ref_mut self.now }
    {
        Window {
            start: self.place,
            len: 1,
        }
    }

    fn bit(&self) -> bool
        ensures { result ≡ bit_of_ref_mut self.now }
    {
        bit_in::<T, O>(&*self.elements, self.window(), 0)
    }
}

impl<'a, T: BitStore, O: BitOrder> Deref for BitRefMut<'a, T, O> {
    ghost use Rattle.bitvec_domain.specs.References.{bit_of_ref_mut};

    type Target = bool;

    ghost deref_gives = { λ r bit. bit ≡ bit_of_ref_mut r };

    /// The bit.
    fn deref(&self) -> &bool {
        if self.bit() { &true } else { &false }
    }
}
