//! A writable view's two halves, of which one is lent at a time.
ghost use Rattle.std.specs.Prelude.{◌≡◌, ◌+◌, ◌*◌, ◌≤◌, length, slice_range};
ghost use Rattle.bitvec_base.specs.Window.{max_bits};

use bitvec_base::{BitOrder, Window};
use bitvec_slice::{BitSliceMut, Sealed, ViewMut, touched_part};
use bitvec_store::BitStore;
use std::marker::PhantomData;

/// A writable view's bits, cut in two: it stands for the pair that `bitvec`'s `split_at_mut` gives,
/// and lends one half at a time.
///
/// A half is a view of the elements that it touches. An element that both halves touch is lent with
/// either, and no call on a half writes a bit of the other. Once a half was written in place, the elements
/// that it doesn't touch are known. `edit_halves` of `bitvec_closures`, which gives each half to a closure,
/// tells each bit.
#[derive(Drop)]
pub struct HalvesMut<'a, T: BitStore, O: BitOrder> {
    pub(crate) elements: &'a mut [T],
    pub(crate) head: usize,
    pub(crate) mid: usize,
    pub(crate) len: usize,
    mark: PhantomData<(O, &'a mut T)>,
    ghost inside: { head + len ≤ T.BITS * length elements.now },
    ghost bounded: { T.BITS * length elements.now ≤ max_bits },
    ghost order: { mid ≤ len },
}

impl<'a, T: BitStore, O: BitOrder> HalvesMut<'a, T, O> {
    ghost use Rattle.std.specs.Borrow.{sem};
    ghost use Rattle.bitvec_slice.specs.Lending.{lends};
    ghost use Rattle.bitvec_slice.specs.Seen.{IsRangeOf};
    ghost use Rattle.bitvec_slice.specs.Views.{name_of, seen_mut};
    ghost use Rattle.bitvec_iter.specs.HalvesLending.{lends_bits, lends_part};
    ghost use Rattle.bitvec_iter.specs.Halves.{IsCutOf, mid_of, name_of_halves, seen_halves};

    /// The halves of a view, which meet at the index `mid`. Condition: `mid` is at most `len`. `bitvec`
    /// has no such call: `split_at_mut` is made of it.
    #[doc(hidden)]
    pub fn new<'s>(bits: &'s mut BitSliceMut<'a, T, O>, mid: usize) -> HalvesMut<'s, T, O>
        requires { mid ≤ (seen_mut bits.old).window.len }
        ensures* writes_back { sem 𝓛 (lends T.row O.row bits.entry (name_of_halves result)) }
        ensures halves { IsCutOf (seen_mut bits.old) mid result }
    {
        let window = bits.window();
        HalvesMut {
            elements: bits.elements_mut(Sealed),
            head: window.start,
            mid,
            len: window.len,
            mark: PhantomData,
        }
    }

    /// How many bits both halves have.
    pub fn len(&self) -> usize
        ensures { result ≡ (seen_halves self.now).window.len }
    {
        self.len
    }

    /// The index at which the halves meet: how many bits the left one has.
    pub fn mid(&self) -> usize
        ensures { result ≡ mid_of self.now }
    {
        self.mid
    }

    /// The bits before the cut.
    pub fn left_mut(&mut self) -> BitSliceMut<'_, T, O>
        ensures* writes_back { sem 𝓛 (lends_bits T.row O.row self.entry 0 (mid_of self.old) (name_of result)) }
        ensures part { IsRangeOf T.BITS (seen_halves self.old) 0 (mid_of self.old) (seen_mut result) }
    {
        let mid = self.mid;
        self.part_mut(0, mid)
    }

    /// The bits behind the cut.
    pub fn right_mut(&mut self) -> BitSliceMut<'_, T, O>
        ensures* writes_back { sem 𝓛 (lends_bits T.row O.row self.entry (mid_of self.old) (seen_halves self.old).window.len (name_of result)) }
        ensures part { IsRangeOf T.BITS (seen_halves self.old) (mid_of self.old) (seen_halves self.old).window.len (seen_mut result) }
    {
        let mid = self.mid;
        let len = self.len;
        self.part_mut(mid, len)
    }

    fn part_mut(&mut self, from: usize, to: usize) -> BitSliceMut<'_, T, O>
        requires order { from ≤ to }
        requires bound { to ≤ (seen_halves self.old).window.len }
        ensures* writes_back { sem 𝓛 (lends_bits T.row O.row self.entry from to (name_of result)) }
        ensures part { IsRangeOf T.BITS (seen_halves self.old) from to (seen_mut result) }
    {
        let window = Window {
            start: self.head,
            len: self.len,
        };
        let part = touched_part::<T>(self.elements.len(), window, from, to);
        let elements = self.elements_part_mut(part.first, part.end);
        BitSliceMut::from_parts(elements, part.head, part.len)
    }

    fn elements_part_mut(&mut self, start: usize, end: usize) -> &mut [T]
        requires order { start ≤ end }
        requires bound { end ≤ length (seen_halves self.old).elements }
        ensures* writes_back { sem 𝓛 (lends_part T.row O.row self.entry start end result.ghost_name) }
        ensures elements { result.now ≡ slice_range (seen_halves self.old).elements start end }
    {
        &mut self.elements[start..end]
    }
}
