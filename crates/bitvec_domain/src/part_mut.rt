//! Parts of one element that is borrowed for writing.
ghost use Rattle.std.specs.Prelude.{◌≡◌, ◌≤◌, bit_and, false, map, not, replicate, slice_range};
ghost use Rattle.bitvec_base.specs.Memory.{element_bits};
ghost use Rattle.bitvec_base.specs.Order.{mask_of};
ghost use Rattle.bitvec_base.specs.Window.{write_at};

use bitvec_base::BitOrder;
use bitvec_store::BitStore;
use std::marker::PhantomData;

/// Bits of one element that is borrowed for writing: `bitvec`'s `PartialElement` over an
/// exclusive element.
#[derive(Drop)]
pub struct PartialElementMut<'a, T: BitStore, O: BitOrder> {
    element: &'a mut T,
    head: usize,
    tail: usize,
    mask: T,
    order: PhantomData<O>,
    ghost ordered: { head ≤ tail },
    ghost inside: { tail ≤ T.BITS },
    ghost masked: { T.value mask ≡ mask_of (O.at T.BITS) head tail },
}

impl<'a, T: BitStore, O: BitOrder> PartialElementMut<'a, T, O> {
    ghost use Rattle.bitvec_domain.specs.Parts.{WritesPart, name_of_part, partial_at, seen_part_mut};

    /// The bits of an element from index `head` up to, without, `tail`.
    pub(crate) fn new(element: &'a mut T, head: usize, tail: usize) -> Self
        requires order { head ≤ tail }
        requires bound { tail ≤ T.BITS }
        ensures part { seen_part_mut result ≡ partial_at T.BITS O.at (T.value element.old) head tail }
        ensures name { name_of_part result ≡ element.entry.ghost_name }
    {
        PartialElementMut {
            element,
            head,
            tail,
            mask: O::mask::<T>(head, tail),
            order: PhantomData,
        }
    }

    /// The element with the bits outside the part 0.
    pub fn load_value(&self) -> T
        ensures value { T.value result
            ≡ bit_and (seen_part_mut self.now).number (mask_of (O.at T.BITS) (seen_part_mut self.now).head (seen_part_mut self.now).tail) }
        ensures bits { element_bits T.BITS O.at (T.value result)
            ≡ write_at (replicate T.BITS false) (seen_part_mut self.now).head (seen_part_mut self.now).bits }
    {
        self.element.and(self.mask)
    }

    /// Gives the part the bits that `value` has at its indices; all other bits of the element stay,
    /// and all others of `value` are ignored.
    pub fn store_value(&mut self, value: T)
        ensures { WritesPart self.old self.new
            (slice_range (element_bits T.BITS O.at (T.value value)) (seen_part_mut self.old).head (seen_part_mut self.old).tail) }
    {
        let outside = self.element.and(self.mask.not());
        *self.element = outside.or(value.and(self.mask));
    }

    /// Flips each bit of the part; all other bits of the element stay.
    pub fn invert(&mut self)
        ensures { WritesPart self.old self.new (map not (seen_part_mut self.old).bits) }
    {
        *self.element = self.element.xor(self.mask);
    }

    /// The index in the element of the part's first bit.
    pub fn head(&self) -> usize
        ensures { result ≡ (seen_part_mut self.now).head }
    {
        self.head
    }

    /// The index in the element past the part's last bit.
    pub fn tail(&self) -> usize
        ensures { result ≡ (seen_part_mut self.now).tail }
    {
        self.tail
    }

    /// The element whose bits are 1 exactly in the part.
    pub fn mask(&self) -> T
        ensures { T.value result
            ≡ mask_of (O.at T.BITS) (seen_part_mut self.now).head (seen_part_mut self.now).tail }
    {
        self.mask
    }
}
