//! Parts of one element.
ghost use Rattle.std.specs.Prelude.{◌≡◌, ◌≤◌, bit_and, false, replicate};
ghost use Rattle.bitvec_base.specs.Memory.{element_bits};
ghost use Rattle.bitvec_base.specs.Order.{mask_of};
ghost use Rattle.bitvec_base.specs.Window.{write_at};

use bitvec_base::BitOrder;
use bitvec_store::BitStore;
use std::marker::PhantomData;

/// Bits of one element that is borrowed for reading: `bitvec`'s `PartialElement` over a shared
/// element.
#[derive(Drop)]
pub struct PartialElement<'a, T: BitStore, O: BitOrder> {
    element: &'a T,
    head: usize,
    tail: usize,
    mask: T,
    order: PhantomData<O>,
    ghost ordered: { head ≤ tail },
    ghost inside: { tail ≤ T.BITS },
    ghost masked: { T.value mask ≡ mask_of (O.at T.BITS) head tail },
}

impl<'a, T: BitStore, O: BitOrder> PartialElement<'a, T, O> {
    ghost use Rattle.bitvec_domain.specs.Parts.{partial_at, seen_part};

    /// The bits of an element from index `head` up to, without, `tail`.
    pub(crate) fn new(element: &'a T, head: usize, tail: usize) -> Self
        requires order { head ≤ tail }
        requires bound { tail ≤ T.BITS }
        ensures { seen_part result ≡ partial_at T.BITS O.at (T.value element.now) head tail }
    {
        PartialElement {
            element,
            head,
            tail,
            mask: O::mask::<T>(head, tail),
            order: PhantomData,
        }
    }

    /// The element with the bits outside the part 0.
    pub fn load_value(&self) -> T
        ensures value { T.value result
            ≡ bit_and (seen_part self.now).number (mask_of (O.at T.BITS) (seen_part self.now).head (seen_part self.now).tail) }
        ensures bits { element_bits T.BITS O.at (T.value result)
            ≡ write_at (replicate T.BITS false) (seen_part self.now).head (seen_part self.now).bits }
    {
        self.element.and(self.mask)
    }

    /// The index in the element of the part's first bit.
    pub fn head(&self) -> usize
        ensures { result ≡ (seen_part self.now).head }
    {
        self.head
    }

    /// The index in the element past the part's last bit.
    pub fn tail(&self) -> usize
        ensures { result ≡ (seen_part self.now).tail }
    {
        self.tail
    }

    /// The element whose bits are 1 exactly in the part.
    pub fn mask(&self) -> T
        ensures { T.value result
            ≡ mask_of (O.at T.BITS) (seen_part self.now).head (seen_part self.now).tail }
    {
        self.mask
    }
}
