//! One bit of a shared view.
ghost use Rattle.std.specs.Prelude.{◌≡◌, ⊤};

use bitvec_base::BitOrder;
use bitvec_store::BitStore;
use std::alloc::AllocError;
use std::marker::PhantomData;
use std::ops::Deref;

/// One bit of a view, read by `*`: it stands for `bitvec`'s `BitRef<'a, Const, T, O>`.
pub struct BitRef<'a, T: BitStore, O: BitOrder> {
    bit: &'a bool,
    mark: PhantomData<(T, O)>,
}

impl<'a, T: BitStore, O: BitOrder> Copy for BitRef<'a, T, O> {}

impl<'a, T: BitStore, O: BitOrder> Clone for BitRef<'a, T, O> {
    ghost is_clone = { λ x y. y ≡ x };

    ghost is_infallible = { λ _. ⊤ };

    fn clone(&self) -> Result<Self, AllocError> {
        Ok(*self)
    }
}

impl<'a, T: BitStore, O: BitOrder> BitRef<'a, T, O> {
    ghost use Rattle.bitvec_domain.specs.References.{bit_of_ref};

    /// A reference to a bit of this value. `bitvec` has no such call; views make their references
    /// by it.
    #[doc(hidden)]
    pub fn new(bit: bool) -> Self
        ensures { bit_of_ref result ≡ bit }
    {
        BitRef {
            bit: if bit { &true } else { &false },
            mark: PhantomData,
        }
    }
}

impl<'a, T: BitStore, O: BitOrder> Deref for BitRef<'a, T, O> {
    ghost use Rattle.bitvec_domain.specs.References.{bit_of_ref};

    type Target = bool;

    ghost deref_gives = { λ r bit. bit ≡ bit_of_ref r };

    /// The bit.
    fn deref(&self) -> &bool {
        self.bit
    }
}
