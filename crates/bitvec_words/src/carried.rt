//! Elements as a loop carries them from one pass to the next, to join each with the next one.
ghost use Rattle.std.specs.Prelude.{◌≡◌, ℕ, ◌<◌, ◌++◌, take, drop, ⊤};
ghost use Rattle.bitvec_base.specs.Memory.{element_bits};

use crate::{WordOrder, joined};
use bitvec_store::BitStore;

/// An element that a loop loaded, in the form in which it joins it with the next one.
pub trait Carried<T: BitStore>: Copy + Drop {
    // Holds of the widths of elements that have this form.
    ghost fits: { ℕ → Type 0 };

    // The element's number.
    ghost value: { Self → ℕ };

    /// An element in this form.
    fn of(element: T) -> Self
        requires { fits T.BITS }
        ensures { value result ≡ T.value element };

    /// The element.
    fn element(&self) -> T
        requires { fits T.BITS }
        ensures { T.value result ≡ value self.now };

    /// The element that stands `skip` bits into this one and the next one side by side, as [`crate::joined`] gives
    /// it. Condition: `skip` is above 0 and below the width.
    fn joined<O: WordOrder>(&self, next: &Self, skip: usize) -> T
        requires width { fits T.BITS }
        requires some { 0 < skip }
        requires bound { skip < T.BITS }
        ensures { element_bits T.BITS O.at (T.value result)
            ≡ drop skip (element_bits T.BITS O.at (value self.now))
            ++ take skip (element_bits T.BITS O.at (value next.now)) };
}

/// An element as it is.
#[derive(Clone, Copy)]
pub struct Whole<T: BitStore> {
    element: T,
}

impl<T: BitStore> Carried<T> for Whole<T> {
    ghost fits = { λ _. ⊤ };

    ghost value = { λ whole. T.value whole.element };

    #[inline(always)]
    fn of(element: T) -> Self {
        Whole { element }
    }

    #[inline(always)]
    fn element(&self) -> T {
        self.element
    }

    #[inline(always)]
    fn joined<O: WordOrder>(&self, next: &Self, skip: usize) -> T {
        joined::<O, T>(self.element, next.element, skip)
    }
}
