//! Bit orders: which bit of an element comes first.
ghost use Rattle.std.specs.Prelude.{◌≡◌, ℕ, ◌^◌, ◌<◌, ◌≤◌, true};
ghost use Rattle.bitvec_base.specs.Lists.{first_place, last_place};
ghost use Rattle.bitvec_base.specs.Memory.{element_bits};
ghost use Rattle.bitvec_base.specs.Order.{Permutes, mask_of};
ghost use Rattle.bitvec_store.specs.Width.{IsWidth};

use bitvec_store::BitStore;

/// An order of the bits of an element: `bitvec`'s `BitOrder`.
///
/// Contracts see an order as `at`, which gives for a width and an index the number of the bit
/// that stands there. By law each bit number below the width is that of exactly one index.
pub trait BitOrder {
    ghost at: { ℕ → ℕ → ℕ };

    /// The number of the bit at an index of an element. Condition: the index is below the width.
    fn at<R: BitStore>(index: usize) -> usize
        requires { index < R.BITS }
        ensures { result ≡ at R.BITS index };

    /// The element whose one bit is that at the index. Condition: the index is below the width.
    fn select<R: BitStore>(index: usize) -> R
        requires { index < R.BITS }
        ensures { R.value result ≡ 2 ^ at R.BITS index };

    /// The element that has exactly the bits at the indices from `from` up to, without, `to`.
    /// Condition: `from <= to`, and `to` is at most the width.
    fn mask<R: BitStore>(from: usize, to: usize) -> R
        requires order { from ≤ to }
        requires bound { to ≤ R.BITS }
        ensures { R.value result ≡ mask_of (at R.BITS) from to }
    {
        // any lawful order, bit by bit: one that knows a shorter way overrides this
        let mut mask = R::ZERO;
        for index in from..to {
            mask = mask.or(Self::select::<R>(index));
        }
        mask
    }

    /// The least index whose bit is 1, if there is one.
    fn first_one<R: BitStore>(element: R) -> Option<usize>
        ensures { result ≡ first_place true (element_bits R.BITS at (R.value element)) }
    {
        // any lawful order, bit by bit: one that knows a shorter way overrides this
        for index in 0..R::BITS as usize {
            if element.and(Self::select::<R>(index)).to_u128() != 0 {
                return Some(index);
            }
        }
        None
    }

    /// The greatest index whose bit is 1, if there is one.
    fn last_one<R: BitStore>(element: R) -> Option<usize>
        ensures { result ≡ last_place true (element_bits R.BITS at (R.value element)) }
    {
        for index in (0..R::BITS as usize).rev() {
            if element.and(Self::select::<R>(index)).to_u128() != 0 {
                return Some(index);
            }
        }
        None
    }

    ghost permutes: { (b : ℕ) → IsWidth b → Permutes b (at b) };
}
