//! An order that exchanges the halves of each byte.
ghost use Rattle.std.specs.Prelude.{◌≡◌, ℕ, ◌-◌, ◌/◌, ◌^◌, ◌<◌, bit_xor};
ghost use Rattle.std.specs.Int.{bit_at};
ghost use Rattle.bitvec_base.specs.HiLoLaws.{hilo_permutes};

use crate::BitOrder;
use crate::ones::{ones, single};
use bitvec_store::BitStore;

/// The order in which index `i` is the bit whose number is `i` with the bit of weight 4 flipped:
/// within each byte the high half comes first, and in a half the least significant bit.
#[derive(Clone, Copy)]
pub struct HiLo;

impl BitOrder for HiLo {
    ghost at = { λ b i. bit_xor i 4 };

    ghost permutes = { hilo_permutes };

    fn at<R: BitStore>(index: usize) -> usize {
        index ^ 4
    }

    fn select<R: BitStore>(index: usize) -> R {
        single(Self::at::<R>(index))
    }

    fn mask<R: BitStore>(from: usize, to: usize) -> R {
        exchange_halves(ones(from, to))
    }
}

/// The element with the two halves of each byte exchanged.
fn exchange_halves<R: BitStore>(element: R) -> R
    ensures in_range { R.value result < 2 ^ R.BITS }
    ensures bits { (i : ℕ) → i < R.BITS
        → bit_at (R.value result) (bit_xor i 4) ≡ bit_at (R.value element) i }
{
    let low = low_halves::<R>();
    let moved_up = element.shl(4).and(low.not());
    let moved_down = element.shr(4).and(low);
    let exchanged = moved_up.or(moved_down);
    exchanged.in_range();
    exchanged
}

/// The element whose ones are the low half of each byte: `0x0F`, `0x0F0F` and so on.
fn low_halves<R: BitStore>() -> R
    ensures { R.value result ≡ (2 ^ R.BITS - 1) / 17 }
{
    // a byte of ones is 17 times its low half
    R::from_u128(R::ALL.to_u128() / 17)
}
