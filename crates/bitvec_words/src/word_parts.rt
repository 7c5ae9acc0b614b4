//! Bits of one element at other indices of another.
ghost use Rattle.std.specs.Prelude.{◌≡◌, ◌+◌, ◌≤◌, false, replicate, slice_range};
ghost use Rattle.bitvec_base.specs.Memory.{element_bits};
ghost use Rattle.bitvec_base.specs.Window.{write_at};
ghost use Rattle.bitvec_words.specs.ShortWindow.{lowest_bit};

use crate::WordOrder;
use bitvec_store::BitStore;

/// The most bits that a word has.
pub const WORD_BITS: usize = 64;

/// The number of the lowest of the bits at `len` indices of an element from `from` on. Condition: the indices are
/// below the width.
#[inline(always)]
fn lowest<O: WordOrder, T: BitStore>(from: usize, len: usize) -> usize
    requires { from + len ≤ T.BITS }
    ensures { result ≡ lowest_bit O.HIGH T.BITS from len }
{
    if O::HIGH {
        T::BITS as usize - (from + len)
    } else {
        from
    }
}

/// The element of the type `U` that has the `len` bits of `element` from index `from` on at its indices from `to`
/// on, and 0 elsewhere. Condition: the indices are below the widths. Cost: three shifts.
#[inline(always)]
pub fn moved<O: WordOrder, T: BitStore, U: BitStore>(
    element: T,
    from: usize,
    len: usize,
    to: usize,
) -> U
    requires source { from + len ≤ T.BITS }
    requires target { to + len ≤ U.BITS }
    ensures { element_bits U.BITS O.at (U.value result)
        ≡ write_at (replicate U.BITS false) to (slice_range (element_bits T.BITS O.at (T.value element)) from (from + len)) }
{
    if len == 0 {
        return U::ZERO;
    }
    let down = lowest::<O, T>(from, len);
    let up = lowest::<O, U>(to, len);
    let mask = T::ALL.shr(T::BITS - len as u32);
    let word = element.shr(down as u32).and(mask);
    U::from_u128(word.to_u128()).shl(up as u32)
}
