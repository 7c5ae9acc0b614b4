//! Elements by pieces, each of so many bits.
ghost use Rattle.std.specs.Prelude.{◌≡◌, ◌+◌, ◌-◌, ◌*◌, ◌/◌, ◌^◌, ◌<◌, ◌≤◌};

use bitvec_base::elements_of;
use bitvec_store::BitStore;

/// How many whole pieces `count` elements make. Condition: an element isn't wider than a piece.
#[inline(always)]
pub(crate) fn pieces_of<T: BitStore>(bits: usize, count: usize) -> usize
    requires { T.BITS ≤ bits }
    ensures { result ≡ count / (bits / T.BITS) }
{
    count / elements_of::<T>(bits)
}

/// The first element behind `count` pieces from the element `first` on. Condition: it is a `usize`.
#[inline(always)]
pub(crate) fn behind_pieces<T: BitStore>(bits: usize, first: usize, count: usize) -> usize
    requires { first + count * (bits / T.BITS) < 2 ^ 64 }
    ensures { result ≡ first + count * (bits / T.BITS) }
{
    first + count * elements_of::<T>(bits)
}

/// Of `count` elements from the element `first` on, those behind all whole pieces: the first of them, and how many they
/// are. Condition: an element isn't wider than a piece, and the element behind all of them is a `usize`.
#[inline(always)]
pub(crate) fn left_behind<T: BitStore>(bits: usize, first: usize, count: usize) -> (usize, usize)
    requires narrow { T.BITS ≤ bits }
    requires end { first + count < 2 ^ 64 }
    ensures { result ≡ (first + count / (bits / T.BITS) * (bits / T.BITS), count - count / (bits / T.BITS) * (bits / T.BITS)) }
{
    let passed = pieces_of::<T>(bits, count) * elements_of::<T>(bits);
    (first + passed, count - passed)
}

/// The place `found` in the element behind `count` elements. Condition: it is a `usize`.
#[inline(always)]
pub(crate) fn bit_behind<T: BitStore>(count: usize, found: usize) -> usize
    requires { count * T.BITS + found < 2 ^ 64 }
    ensures { result ≡ count * T.BITS + found }
{
    place_behind(T::BITS as usize, count, found)
}

/// The place `found` in the piece behind `count` pieces. Condition: it is a `usize`.
#[inline(always)]
pub(crate) fn place_behind(bits: usize, count: usize, found: usize) -> usize
    requires { count * bits + found < 2 ^ 64 }
    ensures { result ≡ count * bits + found }
{
    count * bits + found
}
