//! A window: the bits of a memory that a call works on.
ghost use Rattle.std.specs.Prelude.{◌≡◌, ◌+◌, ◌-◌, ◌/◌, ◌%◌, ◌≤◌, ◌<◌, ◌^◌, ◌↔◌, IsTrue};

use bitvec_store::BitStore;

/// The most bits that a memory may have: `bitvec`'s `BitSlice::MAX_BITS`.
pub const MAX_BITS: usize = usize::MAX / 8;

/// Bits `start` up to, without, `start + len` of a memory, counted from its first bit under an
/// order. It lies in a memory of `n` bits if `start <= n` and `len <= n - start`.
#[derive(Clone, Copy, PartialEq, Eq, Debug)]
pub struct Window {
    /// The first bit.
    pub start: usize,
    /// How many bits.
    pub len: usize,
}

impl Window {
    ghost use Rattle.bitvec_base.specs.Window.{IsWithin, window_after, window_range, window_until};

    /// Whether the window lies in a memory of that many bits.
    pub fn lies_in(self, bits: usize) -> bool
        ensures { IsTrue result ↔ IsWithin self bits }
    {
        self.start <= bits && self.len <= bits - self.start
    }

    /// The element of type `T` in which the window's first bit stands, from 0.
    #[inline(always)]
    pub fn element<T: BitStore>(self) -> usize
        ensures { result ≡ self.start / T.BITS }
    {
        self.start / T::BITS as usize
    }

    /// The index of the window's first bit in that element.
    #[inline(always)]
    pub fn phase<T: BitStore>(self) -> usize
        ensures { result ≡ self.start % T.BITS }
    {
        self.start % T::BITS as usize
    }

    /// The window without its first `count` bits. Condition: it has so many, and its end is a
    /// `usize`.
    pub fn after(self, count: usize) -> Window
        requires bound { count ≤ self.len }
        requires end { self.start + self.len < 2 ^ 64 }
        ensures { result ≡ window_after count self }
    {
        Window {
            start: self.start + count,
            len: self.len - count,
        }
    }

    /// The window without its last `count` bits. Condition: it has so many.
    pub fn until(self, count: usize) -> Window
        requires { count ≤ self.len }
        ensures { result ≡ window_until count self }
    {
        Window {
            start: self.start,
            len: self.len - count,
        }
    }

    /// The window's bits `from` up to, without, `to`, as a window of the same memory. Condition:
    /// `from <= to`, the window has so many bits, and its end is a `usize`.
    pub fn range(self, from: usize, to: usize) -> Window
        requires order { from ≤ to }
        requires bound { to ≤ self.len }
        requires end { self.start + self.len < 2 ^ 64 }
        ensures { result ≡ window_range self from to }
    {
        Window {
            start: self.start + from,
            len: to - from,
        }
    }
}
