//! Where a window is cut at the edges of elements: its first part and its last part.
ghost use Rattle.std.specs.Prelude.{◌≡◌, ◌+◌, ◌-◌, ◌/◌, ◌^◌, ◌<◌, ◌≤◌};
ghost use Rattle.bitvec_base.specs.Parts.{first_part_of, last_part_of, tail_part_of};

use crate::Window;
use bitvec_store::BitStore;

/// A part of one element of a memory: the bits at its indices `from` up to, without, `to`.
#[derive(Clone, Copy, PartialEq, Eq, Debug)]
pub struct Part {
    /// Which element, from 0.
    pub element: usize,
    /// The index of the part's first bit in the element.
    pub from: usize,
    /// The index past its last bit.
    pub to: usize,
}

impl Part {
    /// How many bits. Condition: `from <= to`.
    pub fn len(self) -> usize
        requires { self.from ≤ self.to }
        ensures { result ≡ self.to - self.from }
    {
        self.to - self.from
    }
}

/// How many whole elements of type `T` that many bits make.
#[inline(always)]
pub fn elements_of<T: BitStore>(bits: usize) -> usize
    ensures { result ≡ bits / T.BITS }
{
    bits / T::BITS as usize
}

impl Window {
    /// The part of the window's first element that lies in the window. Condition: the window isn't empty.
    #[inline(always)]
    pub fn first_part<T: BitStore>(self) -> Part
        requires { 0 < self.len }
        ensures { result ≡ first_part_of T.BITS self }
    {
        let from = self.phase::<T>();
        let len = self.len.min(T::BITS as usize - from);
        Part {
            element: self.element::<T>(),
            from,
            to: from + len,
        }
    }

    /// The part of the window's last element that lies in the window. Condition: the window isn't empty, and its end is a
    /// `usize`.
    #[inline(always)]
    pub fn last_part<T: BitStore>(self) -> Part
        requires some { 0 < self.len }
        requires end { self.start + self.len < 2 ^ 64 }
        ensures { result ≡ last_part_of T.BITS self }
    {
        let bits = T::BITS as usize;
        let last = self.start + (self.len - 1);
        let to = last % bits + 1;
        Part {
            element: last / bits,
            from: to - self.len.min(to),
            to,
        }
    }

    /// The whole elements of a window that begins where one does: the first of them, and how many they are.
    #[inline(always)]
    pub fn whole_elements<T: BitStore>(self) -> (usize, usize)
        ensures { result ≡ (self.start / T.BITS, self.len / T.BITS) }
    {
        (self.element::<T>(), elements_of::<T>(self.len))
    }

    /// The part of such a window behind its whole elements, which is empty where the window ends with one. Condition: the
    /// window's end is a `usize`.
    #[inline(always)]
    pub fn tail_part<T: BitStore>(self) -> Part
        requires { self.start + self.len < 2 ^ 64 }
        ensures { result ≡ tail_part_of T.BITS self }
    {
        Part {
            element: self.element::<T>() + elements_of::<T>(self.len),
            from: 0,
            to: self.len % T::BITS as usize,
        }
    }
}
