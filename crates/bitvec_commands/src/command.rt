//! Commands, what they answer, and why one is refused.
use bitvec_base::Window;
use std::cmp::Ordering;

/// A command on the bits of a step's sub-range, `m` of them: the call of that name on `bitvec`'s
/// slices. `Invert`, `And`, `Or` and `Xor` are the operators, and `CopyFrom` is
/// `copy_from_bitslice`.
///
/// Indices and amounts count bits from the start of the sub-range. A window is one of the right
/// memory, and its bits are the right bits. An index, an amount, a source, a destination or a
/// window that doesn't fit is refused by the `Refusal` of that name. A command that says no reply
/// replies `Done`, and one that says no change changes nothing.
#[derive(Clone, Copy, PartialEq, Eq, Debug)]
pub enum Op {
    /// Replies the bit at an index below `m`.
    Get(usize),
    /// Sets the bit at an index below `m`.
    Set(usize, bool),
    /// Sets the bit at an index below `m`, and replies the old one.
    Replace(usize, bool),
    /// Exchanges the bits at two indices below `m`.
    Swap(usize, usize),
    /// Sets each bit.
    Fill(bool),
    /// Flips each bit.
    Invert,
    /// Puts the bits in the opposite order.
    Reverse,
    /// Moves the bits towards the start by at most `m`; as many zeros follow.
    ShiftStart(usize),
    /// Moves the bits towards the end by at most `m`, behind as many zeros.
    ShiftEnd(usize),
    /// Moves the first bits, at most `m`, behind the others.
    RotateLeft(usize),
    /// Moves the last bits, at most `m`, before the others.
    RotateRight(usize),
    /// Copies the bits from the first index up to, without, the second to those from the third
    /// on, also where the two overlap. The source is tested before the destination.
    CopyWithin(usize, usize, usize),
    /// Copies the right bits, `m` of them, to here.
    CopyFrom(Window),
    /// Makes each bit that bit and the right one at its index, 0 past the end of the window.
    And(Window),
    /// Makes each bit that bit or the right one at its index, 0 past the end of the window.
    Or(Window),
    /// Makes each bit whether it differs from the right one at its index, 0 past the end of the
    /// window.
    Xor(Window),
    /// Replies whether the bits are the right bits.
    Eq(Window),
    /// Replies the order of the bits against the right bits, as slices are ordered.
    Cmp(Window),
    /// Replies whether the bits begin with the right bits.
    StartsWith(Window),
    /// Replies whether the bits end with the right bits.
    EndsWith(Window),
    /// Replies whether the right bits stand together somewhere among the bits.
    Contains(Window),
    /// Replies how many bits are 1.
    CountOnes,
    /// Replies how many bits are 0.
    CountZeros,
    /// Replies the least index of a 1, or none.
    FirstOne,
    /// Replies the least index of a 0, or none.
    FirstZero,
    /// Replies the greatest index of a 1, or none.
    LastOne,
    /// Replies the greatest index of a 0, or none.
    LastZero,
    /// Replies whether some bit is 1.
    Any,
    /// Replies whether no bit is 0.
    All,
}

/// Why a step was refused, in the order in which the conditions are tested. A refused step
/// changes nothing.
#[derive(Clone, Copy, PartialEq, Eq, Debug)]
pub enum Refusal {
    /// The sub-range is reversed or doesn't lie in the window.
    Range = 1,
    /// An index isn't below the length of the sub-range.
    Index = 2,
    /// A shift or a rotation by more than that length.
    Amount = 3,
    /// The source of a copy is reversed or doesn't lie in the sub-range.
    Source = 4,
    /// The destination of a copy doesn't lie in the sub-range.
    Dest = 5,
    /// The right window doesn't lie in the right memory.
    Right = 6,
    /// The right window hasn't the length of the sub-range.
    Length = 7,
    /// A field isn't 1 to 128 bits wide.
    Width = 8,
}

/// What a step answers.
#[derive(Clone, Copy, PartialEq, Eq, Debug)]
pub enum Reply {
    /// The command was carried out, and has nothing to tell.
    Done,
    /// A bit, or whether something holds.
    Bit(bool),
    /// How many bits.
    Count(usize),
    /// A place in the sub-range, or none.
    Index(Option<usize>),
    /// How the sub-range compares with the right window.
    Order(Ordering),
    /// The number of a field.
    Number(u128),
    /// The step was refused, and changed nothing.
    Refused(Refusal),
}
