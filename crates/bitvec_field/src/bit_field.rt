//! `bitvec`'s `BitField`, its loads and its stores.
ghost use Rattle.std.specs.Prelude.{◌≡◌, ℕ, ◌<◌, ◌≤◌};
ghost use Rattle.bitvec_numbers.specs.Integers.{integer_of, remainder_of};

use crate::Integral;

/// The bits of a view as an integer: the loads of `bitvec`'s `BitField`, for both view types.
///
/// A view's segments are its bits cut at the edges of elements. Under `Lsb0` the first bit of a
/// segment is its lowest, under `Msb0` its highest. Condition of all: the view has from 1 to
/// `I::BITS` bits. A signed type takes a number whose highest bit is 1 as that number less `2^n`.
pub trait BitField {
    // How many bits the view has.
    ghost len: { Self → ℕ };

    // Their number, the first segment lowest, and the first segment highest.
    ghost le: { Self → ℕ };

    ghost be: { Self → ℕ };

    /// The integer of the bits, the first segment lowest.
    ///
    /// ```
    /// let number = view.load_le::<u128>();
    /// view.store_le::<u128>(number);
    /// ```
    fn load_le<I: Integral>(&self) -> I
        requires some { 0 < len self.now }
        requires bound { len self.now ≤ I.BITS }
        ensures { I.value result ≡ integer_of I.SIGNED (len self.now) (le self.now) };

    /// The integer of the bits, the first segment highest.
    ///
    /// ```
    /// let number = view.load_be::<u128>();
    /// view.store_be::<u128>(number);
    /// ```
    fn load_be<I: Integral>(&self) -> I
        requires some { 0 < len self.now }
        requires bound { len self.now ≤ I.BITS }
        ensures { I.value result ≡ integer_of I.SIGNED (len self.now) (be self.now) };

    /// Alias of [`BitField::load_le`]. `bitvec` takes the target's byte order.
    ///
    /// ```
    /// let mut view = BitSliceMut::<u16, Lsb0>::from_slice_mut(&mut elements);
    /// view.store::<u32>(0x0123_4567);
    /// assert!(rt; view.load::<u32>() == 0x0123_4567);
    /// ```
    fn load<I: Integral>(&self) -> I
        requires some { 0 < len self.now }
        requires bound { len self.now ≤ I.BITS }
        ensures { I.value result ≡ integer_of I.SIGNED (len self.now) (le self.now) }
    {
        self.load_le::<I>()
    }
}

/// An integer in the bits of a view: the stores of `bitvec`'s `BitField`. Conditions are as for
/// [`BitField`]. If a value has more bits than the view, its lowest are stored.
pub trait BitFieldMut: BitField {
    // Holds of the view before and after a call that gave it the bits with this number, modulo
    // `2^n`, and left all others.
    ghost writes_le: { Self → Self → ℕ → Type 0 };

    ghost writes_be: { Self → Self → ℕ → Type 0 };

    /// Stores a value, the first segment lowest.
    ///
    /// ```
    /// let mut part = view.into_part(from..from + width);
    /// let _len = part.len();
    /// part.store_le::<I>(number);
    /// ```
    fn store_le<I: Integral>(&mut self, value: I)
        requires some { 0 < Self.len self.old }
        requires bound { Self.len self.old ≤ I.BITS }
        ensures { writes_le self.old self.new (remainder_of I.BITS (I.value value)) };

    /// Stores a value, the first segment highest.
    fn store_be<I: Integral>(&mut self, value: I)
        requires some { 0 < Self.len self.old }
        requires bound { Self.len self.old ≤ I.BITS }
        ensures { writes_be self.old self.new (remainder_of I.BITS (I.value value)) };

    /// Alias of [`BitFieldMut::store_le`]. `bitvec` takes the target's byte order.
    ///
    /// ```
    /// let mut view = BitSliceMut::<u16, Lsb0>::from_slice_mut(&mut elements);
    /// view.store::<u32>(0x0123_4567);
    /// assert!(rt; view.load::<u32>() == 0x0123_4567);
    /// ```
    fn store<I: Integral>(&mut self, value: I)
        requires some { 0 < Self.len self.old }
        requires bound { Self.len self.old ≤ I.BITS }
        ensures { writes_le self.old self.new (remainder_of I.BITS (I.value value)) }
    {
        self.store_le::<I>(value);
    }
}
