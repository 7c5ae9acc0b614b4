//! The calls that make walks over the ones and the zeros of a view.
ghost use Rattle.std.specs.Prelude.{◌≡◌, ◌<◌, ◌≤◌, false, length, true};
ghost use Rattle.std.specs.List.{All};
ghost use Rattle.bitvec_base.specs.Lists.{places_of};
ghost use Rattle.bitvec_base.specs.Window.{max_bits};

use crate::IndexWalk;
use bitvec_slice::Shows;

/// Walks over the indices of a view's ones or zeros, for both view types. A walk of a `BitSlice` lives
/// as long as its elements, one of a `&BitSliceMut` as long as that borrow.
pub trait OnesCalls<T>: Shows<T> {
    /// What `iter_ones` returns.
    type Ones: IndexWalk;

    /// What `iter_zeros` returns.
    type Zeros: IndexWalk;

    /// The indices of the bits that are 1, ascending.
    ///
    /// ```
    /// let view = BitSlice::<u8, Lsb0>::from_slice(&elements);
    /// let mut ones = view.iter_ones();
    /// assert!(rt; (ones.next(), ones.next_back()) == (Some(0), Some(5)));
    /// ```
    fn iter_ones(self) -> Self::Ones
        ensures indices { Self.Ones.left result ≡ places_of true (Self.shows self).bits }
        ensures inside { All (λ index. index < (Self.shows self).window.len) (Self.Ones.left result) }
        ensures few { length (Self.Ones.left result) ≤ max_bits }
        ensures runs { Self.Ones.Ascends result }
        ensures runs_back { Self.Ones.Descends result };

    /// The indices of the bits that are 0, ascending.
    ///
    /// ```
    /// let view = BitSliceMut::<u8, Msb0>::from_slice_mut(&mut elements);
    /// let mut zeros = view.iter_zeros();
    /// assert!(rt; (zeros.next_back(), zeros.next()) == (Some(15), Some(4)));
    /// ```
    fn iter_zeros(self) -> Self::Zeros
        ensures indices { Self.Zeros.left result ≡ places_of false (Self.shows self).bits }
        ensures inside { All (λ index. index < (Self.shows self).window.len) (Self.Zeros.left result) }
        ensures few { length (Self.Zeros.left result) ≤ max_bits }
        ensures runs { Self.Zeros.Ascends result }
        ensures runs_back { Self.Zeros.Descends result };
}
