//! Edits of elements by a closure over a view of all their bits.
ghost use Rattle.std.specs.Prelude.{◌≡◌, ◌*◌, ◌≤◌, List, length};
ghost use Rattle.std.specs.Borrow.{GName};
ghost use Rattle.bitvec_base.specs.Window.{max_bits};
ghost use Rattle.bitvec_slice.specs.Seen.{CoversElements, IsWhole};
ghost use Rattle.bitvec_closures.specs.Elements.{EditsElements};
ghost use Rattle.bitvec_closures.specs.Pieces.{MayEdit};

use crate::EditParts;
use bitvec_base::BitOrder;
use bitvec_slice::BitSliceMut;
use bitvec_store::BitStore;

/// Edits of borrowed elements by a closure over a view of all their bits. So an array is edited in one
/// function, or in a method of the struct whose field it is, and its bits are known afterwards. `bitvec`
/// has no such call: there `view_bits_mut` gives a view, as `from_slice_mut` does here.
pub trait EditElements<T: BitStore, O: BitOrder>: Sized {
    /// The view that the closure gets.
    type View: EditParts<T, O>;

    // The elements.
    ghost held: { Self → List T };

    // Which memory they are borrowed from, by its name among borrows.
    ghost lender: { Self → GName };

    /// A view of all bits. Condition: they are at most `MAX_BITS`.
    #[doc(hidden)]
    fn into_view(self) -> Self::View
        requires { T.BITS * length (held self) ≤ max_bits }
        ensures view { IsWhole T.BITS O.at T.value (held self) (Self.View.shows result) }
        ensures name { Self.View.named result ≡ lender self };

    /// The elements of a view. Condition: it has all bits of them.
    #[doc(hidden)]
    fn from_view(view: Self::View) -> Self
        requires { CoversElements T.BITS (Self.View.shows view) }
        ensures elements { held result ≡ (Self.View.shows view).elements }
        ensures name { lender result ≡ Self.View.named view };

    /// Calls `edit` on a view of all bits of the elements, and gives these back, with its result.
    /// Conditions: there are at most `MAX_BITS` bits; `edit` may be called on a view of them, and
    /// leaves it in its place.
    ///
    /// ```
    /// let _words = EditElements::<u32, Lsb0>::edit_elements(&mut self.words[..], move |view| {
    ///     view.set(line, true);
    /// });
    /// ```
    final fn edit_elements<R, F: FnOnce(&mut Self::View) -> R>(self, edit: F) -> (Self, R)
        requires bound { T.BITS * length (held self) ≤ max_bits }
        requires edit { MayEdit Self.View.shows Self.View.named (F.pre edit) (F.post edit) (IsWhole T.BITS O.at T.value (held self)) }
        ensures edited { EditsElements T.BITS O.at T.value Self.View.shows (F.post edit) (held self) result.1 (held result.0) }
        ensures name { lender result.0 ≡ lender self }
    {
        let mut view = self.into_view();
        let result = edit(&mut view);
        (Self::from_view(view), result)
    }
}

impl<'a, T: BitStore, O: BitOrder> EditElements<T, O> for &'a mut [T] {
    type View = BitSliceMut<'a, T, O>;

    ghost held = { λ elements. elements.now };

    ghost lender = { λ elements. elements.ghost_name };

    fn into_view(self) -> BitSliceMut<'a, T, O> {
        BitSliceMut::from_slice_mut(self)
    }

    fn from_view(view: BitSliceMut<'a, T, O>) -> &'a mut [T] {
        view.into_slice()
    }
}
