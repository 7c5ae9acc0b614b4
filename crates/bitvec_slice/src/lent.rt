//! What a call that lends gives, also where there is nothing to lend.
ghost use Rattle.std.specs.Prelude.{◌≡◌, ◌↔◌, IfSome, IsSome, IsTrue, not};

use crate::BitSliceMut;
use bitvec_base::BitOrder;
use bitvec_domain::BitRefMut;
use bitvec_store::BitStore;

/// A piece that was lent, if there is one: what a call gives whose name ends in `_lent`, where `bitvec`'s
/// ends in `_mut` and gives an `Option`. [`Lent::some`] and [`Lent::bit`] give the `Option`.
///
/// So the lender's end is known in both cases: where there is none, an empty piece was lent, and the lender
/// ends as it was.
#[derive(Drop)]
pub struct Lent<P> {
    piece: P,
    has: bool,
}

impl<P: Drop> Lent<P> {
    ghost use Rattle.bitvec_slice.specs.MayLend.{is_lent, piece_of};

    /// A piece, and whether it stands for one, for a call of a crate above.
    #[doc(hidden)]
    pub fn new(piece: P, has: bool) -> Self
        ensures lent { is_lent result ≡ has }
        ensures piece { piece_of result ≡ piece }
    {
        Lent { piece, has }
    }

    /// Whether there is a piece.
    pub fn is_some(&self) -> bool
        ensures { result ≡ is_lent self.now }
    {
        self.has
    }

    /// Whether there is none.
    pub fn is_none(&self) -> bool
        ensures { result ≡ not (is_lent self.now) }
    {
        !self.has
    }

    /// The piece, if there is one.
    pub fn some(self) -> Option<P>
        ensures some { IsSome result ↔ IsTrue (is_lent self) }
        ensures piece { IfSome result (λ piece. piece ≡ piece_of self) }
    {
        let Lent { piece, has } = self;
        if has { Some(piece) } else { None }
    }
}

impl<'a, T: BitStore, O: BitOrder> Lent<BitSliceMut<'a, T, O>> {
    ghost use Rattle.bitvec_slice.specs.MayLend.{IsBitOfView, is_lent, piece_of};
    ghost use Rattle.bitvec_slice.specs.Views.{seen_mut};

    /// The one bit of the piece, if there is a piece. Condition: it then has one bit, as that of an index has.
    pub fn bit(self) -> Option<BitRefMut<'a, T, O>>
        requires { IsTrue (is_lent self) → (seen_mut (piece_of self)).window.len ≡ 1 }
        ensures some { IsSome result ↔ IsTrue (is_lent self.entry) }
        ensures bit { IfSome result (λ bit. IsBitOfView (piece_of self.entry) bit) }
    {
        let Lent { piece, has } = self;
        if has {
            Some(piece.into_reference())
        } else {
            None
        }
    }
}
