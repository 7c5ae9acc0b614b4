//! What a caller knows of the elements that a view touches.
ghost use Rattle.std.specs.Prelude.{◌≡◌};
ghost use Rattle.bitvec.specs.DomainParts.{lists_of_pieces};
ghost use Rattle.bitvec.specs.Domains.{pieces_of};
ghost use Rattle.bitvec.specs.Segments.{segments};
ghost use Rattle.bitvec.specs.Views.{seen};

use bitvec::prelude::*;

/// The elements that a view touches: the bits of its parts are the segments that loads and stores go by.
pub fn parts_by_element<'a, T: BitStore, O: BitOrder>(view: BitSlice<'a, T, O>) -> Domain<'a, T, O>
    ensures { lists_of_pieces T.BITS O.at T.value (pieces_of result)
        ≡ segments T.BITS (seen view.entry).window.start (seen view.entry).bits }
{
    let _window = view.window();
    view.domain()
}
