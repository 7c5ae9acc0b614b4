//! A part of a view, by all that it shows.
ghost use Rattle.std.specs.Prelude.{◌≡◌};
ghost use Rattle.bitvec_cutting.specs.Cutting.{LiesIn};
ghost use Rattle.bitvec_iter.specs.Parts.{subview};
ghost use Rattle.bitvec_slice.specs.Views.{seen};

use bitvec_base::BitOrder;
use bitvec_slice::BitSlice;
use bitvec_store::BitStore;
use std::ops::Range;

/// The bits at these indices. Condition: the view has them.
pub(crate) fn part_of<'a, T: BitStore, O: BitOrder>(
    view: BitSlice<'a, T, O>,
    places: Range<usize>,
) -> BitSlice<'a, T, O>
    requires { LiesIn (seen view).window.len places }
    ensures { seen result ≡ subview T.BITS (seen view.entry) places }
{
    view.into_part(places)
}
