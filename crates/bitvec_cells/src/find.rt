//! Where a bit stands in a part of one element.
ghost use Rattle.std.specs.Prelude.{◌≡◌, ◌-◌, ◌≤◌, slice_range};
ghost use Rattle.bitvec_base.specs.Lists.{first_place, last_place};
ghost use Rattle.bitvec_base.specs.Memory.{element_bits, list_in};
ghost use Rattle.bitvec_base.specs.Parts.{HasPart, part_window};
ghost use Rattle.bitvec_cells.specs.Access.{OnlyReads};
ghost use Rattle.bitvec_cells.specs.Sought.{Shows};

use crate::CellsRead;
use crate::part::masked;
use bitvec_base::{BitOrder, Part};
use bitvec_store::BitStore;

/// The element whose ones are the bits of a part that are `want`. Condition: `from <= to`, and `to`
/// is at most the width.
pub fn sought<O: BitOrder, T: BitStore>(element: T, part: Part, want: bool) -> T
    requires order { part.from ≤ part.to }
    requires bound { part.to ≤ T.BITS }
    ensures { Shows T.BITS O.at (T.value element) (T.value result) part.from part.to want }
{
    element.in_range();
    let seen = if want { element } else { element.not() };
    masked::<O, T>(seen, part)
}

/// The first place of a bit in a part of an element, counted from the start of the part. Condition:
/// `from <= to`, and `to` is at most the width.
pub fn first_in_element<O: BitOrder, T: BitStore>(
    element: T,
    part: Part,
    want: bool,
) -> Option<usize>
    requires order { part.from ≤ part.to }
    requires bound { part.to ≤ T.BITS }
    ensures { result
        ≡ first_place want (slice_range (element_bits T.BITS O.at (T.value element)) part.from part.to) }
{
    let found = O::first_one::<T>(sought::<O, T>(element, part, want))?;
    Some(found - part.from)
}

/// The last place of a bit in a part of an element, counted from the start of the part. Condition:
/// as for [`first_in_element`].
pub fn last_in_element<O: BitOrder, T: BitStore>(
    element: T,
    part: Part,
    want: bool,
) -> Option<usize>
    requires order { part.from ≤ part.to }
    requires bound { part.to ≤ T.BITS }
    ensures { result
        ≡ last_place want (slice_range (element_bits T.BITS O.at (T.value element)) part.from part.to) }
{
    let found = O::last_one::<T>(sought::<O, T>(element, part, want))?;
    Some(found - part.from)
}

/// The first place of a bit in a part, counted from the start of the part. Condition: the part is
/// one of an element of the memory. It takes one load.
pub fn first_in_part<O: BitOrder, C: CellsRead>(
    cells: &mut C,
    part: Part,
    want: bool,
) -> Option<usize>
    requires { HasPart C.Elem.BITS (C.numbers cells.old) part }
    ensures value { result
        ≡ first_place want (list_in C.Elem.BITS O.at (C.numbers cells.old) (part_window C.Elem.BITS part)) }
    ensures reads { OnlyReads C.CellsRead cells.old cells.new 1 }
{
    let element = cells.load(part.element);
    first_in_element::<O, C::Elem>(element, part, want)
}

/// The last place of a bit in a part, counted from the start of the part. Condition and load: as for
/// [`first_in_part`].
pub fn last_in_part<O: BitOrder, C: CellsRead>(
    cells: &mut C,
    part: Part,
    want: bool,
) -> Option<usize>
    requires { HasPart C.Elem.BITS (C.numbers cells.old) part }
    ensures value { result
        ≡ last_place want (list_in C.Elem.BITS O.at (C.numbers cells.old) (part_window C.Elem.BITS part)) }
    ensures reads { OnlyReads C.CellsRead cells.old cells.new 1 }
{
    let element = cells.load(part.element);
    last_in_element::<O, C::Elem>(element, part, want)
}
