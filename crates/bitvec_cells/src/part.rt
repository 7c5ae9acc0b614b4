//! Parts of one element: counted, filled, flipped.
ghost use Rattle.std.specs.Prelude.{◌≡◌, ◌-◌, ◌^◌, ◌<◌, ◌≤◌, ◌==◌, if◌then◌else◌, not, map, replicate, count_by, bit_and, bit_xor};
ghost use Rattle.bitvec_base.specs.Memory.{Writes, list_in};
ghost use Rattle.bitvec_base.specs.Order.{mask_of};
ghost use Rattle.bitvec_base.specs.Parts.{HasPart, part_window};
ghost use Rattle.bitvec_cells.specs.Access.{Costs, OnlyReads};
ghost use Rattle.bitvec_cells.specs.Cost.{part_loads};
ghost use Rattle.bitvec_cells.specs.Element.{put_mask};

use crate::{Cells, CellsRead};
use bitvec_base::{BitOrder, Part};
use bitvec_store::BitStore;

/// The element with the mask's bits set, or cleared.
pub(crate) fn put<T: BitStore>(element: T, mask: T, bit: bool) -> T
    ensures { T.value result ≡ put_mask T.BITS (T.value element) (T.value mask) bit }
{
    if bit {
        element.or(mask)
    } else {
        element.and(mask.not())
    }
}

/// The element without its bits outside a part. A whole element takes no mask.
pub(crate) fn masked<O: BitOrder, T: BitStore>(element: T, part: Part) -> T
    requires order { part.from ≤ part.to }
    requires bound { part.to ≤ T.BITS }
    ensures { T.value result
        ≡ bit_and (T.value element) (mask_of (O.at T.BITS) part.from part.to) }
{
    if part.len() == T::BITS as usize {
        element.in_range();
        return element;
    }
    element.and(O::mask::<T>(part.from, part.to))
}

/// The element with the bits of a part flipped. A whole element takes no mask.
fn flipped<O: BitOrder, T: BitStore>(element: T, part: Part) -> T
    requires order { part.from ≤ part.to }
    requires bound { part.to ≤ T.BITS }
    ensures { T.value result
        ≡ bit_xor (T.value element) (mask_of (O.at T.BITS) part.from part.to) }
{
    if part.len() == T::BITS as usize {
        element.in_range();
        return element.not();
    }
    element.xor(O::mask::<T>(part.from, part.to))
}

/// How many bits of a part are 1. Condition: the part is one of an element of the memory. It takes
/// one load.
pub fn count_part<O: BitOrder, C: CellsRead>(cells: &mut C, part: Part) -> usize
    requires { HasPart C.Elem.BITS (C.numbers cells.old) part }
    ensures value { result
        ≡ count_by (λ bit. bit) (list_in C.Elem.BITS O.at (C.numbers cells.old) (part_window C.Elem.BITS part)) }
    ensures reads { OnlyReads C.CellsRead cells.old cells.new 1 }
{
    let element = cells.load(part.element);
    masked::<O, C::Elem>(element, part).count_ones() as usize
}

/// Sets or clears the bits of a part. Condition: as for [`count_part`]. It takes one store, and one
/// load unless the part is a whole element.
pub fn fill_part<O: BitOrder, C: Cells>(cells: &mut C, part: Part, bit: bool)
    requires { HasPart C.Elem.BITS (C.numbers cells.old) part }
    ensures writes { Writes C.Elem.BITS O.at (C.numbers cells.old) (C.numbers cells.new)
        (part_window C.Elem.BITS part) (replicate (part.to - part.from) bit) }
    ensures cost { Costs C.CellsRead cells.old cells.new (part_loads C.Elem.BITS part) 1 }
{
    if part.len() == C::Elem::BITS as usize {
        cells.store(part.element, filled(bit));
        return;
    }
    let mask = O::mask::<C::Elem>(part.from, part.to);
    let element = cells.load(part.element);
    cells.store(part.element, put(element, mask, bit));
}

/// The element whose bits are all set, or all cleared.
pub fn filled<T: BitStore>(bit: bool) -> T
    ensures { T.value result ≡ (if bit then 2 ^ T.BITS - 1 else 0) }
{
    if bit { T::ALL } else { T::ZERO }
}

/// Flips the bits of a part. Condition: as for [`count_part`]. It takes one load and one store.
pub fn invert_part<O: BitOrder, C: Cells>(cells: &mut C, part: Part)
    requires { HasPart C.Elem.BITS (C.numbers cells.old) part }
    ensures writes { Writes C.Elem.BITS O.at (C.numbers cells.old) (C.numbers cells.new)
        (part_window C.Elem.BITS part)
        (map not (list_in C.Elem.BITS O.at (C.numbers cells.old) (part_window C.Elem.BITS part))) }
    ensures cost { Costs C.CellsRead cells.old cells.new 1 1 }
{
    let element = cells.load(part.element);
    cells.store(part.element, flipped::<O, C::Elem>(element, part));
}
