//! The number of the bits of one part of an element.
ghost use Rattle.std.specs.Prelude.{◌≡◌, ◌-◌, ◌<◌, ◌≤◌, slice_range};
ghost use Rattle.bitvec_base.specs.Memory.{Writes, element_bits, list_in};
ghost use Rattle.bitvec_base.specs.Parts.{HasPart, part_window};
ghost use Rattle.bitvec_cells.specs.Access.{Costs, OnlyReads};
ghost use Rattle.bitvec_segments.specs.Segments.{segment_bits, segment_number};
ghost use Rattle.bitvec_cells.specs.Cost.{part_loads};
ghost use Rattle.bitvec_words.specs.ShortWindow.{lowest_bit};

use bitvec_base::Part;
use bitvec_cells::{Cells, CellsRead};
use bitvec_store::BitStore;
use bitvec_words::{WordOrder, store_part};

/// How many of `width` bits are less significant than those at the indices from `from` up to, without, `to`.
pub(crate) fn bits_below<O: WordOrder>(width: usize, from: usize, to: usize) -> usize
    requires order { from ≤ to }
    requires bound { to ≤ width }
    ensures { result ≡ lowest_bit O.HIGH width from (to - from) }
{
    if O::HIGH { width - to } else { from }
}

/// The number of a part's bits, whose first one is the highest where the order begins with the most
/// significant bit, and else the lowest. Condition: the part is one of an element of the memory, and
/// isn't empty. It takes one load.
pub(crate) fn part_number<O: WordOrder, C: CellsRead>(cells: &mut C, part: Part) -> u128
    requires part { HasPart C.Elem.BITS (C.numbers cells.old) part }
    requires some { part.from < part.to }
    ensures value { result ≡ segment_number O.HIGH (list_in C.Elem.BITS O.at (C.numbers cells.old) (part_window C.Elem.BITS part)) }
    ensures reads { OnlyReads C.CellsRead cells.old cells.new 1 }
{
    let element = cells.load(part.element);
    number_between::<O, C::Elem>(element, part.from, part.to)
}

/// The number of an element's bits at the indices from `from` up to, without, `to`. Condition: there are some.
#[inline(always)]
pub(crate) fn number_between<O: WordOrder, T: BitStore>(element: T, from: usize, to: usize) -> u128
    requires some { from < to }
    requires bound { to ≤ T.BITS }
    ensures { result ≡ segment_number O.HIGH (slice_range (element_bits T.BITS O.at (T.value element)) from to) }
{
    let below = bits_below::<O>(T::BITS as usize, from, to);
    let mask = T::ALL.shr(T::BITS - (to - from) as u32);
    element.shr(below as u32).and(mask).to_u128()
}

/// Gives a part the lowest bits of a number, as many as it has, in the same order. Condition: as for
/// [`part_number`]. It takes one store, and one load unless the part is a whole element.
pub(crate) fn store_part_number<O: WordOrder, C: Cells>(cells: &mut C, part: Part, number: u128)
    requires part { HasPart C.Elem.BITS (C.numbers cells.old) part }
    requires some { part.from < part.to }
    ensures writes { Writes C.Elem.BITS O.at (C.numbers cells.old) (C.numbers cells.new) (part_window C.Elem.BITS part)
        (segment_bits O.HIGH (part.to - part.from) number) }
    ensures cost { Costs C.CellsRead cells.old cells.new (part_loads C.Elem.BITS part) 1 }
{
    let below = bits_below::<O>(C::Elem::BITS as usize, part.from, part.to);
    let lowest = C::Elem::from_u128(number & C::Elem::ALL.to_u128());
    store_part::<O, C>(cells, part, lowest.shl(below as u32));
}
