//! A part of an element stored.
ghost use Rattle.std.specs.Prelude.{slice_range};
ghost use Rattle.bitvec_base.specs.Memory.{Writes, element_bits};
ghost use Rattle.bitvec_base.specs.Parts.{HasPart, part_window};
ghost use Rattle.bitvec_cells.specs.Access.{Costs};
ghost use Rattle.bitvec_cells.specs.Cost.{part_loads};

use crate::element::merged;
use bitvec_base::{BitOrder, Part};
use bitvec_cells::{Cells, CellsRead};
use bitvec_store::BitStore;

/// Gives a part the bits that an element has at the same indices. Condition: the part is one of an element of the
/// memory. It takes one store, and one load unless the part is a whole element.
pub fn store_part<O: BitOrder, C: Cells>(cells: &mut C, part: Part, element: C::Elem)
    requires { HasPart C.Elem.BITS (C.numbers cells.old) part }
    ensures writes { Writes C.Elem.BITS O.at (C.numbers cells.old) (C.numbers cells.new) (part_window C.Elem.BITS part)
        (slice_range (element_bits C.Elem.BITS O.at (C.Elem.value element)) part.from part.to) }
    ensures cost { Costs C.CellsRead cells.old cells.new (part_loads C.Elem.BITS part) 1 }
{
    if part.len() == C::Elem::BITS as usize {
        cells.store(part.element, element);
        return;
    }
    let old = cells.load(part.element);
    let new = merged::<O, C::Elem>(old, element, part.from, part.to);
    cells.store(part.element, new);
}
