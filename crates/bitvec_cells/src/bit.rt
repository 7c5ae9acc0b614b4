//! One bit of a window, read or replaced.
ghost use Rattle.std.specs.Prelude.{◌≡◌, ◌+◌, ◌-◌, ◌/◌, ◌%◌, ◌<◌, slice_index_or, slice_set, false};
ghost use Rattle.bitvec_base.specs.Memory.{Edits, HasWindow, list_in};
ghost use Rattle.bitvec_cells.specs.Access.{Costs, OnlyReads};

use crate::part::put;
use crate::{Cells, CellsRead};
use bitvec_base::{BitOrder, Window};
use bitvec_store::BitStore;

/// The bit at an index of a window. Condition: the memory has at most `MAX_BITS` bits, the window
/// lies in it, and the index is below the window's length. It takes one load.
pub fn get_bit<O: BitOrder, C: CellsRead>(cells: &mut C, window: Window, index: usize) -> bool
    requires window { HasWindow C.Elem.BITS (C.numbers cells.old) window }
    requires bound { index < window.len }
    ensures value { result ≡ slice_index_or (list_in C.Elem.BITS O.at (C.numbers cells.old) window) index false }
    ensures reads { OnlyReads C.CellsRead cells.old cells.new 1 }
{
    let bits = C::Elem::BITS as usize;
    let place = window.start + index;
    let element = cells.load(place / bits);
    element.and(O::select::<C::Elem>(place % bits)).to_u128() != 0
}

/// Replaces the bit at an index of a window, and gives the old one; all other bits of the memory
/// stay. Condition: as for [`get_bit`]. It takes one load and one store.
pub fn replace_bit<O: BitOrder, C: Cells>(
    cells: &mut C,
    window: Window,
    index: usize,
    bit: bool,
) -> bool
    requires window { HasWindow C.Elem.BITS (C.numbers cells.old) window }
    requires bound { index < window.len }
    ensures value { result ≡ slice_index_or (list_in C.Elem.BITS O.at (C.numbers cells.old) window) index false }
    ensures writes { Edits C.Elem.BITS O.at (C.numbers cells.old) (C.numbers cells.new) window (λ list. slice_set list index bit) }
    ensures cost { Costs C.CellsRead cells.old cells.new 1 1 }
{
    let bits = C::Elem::BITS as usize;
    let place = window.start + index;
    let mask = O::select::<C::Elem>(place % bits);
    let element = cells.load(place / bits);
    cells.store(place / bits, put(element, mask, bit));
    element.and(mask).to_u128() != 0
}
