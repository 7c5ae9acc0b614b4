//! Two bits of a window, exchanged.
ghost use Rattle.std.specs.Prelude.{◌<◌, swap};
ghost use Rattle.bitvec_base.specs.Memory.{Edits, HasWindow};
ghost use Rattle.bitvec_cells.specs.Access.{Costs};

use crate::bit::{get_bit, replace_bit};
use crate::{Cells, CellsRead};
use bitvec_base::{BitOrder, Window};
use bitvec_store::BitStore;

/// Exchanges the bits at two indices of a window; all other bits of the memory stay. Condition: the
/// memory has at most `MAX_BITS` bits, the window lies in it, and both indices, which may be one,
/// are below the window's length. It takes three loads and two stores.
pub fn swap_bits<O: BitOrder, C: Cells>(cells: &mut C, window: Window, first: usize, second: usize)
    requires window { HasWindow C.Elem.BITS (C.numbers cells.old) window }
    requires first { first < window.len }
    requires second { second < window.len }
    ensures writes { Edits C.Elem.BITS O.at (C.numbers cells.old) (C.numbers cells.new) window (λ list. swap list first second) }
    ensures cost { Costs C.CellsRead cells.old cells.new 3 2 }
{
    let second_bit = get_bit::<O, C>(cells, window, second);
    let first_bit = replace_bit::<O, C>(cells, window, first, second_bit);
    replace_bit::<O, C>(cells, window, second, first_bit);
}
