//! Each bit of a window of a slice of elements set, cleared or flipped.
ghost use Rattle.std.specs.Prelude.{map, not, replicate};
ghost use Rattle.bitvec_base.specs.Memory.{Edits, HasWindow, Writes};

use bitvec_base::{BitOrder, Window};
use bitvec_cells::Exclusive;
use bitvec_store::BitStore;
use bitvec_words::{fill, invert};

/// Makes each bit of a window `bit`. Condition: the memory has at most `MAX_BITS` bits, and the
/// window lies in it.
pub fn fill_in<T: BitStore, O: BitOrder>(elements: &mut [T], window: Window, bit: bool)
    requires window { HasWindow T.BITS (map T.value elements.old) window }
    ensures writes { Writes T.BITS O.at (map T.value elements.old) (map T.value elements.new) window (replicate window.len bit) }
{
    fill::<O, Exclusive<T>>(&mut Exclusive::new(elements), window, bit);
}

/// Flips each bit of a window. Condition: as for [`fill_in`].
pub fn invert_in<T: BitStore, O: BitOrder>(elements: &mut [T], window: Window)
    requires window { HasWindow T.BITS (map T.value elements.old) window }
    ensures writes { Edits T.BITS O.at (map T.value elements.old) (map T.value elements.new) window (map not) }
{
    invert::<O, Exclusive<T>>(&mut Exclusive::new(elements), window);
}
