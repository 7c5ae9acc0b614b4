//! Single bits of a window of a slice of elements.
ghost use Rattle.std.specs.Prelude.{◌≡◌, ◌<◌, false, map, slice_index_or, slice_set};
ghost use Rattle.std.specs.List.{swap};
ghost use Rattle.bitvec_base.specs.Memory.{Edits, HasWindow, list_in};

use bitvec_base::{BitOrder, Window};
use bitvec_cells::{Exclusive, Shared, get_bit, replace_bit, swap_bits};
use bitvec_store::BitStore;

/// The bit at an index of a window. Condition: the memory has at most `MAX_BITS` bits, the window
/// lies in it, and the index is below the window's length.
pub fn bit_in<T: BitStore, O: BitOrder>(elements: &[T], window: Window, index: usize) -> bool
    requires window { HasWindow T.BITS (map T.value elements.now) window }
    requires bound { index < window.len }
    ensures { result ≡ slice_index_or (list_in T.BITS O.at (map T.value elements.now) window) index false }
{
    let mut accessor = Shared::new(elements);
    get_bit::<O, Shared<T>>(&mut accessor, window, index)
}

/// Makes the bit at an index of a window `bit`. Condition: as for [`bit_in`].
pub fn set_in<T: BitStore, O: BitOrder>(elements: &mut [T], window: Window, index: usize, bit: bool)
    requires window { HasWindow T.BITS (map T.value elements.old) window }
    requires bound { index < window.len }
    ensures writes { Edits T.BITS O.at (map T.value elements.old) (map T.value elements.new) window (λ list. slice_set list index bit) }
{
    let mut accessor = Exclusive::new(elements);
    replace_bit::<O, Exclusive<T>>(&mut accessor, window, index, bit);
}

/// Makes the bit at an index of a window `bit`, and gives the old one. Condition: as for [`bit_in`].
pub fn replace_in<T: BitStore, O: BitOrder>(
    elements: &mut [T],
    window: Window,
    index: usize,
    bit: bool,
) -> bool
    requires window { HasWindow T.BITS (map T.value elements.old) window }
    requires bound { index < window.len }
    ensures value { result ≡ slice_index_or (list_in T.BITS O.at (map T.value elements.old) window) index false }
    ensures writes { Edits T.BITS O.at (map T.value elements.old) (map T.value elements.new) window (λ list. slice_set list index bit) }
{
    let mut accessor = Exclusive::new(elements);
    replace_bit::<O, Exclusive<T>>(&mut accessor, window, index, bit)
}

/// Exchanges the bits at two indices of a window. Condition: as for [`bit_in`], for both indices.
pub fn swap_in<T: BitStore, O: BitOrder>(
    elements: &mut [T],
    window: Window,
    first: usize,
    second: usize,
)
    requires window { HasWindow T.BITS (map T.value elements.old) window }
    requires first { first < window.len }
    requires second { second < window.len }
    ensures writes { Edits T.BITS O.at (map T.value elements.old) (map T.value elements.new) window (λ list. swap list first second) }
{
    let mut accessor = Exclusive::new(elements);
    swap_bits::<O, Exclusive<T>>(&mut accessor, window, first, second);
}
