//! The bits of a window of a slice of elements copied to another place of it.

ghost use Rattle.std.specs.Prelude.{◌-◌, ◌≤◌, map};
ghost use Rattle.bitvec_base.specs.Lists.{FitsWithin, copied_within};
ghost use Rattle.bitvec_base.specs.Memory.{Edits, HasWindow};

use bitvec_base::Window;
use bitvec_cells::{Exclusive, Shared};
use bitvec_elements::return_by_direction;
use bitvec_engine::SliceOrder;
use bitvec_few::{is_few, load_parts, store_parts};
use bitvec_store::BitStore;
use bitvec_words::WordOrder;
use std::ops::Range;

/// Copies the bits of a range of a window to the places from `dest` on; the two may overlap.
/// Condition: the memory has at most `MAX_BITS` bits, the window lies in it, and both the bits read
/// and those written lie in the window. At most 64 bits are copied as a word under an order that runs from
/// one end of an element to the other.
#[tactic(auto, using(bitvec_elements::proofs::Directions::by_direction))]
pub fn copy_within_in<T: BitStore, O: SliceOrder>(
    elements: &mut [T],
    window: Window,
    src: Range<usize>,
    dest: usize,
)
    requires window { HasWindow T.BITS (map T.value elements.old) window }
    requires fits { FitsWithin src.start src.end dest window.len }
    ensures writes { Edits T.BITS O.at (map T.value elements.old) (map T.value elements.new) window (copied_within src.start src.end dest) }
{
    if is_few(src.end - src.start) {
        return_by_direction!(O, T => copy_within_few::<_, T>(elements, window, src, dest));
    }
    let mut accessor = Exclusive::new(elements);
    O::block_copy_within::<Exclusive<T>>(&mut accessor, window, src.start, src.end, dest);
}

/// [`copy_within_in`] of few bits, as a word.
fn copy_within_few<W: WordOrder, T: BitStore>(
    elements: &mut [T],
    window: Window,
    src: Range<usize>,
    dest: usize,
)
    requires window { HasWindow T.BITS (map T.value elements.old) window }
    requires fits { FitsWithin src.start src.end dest window.len }
    requires few { src.end - src.start ≤ 64 }
    ensures writes { Edits T.BITS W.at (map T.value elements.old) (map T.value elements.new) window (copied_within src.start src.end dest) }
{
    let source = window.range(src.start, src.end);
    let target = window.range(dest, dest + (src.end - src.start));
    let word = load_parts::<W, Shared<T>>(&mut Shared::new(&*elements), source);
    store_parts::<W, Exclusive<T>>(&mut Exclusive::new(elements), target, word);
}
