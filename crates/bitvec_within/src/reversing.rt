//! The bits of a window of a slice of elements in the opposite order.

ghost use Rattle.std.specs.Prelude.{◌≤◌, map, reverse as reversal};
ghost use Rattle.bitvec_base.specs.Memory.{Edits, HasWindow};

use bitvec_base::Window;
use bitvec_cells::{Exclusive, Shared};
use bitvec_elements::return_by_direction;
use bitvec_engine::SliceOrder;
use bitvec_few::{is_few, load_parts, store_parts};
use bitvec_store::BitStore;
use bitvec_words::{WORD_BITS, WordOrder, moved, reversed};

/// Reverses the bits of a window, as the order does it. Condition: the memory has at most `MAX_BITS`
/// bits, and the window lies in it. At most 64 bits are reversed as a word under an order that runs from
/// one end of an element to the other.
#[tactic(auto, using(bitvec_elements::proofs::Directions::by_direction))]
pub fn reverse_in<T: BitStore, O: SliceOrder>(elements: &mut [T], window: Window)
    requires window { HasWindow T.BITS (map T.value elements.old) window }
    ensures writes { Edits T.BITS O.at (map T.value elements.old) (map T.value elements.new) window reversal }
{
    if is_few(window.len) {
        return_by_direction!(O, T => reverse_few::<_, T>(elements, window));
    }
    let mut accessor = Exclusive::new(elements);
    O::block_reverse::<Exclusive<T>>(&mut accessor, window);
}

/// [`reverse_in`] of few bits, as a word.
fn reverse_few<W: WordOrder, T: BitStore>(elements: &mut [T], window: Window)
    requires window { HasWindow T.BITS (map T.value elements.old) window }
    requires few { window.len ≤ 64 }
    ensures writes { Edits T.BITS W.at (map T.value elements.old) (map T.value elements.new) window reversal }
{
    let word = reversed::<W, u64>(load_parts::<W, Shared<T>>(&mut Shared::new(&*elements), window));
    // the bits of the window are the last ones now
    let mirrored = moved::<W, u64, u64>(word, WORD_BITS - window.len, window.len, 0);
    store_parts::<W, Exclusive<T>>(&mut Exclusive::new(elements), window, mirrored);
}
