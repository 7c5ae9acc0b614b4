//! Whole elements joined to one word, of which a number is cut out.
ghost use Rattle.std.specs.Prelude.{◌≡◌, ◌+◌, ◌-◌, ◌*◌, ◌/◌, ◌%◌, ◌^◌, ◌<◌, ◌≤◌, if◌then◌else◌};
ghost use Rattle.bitvec_base.specs.Memory.{HasWindow, list_in};
ghost use Rattle.bitvec_cells.specs.Access.{OnlyReads};
ghost use Rattle.bitvec_segments.specs.Segments.{segment_number};
ghost use Rattle.bitvec_segments.specs.Windows.{FitsWord};
ghost use Rattle.bitvec_cells.specs.Cost.{touched_count};

use crate::part::bits_below;
use bitvec_base::Window;
use bitvec_cells::CellsRead;
use bitvec_store::BitStore;
use bitvec_words::{WORD_BITS, WordOrder};

/// The number of a window's bits, taken as one segment. Condition: the window isn't empty, lies in a
/// memory of at most `MAX_BITS` bits, and the elements that it touches have at most 64 bits, one alone
/// and together. It loads each of these once, and takes two shifts and one mask beside one shift an
/// element.
#[inline(always)]
pub(crate) fn joined_number<O: WordOrder, C: CellsRead>(cells: &mut C, window: Window) -> u64
    requires window { HasWindow C.Elem.BITS (C.numbers cells.old) window }
    requires word { FitsWord C.Elem.BITS window }
    ensures value { result ≡ segment_number O.HIGH (list_in C.Elem.BITS O.at (C.numbers cells.old) window) }
    ensures reads { OnlyReads C.CellsRead cells.old cells.new (touched_count C.Elem.BITS window.start window.len) }
{
    let (first, from) = (window.element::<C::Elem>(), window.phase::<C::Elem>());
    let mut word = cells.load(first).to_u128() as u64;
    let mut count = 1;
    let mut width = C::Elem::BITS as usize;
    while width < from + window.len {
        let next = cells.load(first + count);
        word = with_element::<O, C::Elem>(word, width, next);
        count += 1;
        width += C::Elem::BITS as usize;
    }
    let below = bits_below::<O>(width, from, from + window.len);
    (word >> below) & (u64::MAX >> (WORD_BITS - window.len))
}

/// The number of `width` bits and of those of one more element behind them. Condition: there are some, they are at most
/// 64 together, and the numbers have no more bits.
#[inline(always)]
fn with_element<O: WordOrder, T: BitStore>(word: u64, width: usize, next: T) -> u64
    requires some { 0 < width }
    requires bound { width + T.BITS ≤ 64 }
    requires word { word < 2 ^ width }
    ensures { result ≡ (if O.HIGH then word * 2 ^ T.BITS + T.value next else T.value next * 2 ^ width + word) }
{
    with_next::<O>(word, width, next.to_u128() as u64, T::BITS as usize)
}

/// The number of `width` bits and of `bits` more behind them. Condition: they are at most 64, `bits` is below 64 and some,
/// and the numbers have no more bits. `bitvec` has no such call.
#[doc(hidden)]
#[tactic(auto, using(crate::proofs::JoinedWindow::moved_kept, crate::proofs::JoinedWindow::joined_fits))]
#[inline(always)]
pub fn with_next<O: WordOrder>(word: u64, width: usize, next: u64, bits: usize) -> u64
    requires some { 0 < bits }
    requires narrow { bits < 64 }
    requires bound { width + bits ≤ 64 }
    requires word { word < 2 ^ width }
    requires next { next < 2 ^ bits }
    ensures { result ≡ (if O.HIGH then word * 2 ^ bits + next else next * 2 ^ width + word) }
{
    if O::HIGH {
        (word << bits) + next
    } else {
        (next << width) + word
    }
}
