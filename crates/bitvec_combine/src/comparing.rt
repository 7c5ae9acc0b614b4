//! The bits of two windows compared, many at a time.
ghost use Rattle.std.specs.Prelude.{◌≡◌, ◌≢◌, ◌%◌, ◌<◌, ◌==◌, true, false, not, length};
ghost use Rattle.std.proofs.Common.{ap};
ghost use Rattle.bitvec_base.specs.Lists.{same_bits};
ghost use Rattle.bitvec_base.specs.Memory.{HasWindow, list_in};
ghost use Rattle.bitvec_base.specs.Spans.{HasSpan};
ghost use Rattle.bitvec_cells.specs.Access.{OnlyReadsAtMost};
ghost use Rattle.bitvec_cells.specs.Cost.{equal_loads, touched_count};
ghost use Rattle.bitvec_combine.specs.DifferLaws.{finds-both, finds-early, finds-none};
ghost use Rattle.bitvec_combine.specs.Sides.{FindsDifference};

use crate::tuning::{BITS_PER_SHORT_TEST, BITS_PER_TEST};
use crate::{Act, Equal, Phases, Shifted, act_phased, act_short};
use bitvec_base::{BitOrder, Part, Window, elements_of};
use bitvec_cells::CellsRead;
use bitvec_store::BitStore;
use bitvec_words::{WORD_BITS, WordOrder};

/// The act that gathers in an element each bit that differs, and stops soon after one: after so many bits tested, or
/// only behind all whole elements if these are 0.
#[derive(Clone, Copy)]
struct Differ<T: BitStore, const TESTED: usize> {
    found: T,
}

impl<T: BitStore, C: CellsRead<Elem = T>, const TESTED: usize> Act<C> for Differ<T, TESTED> {
    ghost Done = { λ at old new window list s t. FindsDifference C.CellsRead T.BITS at old new window list (T.value s.found) (T.value t.found) };

    ghost stopped = { λ s. not (T.value s.found == 0) };

    #[inline(always)]
    fn span() -> usize {
        elements_of::<T>(TESTED)
    }

    #[inline(always)]
    fn turn() -> usize {
        0
    }

    #[inline(always)]
    fn stops(&self) -> bool {
        !is_zero::<T>(self.found)
    }

    #[inline(always)]
    fn whole<O: BitOrder>(&mut self, cells: &mut C, index: usize, other: T) {
        other.in_range();
        let element = cells.load(index);
        self.found = self.found.or(element.xor(other));
    }

    #[inline(always)]
    fn part<O: BitOrder>(&mut self, cells: &mut C, part: Part, other: T) {
        other.in_range();
        let element = cells.load(part.element);
        let differing = element.xor(other).and(O::mask::<T>(part.from, part.to));
        self.found = self.found.or(differing);
    }

    ghost empty_law = { λ at c window s has none. finds-none C.CellsRead T.BITS at c window (T.value s.found) none };

    ghost join_law = { λ at c d e whole first second list other s t u.
        finds-both C.CellsRead T.BITS at c d e whole first second list other (T.value s.found) (T.value t.found) (T.value u.found) T.width_law };

    ghost stop_law = { λ at c d whole first list other s t.
        finds-early C.CellsRead T.BITS at c d whole first list other (T.value s.found) (T.value t.found) T.width_law };

    ghost kept_law = { λ at c d window list s t done. ap length done.reads.numbers };
}

/// Whether an element is 0, by its halves: a test of 128 bits as one number would keep a loop over
/// elements of 128 bits from vector instructions.
#[inline(always)]
fn is_zero<T: BitStore>(element: T) -> bool
    ensures { result ≡ (T.value element == 0) }
{
    let number = element.to_u128();
    let low = (number % (1 << WORD_BITS)) as u64;
    let high = (number >> WORD_BITS) as u64;
    low | high == 0
}

/// Whether two windows have the same bits. Condition: each memory has at most `MAX_BITS` bits, and
/// each window lies in its memory. On each side it loads each element that the window touches at
/// most once, and none where the windows aren't as long; it stops soon after the first bits that
/// differ.
#[tactic(auto, using(crate::specs::DifferLaws::compared))]
pub fn equal<O: WordOrder, C: CellsRead, D: CellsRead<Elem = C::Elem>>(
    left: &mut C,
    window: Window,
    right: &mut D,
    other: Window,
) -> bool
    requires window { HasWindow C.Elem.BITS (C.numbers left.old) window }
    requires right_window { HasWindow C.Elem.BITS (D.numbers right.old) other }
    ensures value { result ≡ same_bits (list_in C.Elem.BITS O.at (C.numbers left.old) window)
        (list_in C.Elem.BITS O.at (D.numbers right.old) other) }
    ensures reads { OnlyReadsAtMost C.CellsRead left.old left.new (equal_loads C.Elem.BITS true window.len other.len) }
    ensures right { OnlyReadsAtMost D.CellsRead right.old right.new (equal_loads C.Elem.BITS true window.len other.len) }
{
    if window.len != other.len {
        return false;
    }
    if window.len == 0 {
        return true;
    }
    if window.phase::<C::Elem>() == other.phase::<C::Elem>() {
        return equal_unshifted::<O, C, D>(left, window, right, other);
    }
    equal_in_phases::<O, C, D, Shifted, BITS_PER_TEST>(left, window, right, other)
}

/// Whether a window has the bits of one whose first bit has the same index in its element, under any
/// order. Condition: as for [`crate::equal`], the windows are as long, and aren't empty. It loads each
/// element that a window touches at most once.
#[inline(always)]
pub fn equal_unshifted<O: BitOrder, C: CellsRead, D: CellsRead<Elem = C::Elem>>(
    left: &mut C,
    window: Window,
    right: &mut D,
    other: Window,
) -> bool
    requires span { HasSpan C.Elem.BITS (C.numbers left.old) (D.numbers right.old) window other }
    requires some { 0 < window.len }
    requires phases { window.start % C.Elem.BITS ≡ other.start % C.Elem.BITS }
    ensures value { result ≡ same_bits (list_in C.Elem.BITS O.at (C.numbers left.old) window)
        (list_in C.Elem.BITS O.at (D.numbers right.old) other) }
    ensures reads { OnlyReadsAtMost C.CellsRead left.old left.new (touched_count C.Elem.BITS window.start window.len) }
    ensures right { OnlyReadsAtMost D.CellsRead right.old right.new (touched_count C.Elem.BITS other.start other.len) }
{
    if window.len < BITS_PER_TEST {
        return equal_in_phases::<O, C, D, Equal, BITS_PER_SHORT_TEST>(left, window, right, other);
    }
    equal_in_phases::<O, C, D, Equal, BITS_PER_TEST>(left, window, right, other)
}

/// Whether two windows have the same bits, with a test after each so many bits.
#[inline(always)]
fn equal_in_phases<
    O: BitOrder,
    C: CellsRead,
    D: CellsRead<Elem = C::Elem>,
    P: Phases<O>,
    const TESTED: usize,
>(left: &mut C, window: Window, right: &mut D, other: Window) -> bool
    requires span { HasSpan C.Elem.BITS (C.numbers left.old) (D.numbers right.old) window other }
    requires some { 0 < window.len }
    requires phases { (window.start % C.Elem.BITS == other.start % C.Elem.BITS) ≡ P.equal }
    ensures value { result ≡ same_bits (list_in C.Elem.BITS O.at (C.numbers left.old) window)
        (list_in C.Elem.BITS O.at (D.numbers right.old) other) }
    ensures reads { OnlyReadsAtMost C.CellsRead left.old left.new (touched_count C.Elem.BITS window.start window.len) }
    ensures right { OnlyReadsAtMost D.CellsRead right.old right.new (touched_count C.Elem.BITS other.start other.len) }
{
    C::Elem::fits_in_memory();
    let mut act = Differ::<C::Elem, TESTED> {
        found: C::Elem::ZERO,
    };
    act_phased::<O, C, D, Differ<C::Elem, TESTED>, P>(left, window, right, other, &mut act);
    is_zero::<C::Elem>(act.found)
}

/// Whether a window has the bits of one that is as long and begins at a different index of its element; neither is empty. Prefer
/// it where they are short: no test ends it early. Condition: as for [`crate::equal`]. It loads each element that a
/// window touches at most once.
#[inline(always)]
pub fn equal_shifted<O: WordOrder, C: CellsRead, D: CellsRead<Elem = C::Elem>>(
    left: &mut C,
    window: Window,
    right: &mut D,
    other: Window,
) -> bool
    requires span { HasSpan C.Elem.BITS (C.numbers left.old) (D.numbers right.old) window other }
    requires some { 0 < window.len }
    requires phases { (window.start % C.Elem.BITS == other.start % C.Elem.BITS) ≡ false }
    ensures value { result ≡ same_bits (list_in C.Elem.BITS O.at (C.numbers left.old) window)
        (list_in C.Elem.BITS O.at (D.numbers right.old) other) }
    ensures reads { OnlyReadsAtMost C.CellsRead left.old left.new (touched_count C.Elem.BITS window.start window.len) }
    ensures right { OnlyReadsAtMost D.CellsRead right.old right.new (touched_count C.Elem.BITS other.start other.len) }
{
    C::Elem::fits_in_memory();
    let mut act = Differ::<C::Elem, 0> {
        found: C::Elem::ZERO,
    };
    act_short::<O, C, D, Differ<C::Elem, 0>>(left, window, right, other, &mut act);
    is_zero::<C::Elem>(act.found)
}
