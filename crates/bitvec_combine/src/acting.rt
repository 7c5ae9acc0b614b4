//! What is done with the elements of a window, given the bits at their indices of another window.
ghost use Rattle.std.specs.Prelude.{◌≡◌, ◌/◌, ℕ, ◌+◌, ◌*◌, ◌<◌, ◌≤◌, List, Bool, true, [], ◌++◌, length, slice_range};
ghost use Rattle.bitvec_base.specs.declared.window.Window.{Window as Bits};
ghost use Rattle.bitvec_base.specs.Memory.{HasWindow, element_bits};
ghost use Rattle.bitvec_base.specs.Parts.{HasPart, part_window};
ghost use Rattle.bitvec_combine.specs.Acts.{IsCut};

use bitvec_base::{BitOrder, Part};
use bitvec_cells::CellsRead;

/// An act on the elements of a window, from the first one on.
pub trait Act<C: CellsRead>: Copy + Drop {
    // What was done with a window, given as many bits: the accessor before and after, and the act.
    ghost Done: { (ℕ → ℕ → ℕ) → C → C → Bits → List Bool → Self → Self → Type 0 };

    // Whether nothing is left to be done.
    ghost stopped: { Self → Bool };

    /// After how many whole elements the act is asked whether it stops; 0 if it never does.
    #[inline(always)]
    fn span() -> usize {
        0
    }

    /// On how many whole elements it acts in a turn of a loop in which each other one is joined of two; 0 if the compiler is
    /// to choose.
    #[inline(always)]
    fn turn() -> usize {
        0
    }

    /// Whether nothing is left to be done.
    fn stops(&self) -> bool
        ensures { result ≡ stopped self.now };

    /// Acts on a whole element, given another.
    fn whole<O: BitOrder>(&mut self, cells: &mut C, index: usize, other: C::Elem)
        requires { index < length (C.numbers cells.old) }
        ensures { Done O.at cells.old cells.new (record { start = index * C.Elem.BITS; len = C.Elem.BITS })
            (element_bits C.Elem.BITS O.at (C.Elem.value other)) self.old self.new };

    /// Acts on a part of an element that isn't empty, given another element, of which it takes the bits at the same
    /// indices.
    fn part<O: BitOrder>(&mut self, cells: &mut C, part: Part, other: C::Elem)
        requires part { HasPart C.Elem.BITS (C.numbers cells.old) part }
        requires some { part.from < part.to }
        ensures { Done O.at cells.old cells.new (part_window C.Elem.BITS part)
            (slice_range (element_bits C.Elem.BITS O.at (C.Elem.value other)) part.from part.to) self.old self.new };

    // nothing was done
    ghost empty_law: { (at : ℕ → ℕ → ℕ) (c : C) (window : Bits) (s : Self)
        → HasWindow C.Elem.BITS (C.numbers c) window → window.len ≡ 0 → Done at c c window [] s s };

    // a window is done by its two parts
    ghost join_law: { (at : ℕ → ℕ → ℕ) (c d e : C) (whole first second : Bits) (list other : List Bool) (s t u : Self)
        → HasWindow C.Elem.BITS (C.numbers c) whole → IsCut C.Elem.BITS whole first second
        → Done at c d first list s t → Done at d e second other t u → Done at c e whole (list ++ other) s u };

    // where the act stops, all is done
    ghost stop_law: { (at : ℕ → ℕ → ℕ) (c d : C) (whole first : Bits) (list other : List Bool) (s t : Self)
        → HasWindow C.Elem.BITS (C.numbers c) whole → first.start ≡ whole.start → whole.len ≡ first.len + length other
        → stopped t ≡ true → Done at c d first list s t → Done at c d whole (list ++ other) s t };

    // there are as many elements as before
    ghost kept_law: { (at : ℕ → ℕ → ℕ) (c d : C) (window : Bits) (list : List Bool) (s t : Self)
        → Done at c d window list s t → length (C.numbers d) ≡ length (C.numbers c) };
}

/// How many spans of `span` elements are in `count` elements; none if `span` is 0.
#[inline(always)]
pub(crate) fn spans_in(count: usize, span: usize) -> usize
    ensures is { result ≡ count / span }
    ensures fits { result * span ≤ count }
{
    count.checked_div(span).unwrap_or(0)
}
