//! A window in two, split where an element begins.
ghost use Rattle.std.specs.Prelude.{◌≡◌, ◌≢◌, ◌+◌, ◌-◌, ◌/◌, ◌%◌, ◌^◌, ◌<◌};
ghost use Rattle.std.specs.Int.{div_ceil};
ghost use Rattle.bitvec_base.specs.Parts.{first_part_of, part_window};
ghost use Rattle.bitvec_base.specs.Window.{window_after};
ghost use Rattle.bitvec_cells.specs.Cost.{touched_count};
ghost use Rattle.bitvec_words.specs.Elements.{elements_window};
ghost use Rattle.bitvec_words.specs.Split.{IsPart, Split};

use bitvec_base::{Part, Window};
use bitvec_store::BitStore;

/// The part of a window's first element, and the window behind it. Condition: the window isn't empty, and its end
/// is a `usize`.
#[inline(always)]
pub(crate) fn split_head<T: BitStore>(window: Window) -> (Part, Window)
    requires some { 0 < window.len }
    requires end { window.start + window.len < 2 ^ 64 }
    ensures split { Split T.BITS (part_window T.BITS result.0) result.1 window }
    ensures part { IsPart T.BITS result.0 }
    ensures touched { touched_count T.BITS window.start window.len
        ≡ 1 + touched_count T.BITS result.1.start result.1.len }
    ensures is_first { result.0 ≡ first_part_of T.BITS window }
    ensures is_behind { result.1 ≡ window_after (result.0.to - result.0.from) window }
{
    let head = window.first_part::<T>();
    (head, window.after(head.len()))
}

/// The whole elements of a window that begins where one does, as the first and how many they are, and the part
/// behind them, which may be empty. Condition: the window's end is a `usize`.
#[inline(always)]
pub(crate) fn split_tail<T: BitStore>(window: Window) -> (usize, usize, Part)
    requires edge { window.start % T.BITS ≡ 0 }
    requires end { window.start + window.len < 2 ^ 64 }
    ensures split { Split T.BITS (elements_window T.BITS result.0 result.1) (part_window T.BITS result.2) window }
    ensures part { result.2.to ≢ 0 → IsPart T.BITS result.2 }
    ensures whole { result.2.to ≡ 0 → touched_count T.BITS window.start window.len ≡ result.1 }
    ensures more { result.2.to ≢ 0 → touched_count T.BITS window.start window.len ≡ result.1 + 1 }
{
    let (first, count) = window.whole_elements::<T>();
    (first, count, window.tail_part::<T>())
}

/// The elements that a window touches which is empty or begins where one does, as the first and how many they are.
#[inline(always)]
pub(crate) fn elements_from_edge<T: BitStore>(window: Window) -> (usize, usize)
    ensures { result ≡ (window.start / T.BITS, div_ceil window.len T.BITS) }
{
    (window.element::<T>(), window.len.div_ceil(T::BITS as usize))
}
