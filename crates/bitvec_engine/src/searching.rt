//! Whether a window has a bit, every bit, or the bits of another window, the needle.
ghost use Rattle.std.specs.Prelude.{◌≡◌, ◌+◌, ◌-◌};
ghost use Rattle.std.specs.List.{list_any, list_all};
ghost use Rattle.bitvec_base.specs.Lists.{is_prefix, is_suffix, stands_in};
ghost use Rattle.bitvec_base.specs.Memory.{HasWindow, list_in};
ghost use Rattle.bitvec_cells.specs.Access.{OnlyReadsAtMost};
ghost use Rattle.bitvec_cells.specs.Cost.{needle_loads, touched_count};

use crate::slice_order::SliceOrder;
use bitvec_base::Window;
use bitvec_cells::CellsRead;
use bitvec_store::BitStore;

/// Whether a bit of a window is 1; none of an empty window's is. Condition: as for [`SliceOrder::find_first`]. It
/// loads each element that the window touches at most once.
pub fn any<O: SliceOrder, C: CellsRead>(cells: &mut C, window: Window) -> bool
    requires { HasWindow C.Elem.BITS (C.numbers cells.old) window }
    ensures value { result ≡ list_any (λ bit. bit) (list_in C.Elem.BITS O.at (C.numbers cells.old) window) }
    ensures reads { OnlyReadsAtMost C.CellsRead cells.old cells.new (touched_count C.Elem.BITS window.start window.len) }
{
    O::find_first::<C>(cells, window, true).is_some()
}

/// Whether every bit of a window is 1; an empty window's are. Condition: as for [`SliceOrder::find_first`]. It loads
/// each element that the window touches at most once.
pub fn all<O: SliceOrder, C: CellsRead>(cells: &mut C, window: Window) -> bool
    requires { HasWindow C.Elem.BITS (C.numbers cells.old) window }
    ensures value { result ≡ list_all (λ bit. bit) (list_in C.Elem.BITS O.at (C.numbers cells.old) window) }
    ensures reads { OnlyReadsAtMost C.CellsRead cells.old cells.new (touched_count C.Elem.BITS window.start window.len) }
{
    O::find_first::<C>(cells, window, false).is_none()
}

/// Whether the needle's bits begin those of the window: `starts_with` of `bitvec`. Condition: each memory has at most
/// `MAX_BITS` bits, and each window lies in its memory. It takes one equality of the needle's bits, and no load where
/// these are more.
pub fn starts_with<O: SliceOrder, C: CellsRead, D: CellsRead<Elem = C::Elem>>(
    cells: &mut C,
    window: Window,
    right: &mut D,
    needle: Window,
) -> bool
    requires window { HasWindow C.Elem.BITS (C.numbers cells.old) window }
    requires right_window { HasWindow C.Elem.BITS (D.numbers right.old) needle }
    ensures value { result ≡ is_prefix (list_in C.Elem.BITS O.at (D.numbers right.old) needle)
        (list_in C.Elem.BITS O.at (C.numbers cells.old) window) }
    ensures reads { OnlyReadsAtMost C.CellsRead cells.old cells.new (needle_loads C.Elem.BITS O.WORDS window.len needle.len 1) }
    ensures right { OnlyReadsAtMost D.CellsRead right.old right.new (needle_loads C.Elem.BITS O.WORDS window.len needle.len 1) }
{
    needle.len <= window.len
        && O::block_eq::<C, D>(cells, window.range(0, needle.len), right, needle)
}

/// Whether the needle's bits end those of the window: `ends_with` of `bitvec`. Condition and loads: as for
/// [`starts_with`].
pub fn ends_with<O: SliceOrder, C: CellsRead, D: CellsRead<Elem = C::Elem>>(
    cells: &mut C,
    window: Window,
    right: &mut D,
    needle: Window,
) -> bool
    requires window { HasWindow C.Elem.BITS (C.numbers cells.old) window }
    requires right_window { HasWindow C.Elem.BITS (D.numbers right.old) needle }
    ensures value { result ≡ is_suffix (list_in C.Elem.BITS O.at (D.numbers right.old) needle)
        (list_in C.Elem.BITS O.at (C.numbers cells.old) window) }
    ensures reads { OnlyReadsAtMost C.CellsRead cells.old cells.new (needle_loads C.Elem.BITS O.WORDS window.len needle.len 1) }
    ensures right { OnlyReadsAtMost D.CellsRead right.old right.new (needle_loads C.Elem.BITS O.WORDS window.len needle.len 1) }
{
    needle.len <= window.len
        && O::block_eq::<C, D>(cells, window.after(window.len - needle.len), right, needle)
}

/// Whether the needle's bits stand in those of the window, from some index on: `contains` of `bitvec`. Condition: as
/// for [`starts_with`]. It takes at most one equality of the needle's bits at each index where they may stand, and no
/// load where there is no such index.
pub fn contains<O: SliceOrder, C: CellsRead, D: CellsRead<Elem = C::Elem>>(
    cells: &mut C,
    window: Window,
    right: &mut D,
    needle: Window,
) -> bool
    requires window { HasWindow C.Elem.BITS (C.numbers cells.old) window }
    requires right_window { HasWindow C.Elem.BITS (D.numbers right.old) needle }
    ensures value { result ≡ stands_in (list_in C.Elem.BITS O.at (D.numbers right.old) needle)
        (list_in C.Elem.BITS O.at (C.numbers cells.old) window) }
    ensures reads { OnlyReadsAtMost C.CellsRead cells.old cells.new
        (needle_loads C.Elem.BITS O.WORDS window.len needle.len (window.len - needle.len + 1)) }
    ensures right { OnlyReadsAtMost D.CellsRead right.old right.new
        (needle_loads C.Elem.BITS O.WORDS window.len needle.len (window.len - needle.len + 1)) }
{
    for from in 0..(window.len + 1).saturating_sub(needle.len) {
        let part = window.range(from, from + needle.len);
        if O::block_eq::<C, D>(cells, part, right, needle) {
            return true;
        }
    }
    false
}
