//! Windows that begin at the same index of an element, copied by whole elements at once.
ghost use Rattle.std.specs.Prelude.{◌≡◌, ◌+◌, ◌-◌, ◌%◌, ◌≤◌, map};
ghost use Rattle.bitvec_base.specs.Spans.{HasSpan};
ghost use Rattle.bitvec_words.specs.Moves.{Copies};

use bitvec_base::{BitOrder, Window, elements_of};
use bitvec_cells::Exclusive;
use bitvec_store::BitStore;
use bitvec_words::store_part;

/// Copies the bits of the right window, which begins at the same index of an element, under any order.
/// Conditions: as for [`crate::copy_from_in`], and the windows have at least as many bits as an element.
pub(crate) fn copy_elements_in<T: BitStore, O: BitOrder>(
    left: &mut [T],
    to: Window,
    right: &[T],
    from: Window,
)
    requires span { HasSpan T.BITS (map T.value left.old) (map T.value right.now) to from }
    requires phases { to.start % T.BITS ≡ from.start % T.BITS }
    requires some { T.BITS ≤ to.len }
    ensures writes { Copies T.BITS O.at (map T.value left.old) (map T.value left.new) to (map T.value right.now) from }
{
    let (first, last) = whole_range::<T>(to);
    copy_part_in::<T, O>(left, to.range(0, first), right, from.range(0, first));
    copy_whole_in::<T, O>(left, to.range(first, last), right, from.range(first, last));
    let (place, source) = (to.range(last, to.len), from.range(last, to.len));
    copy_part_in::<T, O>(left, place, right, source);
}

/// The whole elements of a window, as a range of its bits. Condition: the window has as many bits as an element, or more.
#[inline(always)]
fn whole_range<T: BitStore>(window: Window) -> (usize, usize)
    requires { T.BITS ≤ window.len }
    ensures front { window.start % T.BITS + result.0 ≤ T.BITS }
    ensures edge { (window.start + result.0) % T.BITS ≡ 0 }
    ensures order { result.0 ≤ result.1 }
    ensures bound { result.1 ≤ window.len }
    ensures whole { (result.1 - result.0) % T.BITS ≡ 0 }
    ensures back { (window.start + result.1) % T.BITS ≡ 0 }
    ensures rest { window.len ≤ result.1 + T.BITS }
{
    let bits = T::BITS as usize;
    let first = (bits - window.start % bits) % bits;
    (first, window.len - (window.len - first) % bits)
}

/// Copies whole elements.
#[inline(always)]
pub(crate) fn copy_whole_in<T: BitStore, O: BitOrder>(
    left: &mut [T],
    to: Window,
    right: &[T],
    from: Window,
)
    requires span { HasSpan T.BITS (map T.value left.old) (map T.value right.now) to from }
    requires edge { to.start % T.BITS ≡ 0 }
    requires right_edge { from.start % T.BITS ≡ 0 }
    requires whole { to.len % T.BITS ≡ 0 }
    ensures writes { Copies T.BITS O.at (map T.value left.old) (map T.value left.new) to (map T.value right.now) from }
{
    let (first, source) = (to.element::<T>(), from.element::<T>());
    let count = elements_of::<T>(to.len);
    left[first..first + count].copy_from_slice(&right[source..source + count]);
}

/// Copies bits of one element, possibly none, to the same indices of another.
fn copy_part_in<T: BitStore, O: BitOrder>(left: &mut [T], to: Window, right: &[T], from: Window)
    requires span { HasSpan T.BITS (map T.value left.old) (map T.value right.now) to from }
    requires phases { to.start % T.BITS ≡ from.start % T.BITS }
    requires part { to.start % T.BITS + to.len ≤ T.BITS }
    ensures writes { Copies T.BITS O.at (map T.value left.old) (map T.value left.new) to (map T.value right.now) from }
{
    if to.len == 0 {
        return;
    }
    let part = to.first_part::<T>();
    let element = right[from.element::<T>()];
    let mut cells = Exclusive::new(left);
    store_part::<O, Exclusive<T>>(&mut cells, part, element);
}
