//! Edits of a window of a slice: a closure answers what each bit becomes.
ghost use Rattle.std.specs.Prelude.{Bool, List, map};
ghost use Rattle.bitvec_base.specs.Memory.{HasWindow, Writes, list_in};
ghost use Rattle.bitvec_domain.specs.Asked.{CallableBelow, CallableOnBits, FillsWith, RefillsWith};

use bitvec_base::{BitOrder, Window};
use bitvec_cells::{Exclusive, get_bit, replace_bit};
use bitvec_store::BitStore;

/// Makes each bit of a window what `f` answers for its index, from the first one on. Condition: the
/// memory has at most `MAX_BITS` bits, and the window lies in it.
pub fn fill_with_in<T: BitStore, O: BitOrder, F: FnMut(usize) -> bool>(
    elements: &mut [T],
    window: Window,
    mut f: F,
)
    requires window { HasWindow T.BITS (map T.value elements.old) window }
    requires callable { CallableBelow F.FnMut f window.len }
    ensures writes { (new : List Bool) × FillsWith F.FnMut f new
        × Writes T.BITS O.at (map T.value elements.old) (map T.value elements.new) window new }
{
    let mut accessor = Exclusive::new(elements);
    for index in 0..window.len {
        let bit = f(index);
        replace_bit::<O, Exclusive<T>>(&mut accessor, window, index, bit);
    }
}

/// Makes each bit of a window what `f` answers for its index and the bit there, from the first one
/// on. Condition: as for [`fill_with_in`].
pub fn for_each_in<T: BitStore, O: BitOrder, F: FnMut(usize, bool) -> bool>(
    elements: &mut [T],
    window: Window,
    mut f: F,
)
    requires window { HasWindow T.BITS (map T.value elements.old) window }
    requires callable { CallableOnBits F.FnMut f (list_in T.BITS O.at (map T.value elements.old) window) }
    ensures writes { (new : List Bool) × RefillsWith F.FnMut f (list_in T.BITS O.at (map T.value elements.old) window) new
        × Writes T.BITS O.at (map T.value elements.old) (map T.value elements.new) window new }
{
    let mut accessor = Exclusive::new(elements);
    for index in 0..window.len {
        let bit = get_bit::<O, Exclusive<T>>(&mut accessor, window, index);
        let answer = f(index, bit);
        replace_bit::<O, Exclusive<T>>(&mut accessor, window, index, answer);
    }
}
