//! A predicate is asked about the bits of a view, in turn, until it says yes.
ghost use Rattle.std.specs.Prelude.{◌+◌, ◌-◌, ◌<◌, ◌≤◌, IfSome};
ghost use Rattle.bitvec_slice.specs.Views.{seen};
ghost use Rattle.bitvec_domain.specs.Predicates.{Asked, MayAsk, MayAskTimes, downward, upward};

use bitvec_base::BitOrder;
use bitvec_slice::BitSlice;
use bitvec_store::BitStore;

/// The first index about which `pred` says yes. It is asked about the indices in ascending order, and
/// about none behind that. `bitvec` has no such call.
#[doc(hidden)]
pub fn ask_up<T: BitStore, O: BitOrder, P: FnMut(usize, &bool) -> bool>(
    bits: BitSlice<'_, T, O>,
    pred: &mut P,
) -> Option<usize>
    requires { MayAsk P.FnMut (seen bits).window.len pred.old }
    ensures asked { Asked P.FnMut (seen bits.entry).bits pred.old (upward (seen bits.entry).window.len) result pred.new }
    ensures callable { IfSome result (λ index. MayAskTimes P.FnMut (seen bits.entry).window.len ((seen bits.entry).window.len - (index + 1)) pred.new) }
    ensures inside { IfSome result (λ index. index < (seen bits.entry).window.len) }
{
    for index in 0..bits.len() {
        if pred(index, &bits[index]) {
            return Some(index);
        }
    }
    None
}

/// The last index below `end` about which `pred` says yes. It is asked about the indices in
/// descending order, and about none before that. Condition: the view has `end` bits. `bitvec` has no
/// such call.
#[doc(hidden)]
pub fn ask_down<T: BitStore, O: BitOrder, P: FnMut(usize, &bool) -> bool>(
    bits: BitSlice<'_, T, O>,
    end: usize,
    pred: &mut P,
) -> Option<usize>
    requires end { end ≤ (seen bits).window.len }
    requires callable { MayAsk P.FnMut (seen bits).window.len pred.old }
    ensures asked { Asked P.FnMut (seen bits.entry).bits pred.old (downward end) result pred.new }
    ensures callable { IfSome result (λ index. MayAskTimes P.FnMut (seen bits.entry).window.len ((seen bits.entry).window.len - (end - index)) pred.new) }
    ensures inside { IfSome result (λ index. index < end) }
{
    for last in (0..end).rev() {
        if pred(last, &bits[last]) {
            return Some(last);
        }
    }
    None
}
