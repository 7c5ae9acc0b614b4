//! The table of the splits: what a call asks about, and what it gives and keeps.
ghost use Rattle.std.specs.Prelude.{◌<◌, IfSome};
ghost use Rattle.bitvec_slice.specs.Views.{seen};
ghost use Rattle.bitvec_domain.specs.Predicates.{Asked, MayAsk};
ghost use Rattle.bitvec_split.specs.Splits.{IsCutBy, LieBeside, asked_of, left_of_row, row_of};

use crate::SplitKind;
use crate::asking::{ask_down, ask_up};
use crate::kinds::{asked_behind, end_of};
use bitvec_base::BitOrder;
use bitvec_slice::BitSlice;
use bitvec_store::BitStore;
use std::ops::Range;

/// The index at which `pred` says yes first, asked as a call from the front of these bits asks, or as one
/// from the `back`. `bitvec` has no such call.
#[doc(hidden)]
#[tactic(auto, using(bitvec_domain::specs::PredicatesLaws::may_ask_of_fewer))]
pub fn ask_row<W: SplitKind, T: BitStore, O: BitOrder, P: FnMut(usize, &bool) -> bool>(
    bits: BitSlice<'_, T, O>,
    back: bool,
    pred: &mut P,
) -> Option<usize>
    requires { MayAsk P.FnMut (seen bits).window.len pred.old }
    ensures asked { Asked P.FnMut (seen bits.entry).bits pred.old (row_of W.INCLUSIVE back (seen bits.entry).window.len).asks result pred.new }
    ensures callable { IfSome result (λ index. MayAsk P.FnMut (left_of_row W.INCLUSIVE back (seen bits.entry).window.len index) pred.new) }
    ensures inside { IfSome result (λ index. index < asked_of W.INCLUSIVE back (seen bits.entry).window.len) }
{
    if back {
        ask_down(bits, asked_behind::<W>(bits.len()), pred)
    } else {
        ask_up(bits, pred)
    }
}

/// The piece that such a call gives of `len` bits, where the yes was at `index`, and what is left. Condition:
/// the call may ask about that index. `bitvec` has no such call.
#[doc(hidden)]
pub fn cut_row<W: SplitKind>(len: usize, back: bool, index: usize) -> (Range<usize>, Range<usize>)
    requires { index < asked_of W.INCLUSIVE back len }
    ensures row { IsCutBy (row_of W.INCLUSIVE back len) index result.0 result.1 }
    ensures beside { LieBeside len result.0 result.1 }
{
    if back {
        (index + 1..len, 0..end_of::<W>(index))
    } else {
        (0..end_of::<W>(index), index + 1..len)
    }
}
