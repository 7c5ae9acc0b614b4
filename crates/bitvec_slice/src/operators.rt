//! The operators `!`, `&=`, `|=` and `^=` of writable views.
ghost use Rattle.std.specs.Prelude.{map, not};
ghost use Rattle.bitvec_base.specs.Lists.{combined};
ghost use Rattle.bitvec_words.specs.Operator.{operator};
ghost use Rattle.bitvec_words.specs.declared.operator.BitOp.TheVariants.{And, Or, Xor};
ghost use Rattle.bitvec_slice.specs.Views.{seen, seen_mut};
ghost use Rattle.bitvec_slice.specs.Writes.{WritesBits};

use crate::{BitSlice, BitSliceMut};
use bitvec_base::BitOrder;
use bitvec_elements::{combine_block_in, invert_in};
use bitvec_engine::SliceOrder;
use bitvec_store::BitStore;
use bitvec_words::BitOp;
use std::ops::{BitAndAssign, BitOrAssign, BitXorAssign, Not};

impl<'a, T: BitStore, O: BitOrder> Not for BitSliceMut<'a, T, O> {
    type Output = BitSliceMut<'a, T, O>;

    ghost not_gives = { λ before after. WritesBits before after (map not (seen_mut before).bits) };

    /// Flips each bit, and gives the view back.
    fn not(mut self) -> BitSliceMut<'a, T, O> {
        flip(&mut self);
        self
    }
}

fn flip<T: BitStore, O: BitOrder>(view: &mut BitSliceMut<'_, T, O>)
    ensures { WritesBits view.old view.new (map not (seen_mut view.old).bits) }
{
    let window = view.window();
    invert_in::<T, O>(view.elements_mut(), window);
}

impl<'a, 'b, T: BitStore, O: SliceOrder> BitAndAssign<BitSlice<'b, T, O>>
    for BitSliceMut<'a, T, O> {
    ghost bitand_assign_gives = { λ before rhs after. WritesBits before after
        (combined (operator And) (seen_mut before).bits (seen rhs).bits) };

    /// Clears each bit where the one at its index in `rhs` is 0 or past its end.
    fn bitand_assign(&mut self, rhs: BitSlice<'b, T, O>) {
        combine(self, rhs, BitOp::And);
    }
}

impl<'a, 'b, T: BitStore, O: SliceOrder> BitOrAssign<BitSlice<'b, T, O>> for BitSliceMut<'a, T, O> {
    ghost bitor_assign_gives = { λ before rhs after. WritesBits before after
        (combined (operator Or) (seen_mut before).bits (seen rhs).bits) };

    /// Sets each bit where the one at its index in `rhs` is 1.
    fn bitor_assign(&mut self, rhs: BitSlice<'b, T, O>) {
        combine(self, rhs, BitOp::Or);
    }
}

impl<'a, 'b, T: BitStore, O: SliceOrder> BitXorAssign<BitSlice<'b, T, O>>
    for BitSliceMut<'a, T, O> {
    ghost bitxor_assign_gives = { λ before rhs after. WritesBits before after
        (combined (operator Xor) (seen_mut before).bits (seen rhs).bits) };

    /// Flips each bit where the one at its index in `rhs` is 1.
    fn bitxor_assign(&mut self, rhs: BitSlice<'b, T, O>) {
        combine(self, rhs, BitOp::Xor);
    }
}

fn combine<T: BitStore, O: SliceOrder>(
    view: &mut BitSliceMut<'_, T, O>,
    src: BitSlice<'_, T, O>,
    op: BitOp,
)
    ensures { WritesBits view.old view.new
        (combined (operator op) (seen_mut view.old).bits (seen src.entry).bits) }
{
    let window = view.window();
    let from = src.window();
    combine_block_in::<T, O>(view.elements_mut(), window, src.elements(), from, op);
}
