//! What a caller knows of bits that a closure answered, where the closure may always be called.
ghost use Rattle.std.specs.Prelude.{◌≡◌, ◌%◌, ◌==◌, map};
ghost use Rattle.std.specs.List.{range_with_len};
ghost use Rattle.bitvec.specs.Asked.{FillsWith, RefillsWith};
ghost use Rattle.bitvec.specs.LentBits.{WritesLeft, bit_walk_of, bits_in_place, bits_to_come, past_bits};
ghost use Rattle.bitvec.specs.Views.{seen_mut};
ghost use Rattle.bitvec.specs.Writes.{WritesBits};

use bitvec::prelude::*;
use bitvec::slice::IterMut;

/// Makes each bit what `f` answers for its index, in ascending order.
#[tactic(auto, using(bitvec::specs::Laws::callable))]
pub fn filled_by<T: BitStore, O: SliceOrder, F: FnMut(usize) -> bool>(
    view: &mut BitSliceMut<'_, T, O>,
    f: F,
)
    requires { F.IsAlwaysCallable f }
    ensures answers { FillsWith F.FnMut f (seen_mut view.new).bits }
    ensures writes { WritesBits view.old view.new (seen_mut view.new).bits }
{
    view.fill_with(f);
}

/// Makes each bit what `f` answers for its index and the bit there, in ascending order.
#[tactic(auto, using(bitvec::specs::Laws::callable))]
pub fn refilled_by<T: BitStore, O: SliceOrder, F: FnMut(usize, bool) -> bool>(
    view: &mut BitSliceMut<'_, T, O>,
    f: F,
)
    requires { F.IsAlwaysCallable f }
    ensures answers { RefillsWith F.FnMut f (seen_mut view.old).bits (seen_mut view.new).bits }
    ensures writes { WritesBits view.old view.new (seen_mut view.new).bits }
{
    view.for_each(f);
}

/// Makes each bit of a walk behind the first `count` that are left what `f` answers: the bits of the walk's
/// view are known.
#[tactic(auto, using(bitvec::specs::Laws::callable))]
pub fn refill_behind<T: BitStore, O: BitOrder, F: FnMut(usize, bool) -> bool>(
    bits: &mut IterMut<'_, T, O>,
    count: usize,
    f: F,
)
    requires { F.IsAlwaysCallable f }
    ensures answers { RefillsWith F.FnMut f (bits_to_come (past_bits (bit_walk_of bits.old) count))
        (bits_in_place (past_bits (bit_walk_of bits.old) count) (bit_walk_of bits.new)) }
    ensures walk { WritesLeft (past_bits (bit_walk_of bits.old) count) (bit_walk_of bits.new)
        (bits_in_place (past_bits (bit_walk_of bits.old) count) (bit_walk_of bits.new)) }
{
    bits.pass(count);
    bits.for_each_bit_mut(f);
}

/// Makes the bits ones at even indices, and zeros at odd ones.
pub fn fill_even<T: BitStore, O: SliceOrder>(view: &mut BitSliceMut<'_, T, O>)
    ensures { (seen_mut view.new).bits ≡ map (λ index. index % 2 == 0) (range_with_len 0 (seen_mut view.old).window.len) }
{
    view.fill_with(|index| index % 2 == 0);
}

/// Sets one of five bits, then those whose index is even, and flips the first of them.
fn fill_five(byte: &mut [u8; 1]) {
    let mut five = BitSliceMut::<u8, Lsb0>::from_slice_mut(byte).into_part(0..5);
    filled_by(&mut five, |index| index == 3);
    fill_even(&mut five);
    refilled_by(&mut five, |index, bit| bit != (index == 0));
}

/// Clears the bits behind the first three.
fn clear_behind(view: &mut BitSliceMut<'_, u8, Lsb0>) {
    let mut bits = view.iter_mut();
    refill_behind(&mut bits, 3, |_index, _bit| false);
}

#[test]
fn bits_are_those_of_a_closure(rt: HostRuntime) {
    let mut byte = [0xE0u8];
    fill_five(&mut byte);
    assert!(rt; byte == [0xF4]);
    {
        let mut view = BitSliceMut::from_slice_mut(&mut byte);
        clear_behind(&mut view);
    }
    assert!(rt; byte == [0x04]);
}
