//! Slots that are free or taken, a bit each.
ghost use Rattle.std.specs.Prelude.{◌≡◌, ◌+◌, ◌-◌, ◌<◌, IfNone, IfSome, Some, None, false, true, slice_index_or, slice_set};
ghost use Rattle.bitvec.specs.Lists.{first_place};
ghost use Rattle.bitvec.specs.Views.{seen_mut};
ghost use Rattle.bitvec_array_examples.specs.Slots.{taken_in};

use bitvec::prelude::*;

/// Takes the first slot that is free, and gives it: its bit was the first 0 and is 1 now, every other
/// is as before, and one slot more is taken. With none free, nothing changes.
#[tactic(auto, using(bitvec::specs::Laws::found, bitvec::specs::Laws::counted))]
pub fn allocate<T: BitStore, O: SliceOrder>(slots: &mut BitSliceMut<'_, T, O>) -> Option<usize>
    ensures first { result ≡ first_place false (seen_mut slots.old).bits }
    ensures taken { IfSome result (λ slot. (seen_mut slots.new).bits ≡ slice_set (seen_mut slots.old).bits slot true) }
    ensures more { IfSome result (λ slot. taken_in slots.new ≡ taken_in slots.old + 1) }
    ensures full { IfNone result ((seen_mut slots.new).bits ≡ (seen_mut slots.old).bits) }
    ensures window { (seen_mut slots.new).window ≡ (seen_mut slots.old).window }
{
    let free = slots.first_zero()?;
    slots.set(free, true);
    Some(free)
}

/// Gives a slot back. Condition: it is one of the slots, and taken.
#[tactic(auto, using(bitvec::specs::Laws::counted))]
pub fn release<T: BitStore, O: SliceOrder>(slots: &mut BitSliceMut<'_, T, O>, slot: usize)
    requires bound { slot < (seen_mut slots.old).window.len }
    requires taken { slice_index_or (seen_mut slots.old).bits slot false ≡ true }
    ensures free { (seen_mut slots.new).bits ≡ slice_set (seen_mut slots.old).bits slot false }
    ensures fewer { taken_in slots.new ≡ taken_in slots.old - 1 }
{
    slots.set(slot, false);
}

#[test]
fn all_slots_are_taken(rt: HostRuntime) {
    let mut elements = [0u8];
    let mut slots = BitSliceMut::<u8, Lsb0>::from_slice_mut(&mut elements);
    slots.fill(true);
    assert!(rt; allocate(&mut slots) == None);
}
