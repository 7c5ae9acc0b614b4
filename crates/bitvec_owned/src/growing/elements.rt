//! The elements of a sequence get more bits at their end, or lose the last ones.
ghost use Rattle.std.specs.Prelude.{◌≡◌, ◌+◌, ◌-◌, ◌*◌, ◌<◌, ◌≤◌, ◌++◌, OnErr, OnOk, if◌then◌else◌, is_ok, length, map, replicate, take, vec_capacity, vec_len};
ghost use Rattle.std.specs.Int.{div_ceil};
ghost use Rattle.bitvec_base.specs.Memory.{memory_bits};
ghost use Rattle.bitvec_base.specs.Window.{max_bits, write_at};
ghost use Rattle.bitvec_owned.specs.Fronts.{LeavesFront};
ghost use Rattle.bitvec_owned.specs.Owned.{rest_bits, usable_bits};

use crate::counts::{most_elements, room_for};
use bitvec_base::{BitOrder, MAX_BITS, Part, elements_of};
use bitvec_cells::{Exclusive, fill_part};
use bitvec_slice::phase_of;
use bitvec_store::BitStore;
use std::alloc::{AllocError, Allocator};

/// Makes the elements just those that the bits up to `end` touch. Those that are added have each bit `bit`. An error where
/// memory is refused or they would have more than `MAX_BITS` bits; they are as before then.
#[inline(always)]
pub(crate) fn make_room<T: BitStore, A: Allocator>(
    elements: &mut Vec<T, A>,
    end: usize,
    bit: bool,
) -> Result<(), AllocError>
    ensures items { elements.new.items ≡ (if is_ok result then take (div_ceil end T.BITS) elements.old.items ++ replicate (div_ceil end T.BITS - vec_len elements.old) (if bit then T.ALL else T.ZERO) else elements.old.items) }
    ensures len { vec_len elements.new ≡ (if is_ok result then div_ceil end T.BITS else vec_len elements.old) }
    ensures fits { OnOk result (T.BITS * vec_len elements.new ≤ max_bits) }
    ensures inside { OnOk result (end ≤ T.BITS * vec_len elements.new) }
    ensures full { OnErr result (usable_bits T.BITS (vec_capacity elements.old) < end) }
    ensures capacity { usable_bits T.BITS (vec_capacity elements.old) ≤ usable_bits T.BITS (vec_capacity elements.new) }
{
    let count = room_for::<T>(end)?;
    // Of a value that is known at compile time, the elements are written by wide stores.
    if bit {
        elements.resize(count, T::ALL)
    } else {
        elements.resize(count, T::ZERO)
    }
}

/// [`make_room`] for one bit behind the first `end`, with elements that are 0.
pub(crate) fn make_room_for_bit<T: BitStore, A: Allocator>(
    elements: &mut Vec<T, A>,
    end: usize,
) -> Result<(), AllocError>
    requires touched { vec_len elements.old ≡ div_ceil end T.BITS }
    requires bounded { T.BITS * vec_len elements.old ≤ max_bits }
    ensures items { elements.new.items ≡ (if is_ok result then take (div_ceil (end + 1) T.BITS) elements.old.items ++ replicate (div_ceil (end + 1) T.BITS - vec_len elements.old) T.ZERO else elements.old.items) }
    ensures len { vec_len elements.new ≡ (if is_ok result then div_ceil (end + 1) T.BITS else vec_len elements.old) }
    ensures fits { OnOk result (T.BITS * vec_len elements.new ≤ max_bits) }
    ensures inside { OnOk result (end < T.BITS * vec_len elements.new) }
    ensures full { OnErr result (usable_bits T.BITS (vec_capacity elements.old) ≤ end) }
    ensures capacity { usable_bits T.BITS (vec_capacity elements.old) ≤ usable_bits T.BITS (vec_capacity elements.new) }
{
    if phase_of::<T>(end) != 0 {
        return Ok(());
    }
    if elements.len() >= most_elements::<T>() {
        return Err(AllocError);
    }
    elements.push(T::ZERO)?;
    Ok(())
}

/// Makes the bits of an element from a place in it on `bit`: none where an element begins there. It stores at most one
/// element. Condition: the place lies in the memory or at its end, which has at most `MAX_BITS` bits.
pub(crate) fn fill_rest<T: BitStore, O: BitOrder>(elements: &mut [T], place: usize, bit: bool)
    requires inside { place ≤ T.BITS * length elements.old }
    requires bounded { T.BITS * length elements.old ≤ max_bits }
    ensures bits { memory_bits T.BITS O.at (map T.value elements.new)
        ≡ write_at (memory_bits T.BITS O.at (map T.value elements.old)) place (replicate (rest_bits T.BITS place) bit) }
    ensures len { length elements.new ≡ length elements.old }
{
    let from = phase_of::<T>(place);
    if from == 0 {
        return;
    }
    let part = Part {
        element: elements_of::<T>(place),
        from,
        to: T::BITS as usize,
    };
    fill_part::<O, Exclusive<T>>(&mut Exclusive::new(elements), part, bit);
}

/// Adds so many of one bit behind the first `end`. An error where memory is refused and for more than `MAX_BITS` bits; the
/// elements are as before then.
#[inline(never)]
pub(crate) fn put_same<T: BitStore, O: BitOrder, A: Allocator>(
    elements: &mut Vec<T, A>,
    end: usize,
    count: usize,
    bit: bool,
) -> Result<(), AllocError>
    requires touched { vec_len elements.old ≡ div_ceil end T.BITS }
    requires bounded { T.BITS * vec_len elements.old ≤ max_bits }
    ensures left { OnOk result (LeavesFront T.BITS O.at T.value elements.old.items elements.new.items end (take end (memory_bits T.BITS O.at (map T.value elements.old.items)) ++ replicate count bit)) }
    ensures kept { OnErr result ((elements.new.items ≡ elements.old.items) × (usable_bits T.BITS (vec_capacity elements.old) < end + count)) }
    ensures len { vec_len elements.new ≡ (if is_ok result then div_ceil (end + count) T.BITS else vec_len elements.old) }
    ensures fits { T.BITS * vec_len elements.new ≤ max_bits }
    ensures capacity { usable_bits T.BITS (vec_capacity elements.old) ≤ usable_bits T.BITS (vec_capacity elements.new) }
{
    if count > MAX_BITS {
        return Err(AllocError);
    }
    make_room(elements, end + count, bit)?;
    let slice = elements.as_mut_slice();
    fill_rest::<T, O>(slice, end, bit);
    fill_rest::<T, O>(slice, end + count, false);
    Ok(())
}

/// Drops the last element where the bits up to `end` don't touch it. They and one bit more touch all elements.
pub(crate) fn drop_untouched<T: BitStore, A: Allocator>(elements: &mut Vec<T, A>, end: usize)
    requires touched { vec_len elements.old ≡ div_ceil (end + 1) T.BITS }
    ensures items { elements.new.items ≡ take (div_ceil end T.BITS) elements.old.items }
    ensures len { vec_len elements.new ≡ div_ceil end T.BITS }
    ensures capacity { vec_capacity elements.new ≡ vec_capacity elements.old }
{
    if phase_of::<T>(end) == 0 {
        elements.take_last();
    }
}
