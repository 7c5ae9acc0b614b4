//! Repeats of views.
ghost use Rattle.std.specs.Prelude.{◌≡◌, ◌*◌, ◌<◌, ◌≤◌, ◌↔◌, IfOk, IsErrOf, IsOk, length, map};
ghost use Rattle.std.specs.List.{repeat};
ghost use Rattle.bitvec_base.specs.Memory.{memory_bits};
ghost use Rattle.bitvec_base.specs.Window.{max_bits, write_at};
ghost use Rattle.bitvec_owned.specs.Copies.{Holds};
ghost use Rattle.bitvec_owned.specs.Owned.{bit_capacity, owned};
ghost use Rattle.bitvec_owned.specs.declared.repeating.RepeatError.TheVariants.{TooLong};
ghost use Rattle.bitvec_slice.specs.Views.{seen};

use crate::BitVec;
use bitvec_base::{MAX_BITS, Window};
use bitvec_copying::zeros;
use bitvec_elements::copy_from_block_in;
use bitvec_engine::SliceOrder;
use bitvec_slice::BitSlice;
use bitvec_store::BitStore;
use std::alloc::Allocator;

/// Why there is no repeat.
#[derive(Clone, Copy, PartialEq, Eq, Debug, Drop)]
pub enum RepeatError {
    /// It would have more than `MAX_BITS` bits.
    TooLong,
    /// There is no memory for it.
    Memory,
}

/// A view's bits `copies` times.
pub(crate) fn repeat_of<T: BitStore, O: SliceOrder, A: Allocator>(
    view: BitSlice<'_, T, O>,
    alloc: A,
    copies: usize,
) -> Result<BitVec<T, O, A>, RepeatError>
    ensures long { IsErrOf result TooLong ↔ (max_bits < (seen view.entry).window.len * copies) }
    ensures copy { IfOk result (λ copy. Holds T.BITS (repeat copies (seen view.entry).bits) 0 (owned copy)) }
    ensures capacity { IfOk result (λ copy. (owned copy).window.len ≤ bit_capacity copy) }
    ensures none { (seen view.entry).window.len * copies ≡ 0 → IsOk result }
{
    let total = view.len().saturating_mul(copies);
    if total > MAX_BITS {
        return Err(RepeatError::TooLong);
    }
    if total == 0 {
        return Ok(BitVec::from_parts(Vec::new(alloc), 0, 0));
    }
    let width = T::BITS as usize;
    let count = total.div_ceil(width);
    let Ok(mut elements) = zeros::<T, A>(alloc, count) else {
        return Err(RepeatError::Memory);
    };
    // The bits fit `MAX_BITS`, but the elements around them have more bits: no machine grants so much memory.
    if count > MAX_BITS / width {
        return Err(RepeatError::Memory);
    }
    write_copies(elements.as_mut_slice(), view, copies);
    Ok(BitVec::from_parts(elements, 0, total))
}

/// Writes a view's bits `copies` times, from the first place on. Condition: they have room.
fn write_copies<T: BitStore, O: SliceOrder>(
    elements: &mut [T],
    view: BitSlice<'_, T, O>,
    copies: usize,
)
    requires fits { T.BITS * length elements.old ≤ max_bits }
    requires room { (seen view).window.len * copies ≤ T.BITS * length elements.old }
    ensures bits { memory_bits T.BITS O.at (map T.value elements.new)
        ≡ write_at (memory_bits T.BITS O.at (map T.value elements.old)) 0 (repeat copies (seen view.entry).bits) }
    ensures len { length elements.new ≡ length elements.old }
{
    let from = view.window();
    for number in 0..copies {
        let window = Window {
            start: number * from.len,
            len: from.len,
        };
        copy_from_block_in::<T, O>(elements, window, view.elements(), from);
    }
}
