//! Elements that hold the bits of a view, and zeros beside them.
ghost use Rattle.std.specs.Prelude.{◌≡◌, ◌+◌, ◌*◌, ◌≤◌, IfOk, IsOk, false, map, replicate, vec_len};
ghost use Rattle.std.specs.Int.{div_ceil};
ghost use Rattle.bitvec_base.specs.Memory.{memory_bits};
ghost use Rattle.bitvec_base.specs.Window.{max_bits, write_at};
ghost use Rattle.bitvec_slice.specs.Views.{seen};

use bitvec_base::Window;
use bitvec_elements::copy_from_block_in;
use bitvec_engine::SliceOrder;
use bitvec_slice::BitSlice;
use bitvec_store::BitStore;
use std::alloc::{AllocError, Allocator};

/// The elements of a copy of a view's bits, which stand from the bit `head` on; each other bit of them is 0. The memory for
/// them is asked for once, and not at all where there is no element. Condition: they have at most `MAX_BITS` bits.
pub fn copied<T: BitStore, O: SliceOrder, A: Allocator>(
    view: BitSlice<'_, T, O>,
    head: usize,
    alloc: A,
) -> Result<Vec<T, A>, AllocError>
    requires fits { T.BITS * div_ceil (head + (seen view).window.len) T.BITS ≤ max_bits }
    ensures len { IfOk result (λ elements. vec_len elements ≡ div_ceil (head + (seen view.entry).window.len) T.BITS) }
    ensures bits { IfOk result (λ elements. memory_bits T.BITS O.at (map T.value elements.items)
        ≡ write_at (replicate (T.BITS * vec_len elements) false) head (seen view.entry).bits) }
    ensures none { head + (seen view.entry).window.len ≡ 0 → IsOk result }
{
    let from = view.window();
    let window = Window {
        start: head,
        len: from.len,
    };
    let count = (head + from.len).div_ceil(T::BITS as usize);
    let mut elements = zeros::<T, A>(alloc, count)?;
    copy_from_block_in::<T, O>(elements.as_mut_slice(), window, view.elements(), from);
    Ok(elements)
}

/// So many elements whose bits are all 0; the memory for them is asked for once.
pub fn zeros<T: BitStore, A: Allocator>(alloc: A, count: usize) -> Result<Vec<T, A>, AllocError>
    ensures items { IfOk result (λ elements. elements.items ≡ replicate count T.ZERO) }
    ensures len { IfOk result (λ elements. vec_len elements ≡ count) }
    ensures none { count ≡ 0 → IsOk result }
{
    let mut elements = Vec::new(alloc);
    elements.resize(count, T::ZERO)?;
    Ok(elements)
}
