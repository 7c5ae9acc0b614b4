//! Copies of views.
ghost use Rattle.std.specs.Prelude.{◌≡◌, ◌≤◌, IfOk, IsOk};
ghost use Rattle.bitvec_owned.specs.Copies.{Holds, copy_start};
ghost use Rattle.bitvec_owned.specs.Owned.{bit_capacity, owned};
ghost use Rattle.bitvec_slice.specs.Views.{seen};

use crate::BitVec;
use bitvec_base::Window;
use bitvec_copying::copied;
use bitvec_engine::SliceOrder;
use bitvec_slice::BitSlice;
use bitvec_store::BitStore;
use std::alloc::{AllocError, Allocator};

/// A copy of a view's bits, from the index in its first element on at which the view begins.
pub(crate) fn copy_of<T: BitStore, O: SliceOrder, A: Allocator>(
    view: BitSlice<'_, T, O>,
    alloc: A,
) -> Result<BitVec<T, O, A>, AllocError>
    ensures copy { IfOk result (λ copy. Holds T.BITS (seen view.entry).bits
        (copy_start T.BITS (seen view.entry).window) (owned copy)) }
    ensures capacity { IfOk result (λ copy. (owned copy).window.len ≤ bit_capacity copy) }
    ensures none { (seen view.entry).window.len ≡ 0 → IsOk result }
{
    let head = start_of_copy::<T>(view.window());
    let elements = copied::<T, O, A>(view, head, alloc)?;
    Ok(BitVec::from_parts(elements, head, view.len()))
}

fn start_of_copy<T: BitStore>(window: Window) -> usize
    ensures { result ≡ copy_start T.BITS window }
{
    if window.len == 0 {
        0
    } else {
        window.phase::<T>()
    }
}
