//! Sequences made of bits, of truth values, and of elements.
ghost use Rattle.std.specs.Prelude.{◌≡◌, ◌+◌, ◌-◌, ◌*◌, ◌<◌, ◌≤◌, IfOk, IsOk, length, replicate, take, vec_capacity, vec_len};
ghost use Rattle.std.specs.Int.{div_ceil};
ghost use Rattle.bitvec_base.specs.Window.{max_bits};
ghost use Rattle.bitvec_owned.specs.Copies.{Holds};
ghost use Rattle.bitvec_owned.specs.Owned.{bit_capacity, owned, usable_bits};
ghost use Rattle.bitvec_slice.specs.Seen.{shown};
ghost use Rattle.bitvec_slice.specs.Views.{seen};

use crate::BitVec;
use crate::counts::touched_by;
use bitvec_base::BitOrder;
use bitvec_slice::BitSlice;
use bitvec_store::BitStore;
use std::alloc::{AllocError, Allocator};

impl<T: BitStore, O: BitOrder, A: Allocator> BitVec<T, O, A> {
    /// A copy of the bits of a view of any element type and order, from the first place on. An error where memory was
    /// refused; a copy of no bits asks for none.
    pub fn from_bitslice<U: BitStore, P: BitOrder>(
        alloc: A,
        bits: BitSlice<'_, U, P>,
    ) -> Result<Self, AllocError>
        ensures copy { IfOk result (λ made. Holds T.BITS (seen bits.entry).bits 0 (owned made)) }
        ensures capacity { IfOk result (λ made. (owned made).window.len ≤ bit_capacity made) }
        ensures none { (seen bits.entry).window.len ≡ 0 → IsOk result }
    {
        let mut made = BitVec::new_in(alloc);
        made.extend_from_bitslice(bits)?;
        Ok(made)
    }

    /// The truth values of a slice as bits, from the first place on, up to 64 at a time. An error where memory was refused;
    /// for no truth values none is asked for.
    pub fn from_bools(alloc: A, bools: &[bool]) -> Result<Self, AllocError>
        ensures copy { IfOk result (λ made. Holds T.BITS bools.now 0 (owned made)) }
        ensures capacity { IfOk result (λ made. (owned made).window.len ≤ bit_capacity made) }
        ensures none { length bools.now ≡ 0 → IsOk result }
    {
        let mut made = BitVec::with_capacity_in(alloc, bools.len())?;
        made.put_bools(bools);
        Ok(made)
    }

    /// So many of one bit, from the first place on: `repeat` of `bitvec`'s `BitVec`. An error where memory was refused, and
    /// for more than `MAX_BITS` bits; no bits ask for none.
    pub fn repeat(alloc: A, bit: bool, len: usize) -> Result<Self, AllocError>
        ensures copy { IfOk result (λ made. Holds T.BITS (replicate len bit) 0 (owned made)) }
        ensures capacity { IfOk result (λ made. (owned made).window.len ≤ bit_capacity made) }
        ensures none { len ≡ 0 → IsOk result }
    {
        let mut made = BitVec::new_in(alloc);
        made.resize(len, bit)?;
        Ok(made)
    }

    /// The bits of elements, `len` of them from the index `head` of the first element on. Elements that they don't touch
    /// are dropped; no memory is asked for. `from_vec` of `bitvec` is this with all bits. Condition: the index is below the
    /// width, the elements have the bits, and at most `MAX_BITS` of them.
    pub fn from_elements(elements: Vec<T, A>, head: usize, len: usize) -> Self
        requires begins { head < T.BITS }
        requires inside { head + len ≤ T.BITS * vec_len elements }
        requires fits { T.BITS * vec_len elements ≤ max_bits }
        ensures shows { owned result ≡ shown T.BITS O.at T.value (take (div_ceil (head + len) T.BITS) elements.items) head len }
        ensures capacity { bit_capacity result ≡ usable_bits T.BITS (vec_capacity elements) - head }
    {
        let mut elements = elements;
        elements.truncate(touched_by::<T>(head + len));
        BitVec::from_parts(elements, head, len)
    }
}
