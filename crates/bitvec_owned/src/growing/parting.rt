//! Parts of a sequence taken out of it.
ghost use Rattle.std.specs.Prelude.{◌≡◌, ◌≤◌, IfOk, OnErr, drop, if◌then◌else◌, is_ok, slice_range, take};
ghost use Rattle.std.specs.List.{remove_range};
ghost use Rattle.bitvec_owned.specs.Copies.{Holds, KeepsAround};
ghost use Rattle.bitvec_slice.specs.Indices.{HasRange};
ghost use Rattle.bitvec_owned.specs.Owned.{bit_capacity, owned};

use crate::BitVec;
use bitvec_edit::BitEdits;
use bitvec_engine::SliceOrder;
use bitvec_store::BitStore;
use std::alloc::{AllocError, Allocator};
use std::ops::Range;

impl<T: BitStore, O: SliceOrder, A: Allocator + Clone> BitVec<T, O, A> {
    /// A copy of a range of the bits, from the first place on.
    fn copy_of_range(&self, range: Range<usize>) -> Result<Self, AllocError>
        requires { HasRange range (owned self.now).window.len }
        ensures copy { IfOk result (λ made. Holds T.BITS (slice_range (owned self.now).bits range.start range.end) 0 (owned made)) }
        ensures capacity { IfOk result (λ made. (owned made).window.len ≤ bit_capacity made) }
    {
        let mut made = BitVec::new_in(self.elements.allocator().clone()?);
        made.extend_from_block(self.as_bitslice().into_part(range))?;
        Ok(made)
    }

    /// Takes the bits from an index on, as a sequence of their own, which begins at the first place and has an allocator
    /// that is this one's, cloned. An error where memory is refused, and the sequence is as before then. Condition: the
    /// index is at most `len`.
    pub fn split_off(&mut self, at: usize) -> Result<Self, AllocError>
        requires { at ≤ (owned self.old).window.len }
        ensures rest { IfOk result (λ rest. Holds T.BITS (drop at (owned self.old).bits) 0 (owned rest)) }
        ensures bits { (owned self.new).bits ≡ (if is_ok result then take at (owned self.old).bits else (owned self.old).bits) }
        ensures around { KeepsAround T.BITS (owned self.old) (owned self.new) }
        ensures same { OnErr result (owned self.new ≡ owned self.old) }
        ensures capacity { (bit_capacity self.new ≡ bit_capacity self.old) × IfOk result (λ rest. (owned rest).window.len ≤ bit_capacity rest) }
    {
        let rest = self.copy_of_range(at..self.len())?;
        self.truncate(at);
        Ok(rest)
    }

    /// Takes the bits of a range, as a sequence of their own, which begins at the first place and has an allocator that is
    /// this one's, cloned. Those behind them move by words. An error where memory is refused, and the sequence is as before
    /// then. Condition: `start <= end <= len`.
    pub fn drain(&mut self, range: Range<usize>) -> Result<Self, AllocError>
        requires { HasRange range (owned self.old).window.len }
        ensures part { IfOk result (λ part. Holds T.BITS (slice_range (owned self.old).bits range.start range.end) 0 (owned part)) }
        ensures bits { (owned self.new).bits ≡ (if is_ok result then remove_range (owned self.old).bits range.start range.end else (owned self.old).bits) }
        ensures around { KeepsAround T.BITS (owned self.old) (owned self.new) }
        ensures same { OnErr result (owned self.new ≡ owned self.old) }
        ensures capacity { (bit_capacity self.new ≡ bit_capacity self.old) × IfOk result (λ part. (owned part).window.len ≤ bit_capacity part) }
    {
        let len = self.len();
        let start = range.start;
        let end = range.end;
        let part = self.copy_of_range(range)?;
        self.copy_within(end..len, start);
        self.truncate(len - (end - start));
        Ok(part)
    }
}
