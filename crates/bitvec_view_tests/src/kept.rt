//! What a caller knows of the elements that an edit of a view left out.
ghost use Rattle.std.specs.Prelude.{◌*◌, ◌≤◌, length};
ghost use Rattle.bitvec_base.specs.Window.{max_bits};
ghost use Rattle.bitvec_domain.specs.Kept.{KeepsOutside};
ghost use Rattle.bitvec_slice.specs.Indices.{HasRange};
ghost use Rattle.bitvec_slice.specs.Touched.{end_touched, first_touched};

use bitvec_base::Lsb0;
use bitvec_edit::BitEdits;
use bitvec_engine::SliceOrder;
use bitvec_slice::BitSliceMut;
use bitvec_store::BitStore;
use std::ops::Range;

/// Fills the bits of a range, through a view of them, and gives the elements back: those that have none of
/// the bits stay.
fn fill_range<T: BitStore, O: SliceOrder>(elements: &mut [T], range: Range<usize>) -> &mut [T]
    requires fits { T.BITS * length elements.old ≤ max_bits }
    requires range { HasRange range (T.BITS * length elements.old) }
    ensures { KeepsOutside (first_touched T.BITS range.start) (end_touched T.BITS range.end) elements.old result.now }
{
    let mut view = BitSliceMut::<T, O>::from_slice_mut(elements);
    {
        let mut part = view.part_mut(range);
        part.fill(true);
    }
    view.into_slice()
}

#[test]
fn other_elements_are_kept(rt: HostRuntime) {
    let mut bytes = [7u8, 0, 0, 7];
    fill_range::<u8, Lsb0>(&mut bytes, 12..20);
    assert!(rt; bytes == [7, 0xF0, 0xF, 7]);
}
