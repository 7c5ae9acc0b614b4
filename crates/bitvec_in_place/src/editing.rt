//! The bits of a range edited in the way of a type of one's own.
ghost use Rattle.std.specs.Prelude.{◌≡◌, length, map};
ghost use Rattle.bitvec_base.specs.Memory.{memory_bits};
ghost use Rattle.bitvec_in_place.specs.Ranges.{HasBits, edited};

use crate::own_edit::Edit;
use crate::spans::{span_in, whole_in};
use bitvec_base::BitOrder;
use bitvec_slice::{BitSliceMut, Sealed};
use bitvec_store::BitStore;
use std::ops::Range;

/// Edits a range, and gives the elements back.
fn edited<'a, T: BitStore, O: BitOrder, E: Edit<T, O>>(
    elements: &'a mut [T],
    range: Range<usize>,
    edit: &E,
) -> &'a mut [T]
    requires range { HasBits T.BITS (length elements.old) range.start range.end }
    ensures bits { memory_bits T.BITS O.at (map T.value result.now) ≡ edited (E.made edit.now) (memory_bits T.BITS O.at (map T.value elements.old)) range.start range.end }
    ensures name { result.ghost_name ≡ elements.entry.ghost_name }
{
    let all = whole_in::<T, O>(&*elements);
    let part = span_in::<T, O>(&*elements, range);
    let mut view = BitSliceMut::<T, O>::from_parts(elements, part.start, part.len);
    edit.edit(&mut view);
    view.stand_at(all, Sealed);
    view.into_slice()
}

/// Edits the bits of a range as `edit` edits a view of them. Condition: the slice has at most `MAX_BITS` bits, and the
/// range lies in them.
pub fn edit<T: BitStore, O: BitOrder, E: Edit<T, O>>(
    elements: &mut [T],
    range: Range<usize>,
    edit: &E,
)
    requires range { HasBits T.BITS (length elements.old) range.start range.end }
    ensures bits { memory_bits T.BITS O.at (map T.value elements.new) ≡ edited (E.made edit.now) (memory_bits T.BITS O.at (map T.value elements.old)) range.start range.end }
    ensures len { length elements.new ≡ length elements.old }
{
    let _elements = edited::<T, O, E>(elements, range, edit);
}
