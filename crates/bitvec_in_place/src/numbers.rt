//! Integers in ranges of bits.
#![tactic(auto, unfolding(crate::specs::Ranges::bits_in, crate::specs::Ranges::number_in, crate::specs::Ranges::numbered))]

ghost use Rattle.std.specs.Prelude.{◌≡◌, ◌+◌, ◌-◌, ◌<◌, ◌≤◌, false, length, map, true};
ghost use Rattle.bitvec_numbers.specs.Integers.{integer_of, remainder_of};
ghost use Rattle.bitvec_base.specs.Memory.{memory_bits};
ghost use Rattle.bitvec_in_place.specs.Ranges.{HasBits, number_in, numbered};

use crate::spans::{part_in, span_in};
use bitvec_field::{BitField, Integral, store_be_in, store_le_in};
use bitvec_numbers::FieldOrder;
use bitvec_store::BitStore;
use std::ops::Range;

/// The integer of a range's bits, the first segment lowest. Condition: the slice has at most `MAX_BITS` bits, the range
/// lies in them, and has from 1 to `I::BITS` bits.
pub fn load_le<T: BitStore, O: FieldOrder, I: Integral>(elements: &[T], range: Range<usize>) -> I
    requires range { HasBits T.BITS (length elements.now) range.start range.end }
    requires some { range.start < range.end }
    requires bound { range.end ≤ range.start + I.BITS }
    ensures { I.value result ≡ integer_of I.SIGNED (range.end - range.start)
        (number_in false O.HIGH T.BITS (memory_bits T.BITS O.at (map T.value elements.now)) range.start range.end) }
{
    part_in::<T, O>(elements, range).load_le::<I>()
}

/// The integer of a range's bits, the first segment highest. Condition: as for [`load_le`].
pub fn load_be<T: BitStore, O: FieldOrder, I: Integral>(elements: &[T], range: Range<usize>) -> I
    requires range { HasBits T.BITS (length elements.now) range.start range.end }
    requires some { range.start < range.end }
    requires bound { range.end ≤ range.start + I.BITS }
    ensures { I.value result ≡ integer_of I.SIGNED (range.end - range.start)
        (number_in true O.HIGH T.BITS (memory_bits T.BITS O.at (map T.value elements.now)) range.start range.end) }
{
    part_in::<T, O>(elements, range).load_be::<I>()
}

/// Stores an integer in a range, the first segment lowest. If it has more bits than the range, its lowest are
/// stored. Condition: as for [`load_le`], but the range may be empty.
///
/// ```
/// in_place::store_le::<u8, Lsb0, u64>(&mut bytes, 5..17, number);
/// ```
pub fn store_le<T: BitStore, O: FieldOrder, I: Integral>(
    elements: &mut [T],
    range: Range<usize>,
    value: I,
)
    requires range { HasBits T.BITS (length elements.old) range.start range.end }
    requires bound { range.end ≤ range.start + I.BITS }
    ensures bits { memory_bits T.BITS O.at (map T.value elements.new) ≡ numbered false O.HIGH T.BITS (memory_bits T.BITS O.at (map T.value elements.old)) range.start range.end (remainder_of I.BITS (I.value value)) }
    ensures len { length elements.new ≡ length elements.old }
{
    let window = span_in::<T, O>(&*elements, range);
    store_le_in::<T, O, I>(elements, window, value);
}

/// Stores an integer in a range, the first segment highest. Condition: as for [`store_le`].
///
/// ```
/// in_place::store_be::<u8, Msb0, usize>(&mut bytes, 5 * step..5 * step + 5, step);
/// ```
pub fn store_be<T: BitStore, O: FieldOrder, I: Integral>(
    elements: &mut [T],
    range: Range<usize>,
    value: I,
)
    requires range { HasBits T.BITS (length elements.old) range.start range.end }
    requires bound { range.end ≤ range.start + I.BITS }
    ensures bits { memory_bits T.BITS O.at (map T.value elements.new) ≡ numbered true O.HIGH T.BITS (memory_bits T.BITS O.at (map T.value elements.old)) range.start range.end (remainder_of I.BITS (I.value value)) }
    ensures len { length elements.new ≡ length elements.old }
{
    let window = span_in::<T, O>(&*elements, range);
    store_be_in::<T, O, I>(elements, window, value);
}

/// Stores an integer in a range, its lowest bit first under an order that begins with the lowest bit, else its highest.
/// Condition: as for [`store_le`].
pub(crate) fn store_plain<T: BitStore, O: FieldOrder, I: Integral>(
    elements: &mut [T],
    range: Range<usize>,
    value: I,
)
    requires range { HasBits T.BITS (length elements.old) range.start range.end }
    requires bound { range.end ≤ range.start + I.BITS }
    ensures bits { memory_bits T.BITS O.at (map T.value elements.new) ≡ numbered O.HIGH O.HIGH T.BITS (memory_bits T.BITS O.at (map T.value elements.old)) range.start range.end (remainder_of I.BITS (I.value value)) }
    ensures len { length elements.new ≡ length elements.old }
{
    if O::HIGH {
        store_be::<T, O, I>(elements, range, value);
    } else {
        store_le::<T, O, I>(elements, range, value);
    }
}
