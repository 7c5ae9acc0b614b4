//! What a caller knows of a record that is encoded and decoded, and of two records.
ghost use Rattle.std.specs.Prelude.{◌≡◌, IfErr, IfOk, IsOk, IsPermutation, OnOk, length, slice_index, slice_set, true, zip};
ghost use Rattle.bitrecord.specs.Views.{bits_of, fields_of};
ghost use Rattle.bitrecord.specs.RecordLaws.{AgreeOutside};
ghost use Rattle.bitrecord.specs.Records.{record_in};
ghost use Rattle.bitrecord.specs.declared.endian.Endian.TheVariants.{Big};
ghost use Rattle.bitrecord.specs.declared.layout_error.LayoutError.TheVariants.{Memory};
ghost use Rattle.bitrecord_tests.specs.declared.laws.TheConstants.{PLACES};
ghost use Rattle.bitvec.specs.Writes.{WritesBits};
ghost use Rattle.bitvec.specs.Views.{seen, seen_mut};

use bitrecord::bits::{BitSlice, BitSliceMut, BitStore, FieldOrder, Msb0, Window};
use bitrecord::{EncodeError, Endian, Layout, LayoutError, decode, decode_one, encode, encode_one};
use std::alloc::{Allocator, Global};

/// Encodes values, and decodes the record: the numbers are the values.
pub fn write_and_read<T: BitStore, O: FieldOrder, A: Allocator>(
    layout: &Layout<A>,
    endian: Endian,
    values: &[u128],
    view: &mut BitSliceMut<'_, T, O>,
    numbers: &mut [u128],
) -> Result<(), EncodeError>
    requires bits { (seen_mut view.old).window.len ≡ bits_of layout.now }
    requires lengths { length numbers.old ≡ length (fields_of layout.now) }
    ensures { OnOk result (numbers.new ≡ values.now) }
{
    encode(layout, endian, values, view)?;
    decode(layout, endian, view.as_ref(), numbers);
    Ok(())
}

/// Decodes a record, and encodes its numbers again: that is never refused, and changes nothing.
pub fn read_and_write<T: BitStore, O: FieldOrder, A: Allocator>(
    layout: &Layout<A>,
    endian: Endian,
    view: &mut BitSliceMut<'_, T, O>,
    numbers: &mut [u128],
) -> Result<(), EncodeError>
    requires bits { (seen_mut view.old).window.len ≡ bits_of layout.now }
    requires lengths { length numbers.old ≡ length (fields_of layout.now) }
    ensures accepted { IsOk result }
    ensures written { WritesBits view.old view.new (seen_mut view.old).bits }
{
    decode(layout, endian, view.as_ref(), numbers);
    encode(layout, endian, numbers, view)
}

/// Decodes two views that begin at one index of an element and have the same bits in no field: where
/// their numbers are the same, so are their bits.
pub fn read_both<T: BitStore, O: FieldOrder, A: Allocator>(
    layout: &Layout<A>,
    endian: Endian,
    view: BitSlice<'_, T, O>,
    other: BitSlice<'_, T, O>,
    numbers: &mut [u128],
    others: &mut [u128],
)
    requires bits { (seen view).window.len ≡ bits_of layout.now }
    requires window { (seen other).window ≡ (seen view).window }
    requires outside { AgreeOutside (fields_of layout.now) (seen view).bits (seen other).bits }
    requires lengths { length numbers.old ≡ length (fields_of layout.now) }
    requires other_places { length others.old ≡ length (fields_of layout.now) }
    ensures { numbers.new ≡ others.new → (seen view.entry).bits ≡ (seen other.entry).bits }
{
    decode(layout, endian, view, numbers);
    decode(layout, endian, other, others);
}

/// Encodes by two layouts that have the same fields in any order, each with its value, into two views
/// that have the same bits in no field: they have the same bits then.
pub fn write_in_orders<T: BitStore, O: FieldOrder, A: Allocator>(
    layout: &Layout<A>,
    reordered: &Layout<A>,
    endian: Endian,
    values: &[u128],
    others: &[u128],
    view: &mut BitSliceMut<'_, T, O>,
    twin: &mut BitSliceMut<'_, T, O>,
) -> Result<(), EncodeError>
    requires bits { (seen_mut view.old).window.len ≡ bits_of layout.now }
    requires reordered_bits { bits_of reordered.now ≡ bits_of layout.now }
    requires order { IsPermutation (zip (fields_of layout.now) values.now) (zip (fields_of reordered.now) others.now) }
    requires window { (seen_mut twin.old).window ≡ (seen_mut view.old).window }
    requires outside { AgreeOutside (fields_of layout.now) (seen_mut view.old).bits (seen_mut twin.old).bits }
    ensures { OnOk result ((seen_mut view.new).bits ≡ (seen_mut twin.new).bits) }
{
    encode(layout, endian, values, view)?;
    encode(reordered, endian, others, twin)
}

/// Where a version of four bits stands in a header, and a length of twelve.
const PLACES: [Window; 2] = [Window { start: 0, len: 4 }, Window { start: 4, len: 12 }];

/// The layout of a header. Only memory can be missing.
#[tactic(auto, using(bitrecord::specs::Laws::records))]
pub fn header_layout<A: Allocator>(alloc: A) -> Result<Layout<A>, LayoutError>
    ensures places { IfOk result (λ layout. fields_of layout ≡ PLACES) }
    ensures bits { IfOk result (λ layout. bits_of layout ≡ 16) }
    ensures memory { IfErr result (λ why. why ≡ Memory) }
{
    Layout::new(alloc, 16, &PLACES)
}

/// Sets the length of a header; its version stays. Conditions: the layout is that of a header, and the view has as many bits.
#[tactic(auto, using(bitrecord::specs::Laws::records))]
pub fn set_len<A: Allocator>(
    layout: &Layout<A>,
    len: u16,
    view: &mut BitSliceMut<'_, u8, Msb0>,
) -> Result<(), EncodeError>
    requires places { fields_of layout.now ≡ PLACES }
    requires bits { (seen_mut view.old).window.len ≡ bits_of layout.now }
    ensures { OnOk result (record_in Big true 8 (seen_mut view.new).window.start (seen_mut view.new).bits PLACES
        ≡ slice_set (record_in Big true 8 (seen_mut view.old).window.start (seen_mut view.old).bits PLACES) 1 len) }
{
    encode_one(layout, Endian::Big, 1, u128::from(len), view)
}

/// The length of a header. Conditions: as for [`set_len`].
#[tactic(auto, using(bitrecord::specs::Laws::records))]
pub fn len_of<A: Allocator>(layout: &Layout<A>, view: BitSlice<'_, u8, Msb0>) -> u16
    requires places { fields_of layout.now ≡ PLACES }
    requires bits { (seen view).window.len ≡ bits_of layout.now }
    ensures { result ≡ slice_index (record_in Big true 8 (seen view.entry).window.start (seen view.entry).bits PLACES) 1 }
{
    decode_one(layout, Endian::Big, view, 1) as u16
}

/// Whether a length is set, and is read then.
fn is_set(alloc: Global, bytes: &mut [u8; 2], len: u16) -> bool {
    match header_layout(alloc) {
        Ok(layout) => {
            let mut view = BitSliceMut::<u8, Msb0>::from_slice_mut(bytes);
            if set_len(&layout, len, &mut view).is_err() {
                return false;
            }
            len_of(&layout, BitSlice::<u8, Msb0>::from_slice(bytes)) == len
        }
        Err(_) => false,
    }
}

// The version 1010 stays; 1 0000 0000 0000 has thirteen bits.
#[test]
fn a_length_is_set(rt: HostRuntime) {
    let mut bytes = [0xA0u8, 0x01];
    assert!(rt; is_set(rt.alloc(), &mut bytes, 0x123) && bytes == [0xA1, 0x23]);
    assert!(rt; !is_set(rt.alloc(), &mut bytes, 0x1000) && bytes == [0xA1, 0x23]);
}
