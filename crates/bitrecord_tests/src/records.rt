//! Small records, each refusal, and single fields.

use crate::coding::encodes;
use bitrecord::bits::{BitSlice, BitSliceMut, Msb0, Window};
use bitrecord::{EncodeError, Endian, Layout, LayoutError, decode, decode_one, encode, encode_one};
use std::alloc::Global;

/// Three bits, seven and six.
const THREE: [Window; 3] = [
    Window { start: 0, len: 3 },
    Window { start: 3, len: 7 },
    Window { start: 10, len: 6 },
];

/// Whether three fields with these values are these bytes, and are read again.
fn codes(
    alloc: Global,
    endian: Endian,
    fields: &[Window; 3],
    values: [u128; 3],
    bytes: [u8; 2],
) -> bool {
    let mut elements = [0u8; 2];
    let mut numbers = [0u128; 3];
    match Layout::new(alloc, 16, fields) {
        Ok(layout) => {
            let mut view = BitSliceMut::<u8, Msb0>::from_slice_mut(&mut elements);
            let is_encoded = encode(&layout, endian, &values, &mut view).is_ok();
            decode(&layout, endian, view.as_ref(), &mut numbers);
            is_encoded && elements == bytes && numbers == values
        }
        Err(_) => false,
    }
}

#[test]
fn three_fields_from_both_ends(rt: HostRuntime) {
    let [first, second, third] = THREE;
    let reordered = [third, first, second];
    for (endian, fields, values, bytes) in [
        (Endian::Big, THREE, [5, 85, 33], [0xB5, 0x61]),
        (Endian::Little, THREE, [5, 85, 33], [0xB5, 0xA1]),
        (Endian::Big, reordered, [33, 5, 85], [0xB5, 0x61]),
    ] {
        assert!(rt; codes(rt.alloc(), endian, &fields, values, bytes));
    }
}

#[test]
fn bits_before_a_record_and_behind_it_stay(rt: HostRuntime) {
    let mut bytes = [0xFFu8; 3];
    let mut view = BitSliceMut::<u8, Msb0>::from_slice_mut(&mut bytes).into_part(4..20);
    assert!(rt; encodes(rt.alloc(), Endian::Big, &THREE, &[5, 85, 33], &mut view));
    assert!(rt; bytes == [0xFB, 0x56, 0x1F]);
}

/// Why the values of three fields are refused.
fn refusal_of(alloc: Global, values: &[u128], bytes: &mut [u8; 2]) -> Option<EncodeError> {
    let mut view = BitSliceMut::<u8, Msb0>::from_slice_mut(bytes);
    match Layout::new(alloc, view.len(), &THREE) {
        Ok(layout) => encode(&layout, Endian::Big, values, &mut view).err(),
        Err(_) => None,
    }
}

#[test]
fn values_are_refused(rt: HostRuntime) {
    let mut bytes = [0xA5u8, 0x5A];
    let range = refusal_of(rt.alloc(), &[2, 128, 33], &mut bytes);
    assert!(rt; range == Some(EncodeError::Range(1)));
    let count = refusal_of(rt.alloc(), &[5, 85], &mut bytes);
    assert!(rt; count == Some(EncodeError::Count));
    assert!(rt; bytes == [0xA5, 0x5A]);
}

#[test]
fn fields_are_refused_in_order(rt: HostRuntime) {
    let wide = [Window { start: 10, len: 7 }, Window { start: 0, len: 0 }];
    let far = [Window {
        start: usize::MAX,
        len: 1,
    }];
    let touching = [
        Window { start: 0, len: 3 },
        Window { start: 2, len: 4 },
        Window { start: 5, len: 3 },
    ];
    for (fields, why) in [
        (wide.as_slice(), LayoutError::Width(1)),
        (far.as_slice(), LayoutError::Outside(0)),
        (touching.as_slice(), LayoutError::Overlap(0, 1)),
    ] {
        assert!(rt; Layout::new(rt.alloc(), 16, fields).err() == Some(why));
    }
}

/// Reads the second of three fields and writes the third, if the calls on the layout answer as they should.
fn read_and_write(layout: &Layout<Global>, bytes: &mut [u8; 2]) -> Option<u128> {
    if layout.bits() != 16 || layout.len() != 3 || layout.is_empty() {
        return None;
    }
    if layout.fields().len() != 3 || layout.field(2) != THREE[2] {
        return None;
    }
    let second = decode_one(
        layout,
        Endian::Big,
        BitSlice::<u8, Msb0>::from_slice(bytes),
        1,
    );
    let mut view = BitSliceMut::<u8, Msb0>::from_slice_mut(bytes);
    encode_one(layout, Endian::Big, 2, 63, &mut view).ok()?;
    Some(second)
}

#[test]
fn single_fields_are_written_and_read(rt: HostRuntime) {
    let mut bytes = [0xB5u8, 0x61];
    match Layout::new(rt.alloc(), 16, &THREE) {
        Ok(layout) => assert!(rt; read_and_write(&layout, &mut bytes) == Some(85)),
        Err(_) => assert!(rt; false),
    }
    assert!(rt; bytes == [0xB5, 0x7F]);
}
