//! Records that others have published.
use crate::coding::encodes;
use bitrecord::Endian;
use bitrecord::bits::{BitSliceMut, Lsb0, Msb0, Window};

/// A signal on a bus.
const SIGNAL: [Window; 1] = [Window { start: 12, len: 12 }];

/// The date and the time of a file.
const FILE_TIME: [Window; 6] = [
    Window { start: 0, len: 5 },
    Window { start: 5, len: 6 },
    Window { start: 11, len: 5 },
    Window { start: 16, len: 5 },
    Window { start: 21, len: 4 },
    Window { start: 25, len: 7 },
];

/// A header of the Internet protocol, version 4, without options.
const IP: [u8; 20] = [
    0x45, 0x00, 0x00, 0x73, 0x00, 0x00, 0x40, 0x00, 0x40, 0x11, 0xB8, 0x61, 0xC0, 0xA8, 0x00, 0x01,
    0xC0, 0xA8, 0x00, 0xC7,
];

/// Its fields.
const IP_FIELDS: [Window; 13] = [
    Window { start: 0, len: 4 },
    Window { start: 4, len: 4 },
    Window { start: 8, len: 6 },
    Window { start: 14, len: 2 },
    Window { start: 16, len: 16 },
    Window { start: 32, len: 16 },
    Window { start: 48, len: 3 },
    Window { start: 51, len: 13 },
    Window { start: 64, len: 8 },
    Window { start: 72, len: 8 },
    Window { start: 80, len: 16 },
    Window { start: 96, len: 32 },
    Window {
        start: 128,
        len: 32,
    },
];

/// What its fields hold.
const IP_NUMBERS: [u128; 13] = [
    4,
    5,
    0,
    0,
    115,
    0,
    2,
    0,
    64,
    17,
    0xB861,
    0xC0A8_0001,
    0xC0A8_00C7,
];

#[test]
fn published_records_are_written(rt: HostRuntime) {
    let mut header = [0u8; 20];
    let mut view = BitSliceMut::<u8, Msb0>::from_slice_mut(&mut header);
    assert!(rt; encodes(rt.alloc(), Endian::Big, &IP_FIELDS, &IP_NUMBERS, &mut view));
    let mut message = [0u8; 8];
    let mut view = BitSliceMut::<u8, Lsb0>::from_slice_mut(&mut message);
    assert!(rt; encodes(rt.alloc(), Endian::Little, &SIGNAL, &[0xABC], &mut view));
    let mut words = [0u16; 2];
    let time = [15, 45, 23, 31, 12, 44];
    let mut view = BitSliceMut::<u16, Lsb0>::from_slice_mut(&mut words);
    assert!(rt; encodes(rt.alloc(), Endian::Little, &FILE_TIME, &time, &mut view));
    assert!(rt; header == IP && message == [0, 0xC0, 0xAB, 0, 0, 0, 0, 0]);
    assert!(rt; words == [0xBDAF, 0x599F]);
}
