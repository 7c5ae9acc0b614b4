//! The places of a bit, written down from an index on.
use bitvec_base::{Lsb0, Window};
use bitvec_places::write_places;

/// Whether `count` places of the bits 5 up to 74 are written from the index on, and the four are then these.
fn writes(want: bool, from: usize, room: usize, count: usize, wanted: &[usize; 4]) -> bool {
    if from > 69 || room > 4 {
        return false;
    }
    let bytes = [0x21, 0x00, 0x80, 0x0F, 0, 0, 0, 0, 0, 0x02];
    let window = Window { start: 5, len: 69 };
    let mut places = [99; 4];
    let found = write_places::<u8, Lsb0>(&bytes, window, want, from, &mut places[..room]);
    found == count && places == *wanted
}

#[test]
fn places_from_an_index_on(rt: HostRuntime) {
    for (want, from, room, count, wanted) in [
        (true, 0, 4, 4, [0, 18, 19, 20]),
        (true, 21, 4, 3, [21, 22, 68, 99]),
        (true, 1, 2, 2, [18, 19, 99, 99]),
        (true, 69, 4, 0, [99; 4]),
        (false, 16, 3, 3, [16, 17, 23, 99]),
    ] {
        assert!(rt; writes(want, from, room, count, &wanted), "{from}");
    }
}
