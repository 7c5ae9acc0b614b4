//! Domains: the elements that a view touches, and views cut at the edges of elements.

use bitvec_base::{Lsb0, Msb0};
use bitvec_domain::Domain;
use bitvec_edit::BitEdits;
use bitvec_slice::{BitDomain, BitSlice, BitSliceMut};

/// How many bits the one part has of a range that touches neither edge of its element, or else 0 and how many the
/// head, the body and the tail have; nothing where there is no such range.
fn cut_of(elements: &[u32; 3], from: usize, to: usize) -> Option<(usize, usize, usize, usize)> {
    match BitSlice::<u32, Msb0>::from_slice(elements).get(from..to) {
        Some(range) => match range.bit_domain() {
            BitDomain::Enclave(part) => Some((part.len(), 0, 0, 0)),
            BitDomain::Region { head, body, tail } => {
                Some((0, head.len(), body.len(), tail.len()))
            }
        },
        None => None,
    }
}

#[test]
fn a_range_is_cut_at_the_edges_of_elements(rt: HostRuntime) {
    let elements = [0u32; 3];
    for (from, to, cut) in [
        (2, 94, (0, 30, 32, 30)),
        (34, 62, (28, 0, 0, 0)),
        (2, 32, (0, 30, 0, 0)),
        (0, 30, (0, 0, 0, 30)),
        (32, 64, (0, 0, 32, 0)),
        (5, 5, (0, 0, 0, 0)),
    ] {
        assert!(rt; cut_of(&elements, from, to) == Some(cut), "{from} {to}");
    }
}

/// Reads the part that the bits 2 up to 6 of a byte are, its value, its two indices and its mask, and then stores a
/// value's bits, or else flips them.
fn write_part(elements: &mut [u8; 1], value: Option<u8>) -> Option<(u8, usize, usize, u8)> {
    let mut range = BitSliceMut::<u8, Lsb0>::from_slice_mut(elements).into_part(2..6);
    match range.domain_mut().enclave() {
        Some(mut part) => {
            let read = (part.load_value(), part.head(), part.tail(), part.mask());
            match value {
                Some(value) => part.store_value(value),
                None => part.invert(),
            }
            Some(read)
        }
        None => None,
    }
}

#[test]
fn an_enclave_is_written_alone(rt: HostRuntime) {
    let mut elements = [0xB4u8];
    for (value, read, after) in [(Some(0xFF), 0x34, 0xBC), (None, 0x3C, 0x80)] {
        assert!(rt; write_part(&mut elements, value) == Some((read, 2, 6, 0x3C)));
        assert!(rt; elements == [after]);
    }
}

/// The whole elements of a domain that has no parts of elements.
fn whole_elements<'a>(domain: Domain<'a, u8, Msb0>) -> Option<&'a [u8]> {
    match domain.region() {
        Some((None, body, None)) => Some(body),
        _ => None,
    }
}

/// Flips the parts of the bits 4 up to 20, each in turn.
fn flip_each_part(elements: &mut [u8; 3]) {
    let mut view = BitSliceMut::<u8, Lsb0>::from_slice_mut(elements).into_part(4..20);
    for mut part in view.bit_domain_mut() {
        part.invert();
    }
}

/// The value, the indices and the mask of the part of an element that a view is.
fn read_part(view: BitSlice<'_, u8, Lsb0>) -> Option<(u8, usize, usize, u8)> {
    match view.domain().enclave() {
        Some(part) => Some((part.load_value(), part.head(), part.tail(), part.mask())),
        None => None,
    }
}

#[test]
fn parts_and_values_are_read(rt: HostRuntime) {
    let view = BitSlice::<u8, Lsb0>::from_slice(&[0xB4]).into_part(2..6);
    assert!(rt; read_part(view) == Some((0x34, 2, 6, 0x3C)));
    let mut elements = [0u8, 0xFF, 0];
    let view = BitSliceMut::<u8, Msb0>::from_slice_mut(&mut elements);
    assert!(rt; whole_elements(view.domain()) == Some([0, 0xFF, 0].as_slice()));
    assert!(rt; view.bit_domain().enclave().is_none());
}

/// The first value of a domain and the last one.
fn end_values(view: BitSlice<'_, u8, Lsb0>) -> [Option<u8>; 2] {
    let first = view.domain().into_iter().next();
    [first, view.domain().values().next_back()]
}

/// Whether the parts of a view come from both ends.
fn has_end_parts(view: BitSlice<'_, u8, Lsb0>) -> bool {
    let mut parts = view.bit_domain().parts();
    parts.next().is_some() && parts.next_back().is_some()
}

#[test]
fn values_and_parts_come_from_both_ends(rt: HostRuntime) {
    let view = BitSlice::<u8, Lsb0>::from_slice(&[0xFF, 0x12, 0xFF]).into_part(4..20);
    assert!(rt; end_values(view) == [Some(0xF0), Some(0x0F)]);
    assert!(rt; has_end_parts(view));
    let mut elements = [0u8; 3];
    flip_each_part(&mut elements);
    assert!(rt; elements == [0xF0, 0xFF, 0x0F]);
}
