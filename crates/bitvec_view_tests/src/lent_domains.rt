//! The parts of a view that is cut at the edges of elements: one of them is flipped; then every other bit
//! of the three bytes is as before, and the view stands where it stood.

use bitvec_base::{Lsb0, Window};
use bitvec_edit::BitEdits;
use bitvec_slice::{BitDomainMut, BitSliceMut};
use bitvec_test_support::{MEMORIES, bits_of, flipped};

/// Flips a part of the elements that a view touches: the head, the body or the tail.
fn flip_elements(view: &mut BitSliceMut<'_, u8, Lsb0>, piece: usize) {
    if let Some((head, body, tail)) = view.domain_mut().region() {
        let part = if piece == 0 { head } else { tail };
        if piece == 1 {
            for element in body {
                *element = !*element;
            }
        } else if let Some(mut part) = part {
            part.invert();
        }
    }
}

/// Flips a part of a view: the head, the body or the tail.
fn flip_bits(view: &mut BitSliceMut<'_, u8, Lsb0>, piece: usize) {
    match view.bit_domain_mut() {
        BitDomainMut::Enclave(_) => {}
        BitDomainMut::Region {
            mut head,
            mut body,
            mut tail,
        } => match piece {
            0 => head.invert(),
            1 => body.invert(),
            _ => tail.invert(),
        },
    }
}

/// Flips a part of the bits 3 up to 21, and says where these stand then.
fn flip_in(bytes: &mut [u8; 3], piece: usize, as_elements: bool) -> Window {
    let mut view = BitSliceMut::<u8, Lsb0>::from_slice_mut(bytes).into_part(3..21);
    if as_elements {
        flip_elements(&mut view, piece);
    } else {
        flip_bits(&mut view, piece);
    }
    view.window()
}

#[test]
fn each_part_of_a_domain_is_lent(rt: HostRuntime) {
    for bytes in MEMORIES {
        for (piece, from, to) in [(0, 3, 8), (1, 8, 16), (2, 16, 21)] {
            for as_elements in [false, true] {
                let mut after = bytes;
                let window = flip_in(&mut after, piece, as_elements);
                assert!(rt; bits_of(after) == flipped(bytes, from, to), "{from}");
                assert!(rt; window == Window { start: 3, len: 18 });
            }
        }
    }
}
