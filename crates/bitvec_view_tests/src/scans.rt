//! Searches of a view, and comparisons of two.

use bitvec_base::{Lsb0, Msb0};
use bitvec_engine::SliceOrder;
use bitvec_query::BitQueries;
use bitvec_slice::{BitSlice, BitSliceMut};
use bitvec_store::BitStore;

/// The ones before the first zero, the zeros before the first one, and the same behind the last.
fn runs(view: BitSlice<'_, u8, Lsb0>) -> [usize; 4] {
    [
        view.leading_ones(),
        view.leading_zeros(),
        view.trailing_ones(),
        view.trailing_zeros(),
    ]
}

/// Where the first one is, the first zero, the last one and the last zero.
fn places<T: BitStore, O: SliceOrder, V: BitQueries<T, O>>(view: &V) -> [Option<usize>; 4] {
    [
        view.first_one(),
        view.first_zero(),
        view.last_one(),
        view.last_zero(),
    ]
}

/// Whether any bit is 1, all are, none is, not all are, and some are and some are not.
fn answers(view: BitSlice<'_, u8, Lsb0>) -> [bool; 5] {
    [
        view.any(),
        view.all(),
        view.not_any(),
        view.not_all(),
        view.some(),
    ]
}

/// Where the first and the last of each bit are in two elements alike.
fn places_of_two(element: u8) -> [Option<usize>; 4] {
    let mut elements = [element; 2];
    places(&BitSliceMut::<u8, Msb0>::from_slice_mut(&mut elements))
}

/// Whether 0, 1, 0, 0, 1, 0, 1, 1, 0, 1 contains a part of 0, 1, 0, 1, 1 and eleven zeros, begins with it, and ends
/// with it.
fn stands(from: usize, to: usize) -> Option<[bool; 3]> {
    let view = BitSlice::<u8, Msb0>::from_slice(&[0x4B, 0x40]).into_part(0..10);
    match BitSlice::<u8, Lsb0>::from_slice(&[0x1A, 0x00]).get(from..to) {
        Some(needle) => Some([
            view.contains(needle),
            view.starts_with(needle),
            view.ends_with(needle),
        ]),
        None => None,
    }
}

#[test]
fn needles_of_another_order_are_found(rt: HostRuntime) {
    for (from, to, found) in [
        (0, 4, [true, false, false]),
        (0, 3, [true, true, false]),
        (1, 4, [true, false, true]),
        (4, 4, [true, true, true]),
        (5, 9, [false, false, false]),
        (2, 5, [true, false, false]),
        (0, 16, [false, false, false]),
    ] {
        assert!(rt; stands(from, to) == Some(found), "{from} {to}");
    }
}

/// How many bits a piece has, and the number that they write, the first bit highest.
fn read(piece: Option<BitSlice<'_, u8, Msb0>>) -> Option<(usize, u32)> {
    match piece {
        Some(bits) => {
            let mut number = 0u32;
            for bit in bits.iter().by_vals() {
                number = number.wrapping_mul(2).wrapping_add(bit as u32);
            }
            Some((bits.len(), number))
        }
        None => None,
    }
}

/// What is left of 0, 1, 0, 0, 1 behind a needle, and before it: how many bits, and the number that they write.
fn stripped(needle: BitSlice<'_, u8, Lsb0>) -> [Option<(usize, u32)>; 2] {
    let view = BitSlice::<u8, Msb0>::from_slice(&[0x48]).into_part(0..5);
    [
        read(view.strip_prefix(needle)),
        read(view.strip_suffix(needle)),
    ]
}

/// Whether what is left of a view has these bits.
fn is_left(
    rest: Option<BitSlice<'_, u8, Lsb0>>,
    bits: Option<BitSlice<'_, u8, Lsb0>>,
) -> Option<bool> {
    match (rest, bits) {
        (Some(rest), Some(bits)) => Some(rest.eq_bits(bits)),
        _ => None,
    }
}

/// The bits of a byte from one index up to another, the lowest first.
fn part(byte: &[u8; 1], from: usize, to: usize) -> Option<BitSlice<'_, u8, Lsb0>> {
    BitSlice::from_slice(byte).get(from..to)
}

#[test]
fn views_of_two_lengths_and_orders_are_compared(rt: HostRuntime) {
    let zero_one_zero = BitSlice::<u8, Lsb0>::from_slice(&[0x02]).into_part(0..3);
    let zero_one = zero_one_zero.into_part(0..2);
    let one = zero_one_zero.into_part(1..2);
    assert!(rt; zero_one.cmp_bits(zero_one_zero).is_lt() && one.cmp_bits(zero_one).is_gt());
    let view = BitSlice::<u8, Lsb0>::from_slice(&[0x21]);
    assert!(rt; view.eq_bits(BitSlice::<u8, Msb0>::from_slice(&[0x84])));
}

#[test]
fn bits_are_found_and_runs_are_counted(rt: HostRuntime) {
    let view = BitSlice::<u8, Lsb0>::from_slice(&[0x0B]).into_part(0..5);
    assert!(rt; runs(view) == [2, 0, 0, 1]);
    let places = [places(&view), places_of_two(0xFF), places_of_two(0x00)];
    assert!(rt;
        places
            == [
                [Some(0), Some(2), Some(3), Some(4)],
                [Some(0), None, Some(15), None],
                [None, Some(0), None, Some(15)]
            ]
    );
    assert!(rt; (view.count_ones_before(3), view.nth_one(2)) == (2, Some(3)));
    assert!(rt; (view.count_zeros_before(4), view.nth_zero(1)) == (1, Some(4)));
    let answers = [answers(view), answers(BitSlice::empty())];
    assert!(rt;
        answers
            == [
                [true, false, false, true, true],
                [false, true, true, false, false]
            ]
    );
}

// The first view is 0, 1, 0, 0, 1, the writable one 0, 1, 0, 0, 1, 0, 0, 0.
#[test]
fn what_a_needle_leaves_of_a_view(rt: HostRuntime) {
    let needles = BitSlice::<u8, Lsb0>::from_slice(&[0x12]);
    let rests = [
        stripped(needles.into_part(1..3)),
        stripped(needles.into_part(0..2)),
    ];
    assert!(rt; rests == [[None, None], [Some((3, 1)), Some((3, 2))]]);
    let mut elements = [0x12u8];
    let view = BitSliceMut::<u8, Lsb0>::from_slice_mut(&mut elements);
    let zero_one = BitSlice::<u8, Lsb0>::from_slice(&[0x02]).into_part(0..2);
    let rest = view.strip_prefix(zero_one);
    assert!(rt; is_left(rest, part(&[0x04], 0, 6)) == Some(true));
    let rest = view.strip_suffix(BitSlice::<u8, Lsb0>::empty());
    assert!(rt; is_left(rest, part(&[0x12], 0, 8)) == Some(true));
}
