//! What orders do with whole windows, beside the functions that go bit by bit: in windows of few bits, of an element, of
//! a word and of more, which begin with an element, behind its first bit and with its last. One contract says both, so
//! what differs here was built as it wasn't proved.

use bitvec_base::{BitOrder, HiLo, Lsb0, Msb0, Window};
use bitvec_cells::{Cells, CellsRead, Exclusive, has_window};
use bitvec_engine::SliceOrder;
use bitvec_passes::{bits_copy, bits_copy_within, bits_eq, bits_op, bits_reverse, bits_swap};
use bitvec_store::BitStore;
use bitvec_words::{BitOp, invert};

/// What is done with a window of a memory and one as long of another.
#[derive(Clone, Copy)]
enum Act {
    Equal,
    Copy,
    Swap,
    CopyWithin,
    Operate(BitOp),
    Reverse,
    FlipLast,
}

/// Acts, each on what those before it left. The windows differ, are equal, and then differ in their last bits.
const ACTS: [Act; 12] = [
    Act::Operate(BitOp::Xor),
    Act::Reverse,
    Act::Operate(BitOp::Or),
    Act::Reverse,
    Act::Operate(BitOp::And),
    Act::Swap,
    Act::CopyWithin,
    Act::Equal,
    Act::Copy,
    Act::Equal,
    Act::FlipLast,
    Act::Equal,
];

/// Where the two windows begin, and how many bits they have.
#[derive(Clone, Copy)]
struct Row {
    to: usize,
    from: usize,
    len: usize,
}

/// Flips the last bit of a window, if it has one.
fn flip_last<O: BitOrder, C: Cells>(cells: &mut C, window: Window) {
    if window.len > 0 && has_window(cells, window) {
        invert::<O, C>(cells, window.after(window.len - 1));
    }
}

/// Does an act as the order does it, if the memories have the windows: whether these are equal, if that is asked, and
/// else true.
fn act_by_blocks<O: SliceOrder, C: Cells, D: Cells + CellsRead<Elem = C::Elem>>(
    act: Act,
    left: &mut C,
    right: &mut D,
    row: Row,
) -> Option<bool> {
    let Row { to, from, len } = row;
    let (target, source) = (Window { start: to, len }, Window { start: from, len });
    if !has_window(left, target) || !has_window(left, source) || !has_window(right, source) {
        return None;
    }
    match act {
        Act::Equal => return Some(O::block_eq::<C, D>(left, target, right, source)),
        Act::Copy => O::block_copy::<C, D>(left, target, right, source),
        Act::Swap => O::block_swap::<C, D>(left, target, right, source),
        Act::CopyWithin => {
            let end = to.max(from) + len;
            let all = Window { start: 0, len: end };
            O::block_copy_within::<C>(left, all, from, from + len, to);
        }
        Act::Operate(op) => O::block_op::<C, D>(left, target, right, source, op),
        Act::Reverse => O::block_reverse::<C>(left, target),
        Act::FlipLast => flip_last::<O, C>(left, target),
    }
    Some(true)
}

/// Carries the operation out bit by bit.
fn act_by_bits<O: BitOrder, C: Cells, D: Cells + CellsRead<Elem = C::Elem>>(
    act: Act,
    left: &mut C,
    right: &mut D,
    row: Row,
) -> Option<bool> {
    let Row { to, from, len } = row;
    let (target, source) = (Window { start: to, len }, Window { start: from, len });
    if !has_window(left, target) || !has_window(left, source) || !has_window(right, source) {
        return None;
    }
    match act {
        Act::Equal => return Some(bits_eq::<O, O, C, D>(left, target, right, source)),
        Act::Copy => bits_copy::<O, O, C, D>(left, target, right, source),
        Act::Swap => bits_swap::<O, O, C, D>(left, target, right, source),
        Act::CopyWithin => {
            let end = to.max(from) + len;
            let all = Window { start: 0, len: end };
            bits_copy_within::<O, C>(left, all, from, from + len, to);
        }
        Act::Operate(op) => bits_op::<O, O, C, D>(left, target, right, source, op),
        Act::Reverse => bits_reverse::<O, C>(left, target),
        Act::FlipLast => flip_last::<O, C>(left, target),
    }
    Some(true)
}

/// Does an act by whole windows on two memories.
fn do_by_blocks<T: BitStore, O: SliceOrder>(
    act: Act,
    left: &mut [T],
    right: &mut [T],
    row: Row,
) -> Option<bool> {
    let (mut left, mut right) = (Exclusive::new(left), Exclusive::new(right));
    act_by_blocks::<O, _, _>(act, &mut left, &mut right, row)
}

/// Does an act bit by bit on two memories.
fn do_by_bits<T: BitStore, O: BitOrder>(
    act: Act,
    left: &mut [T],
    right: &mut [T],
    row: Row,
) -> Option<bool> {
    let (mut left, mut right) = (Exclusive::new(left), Exclusive::new(right));
    act_by_bits::<O, _, _>(act, &mut left, &mut right, row)
}

/// Gives a memory elements with no pattern, other ones for another seed.
fn mix<T: BitStore>(elements: &mut [T], seed: u64) {
    let all = T::ALL.to_u128();
    let mut number = seed;
    for element in elements.iter_mut() {
        number = number.wrapping_mul(0x5851_F42D_4C95_7F2D).wrapping_add(1);
        let low = number ^ number >> 29;
        let high = low.wrapping_mul(0x9E37_79B9_7F4A_7C15);
        let mixed = ((high as u128) << 64 | low as u128) & all;
        if mixed <= all {
            *element = T::from_u128(mixed);
        }
    }
}

/// Whether two memories have the same elements.
fn is_same<T: BitStore>(elements: &[T], others: &[T]) -> bool {
    if elements.len() != others.len() {
        return false;
    }
    let mut is_same = true;
    for index in 0..elements.len() {
        is_same &= elements[index].to_u128() == others[index].to_u128();
    }
    is_same
}

/// Whether each act by whole windows leaves and answers what it does bit by bit, on memories of which the second pair is
/// for the bits.
fn acts_agree<T: BitStore, O: SliceOrder>(
    row: Row,
    left: &mut [T],
    right: &mut [T],
    bits_left: &mut [T],
    bits_right: &mut [T],
) -> bool {
    mix(left, 1);
    mix(right, 2);
    mix(bits_left, 1);
    mix(bits_right, 2);
    for act in ACTS {
        let answer = do_by_blocks::<T, O>(act, left, right, row);
        let is_answered = answer.is_some()
            && answer == do_by_bits::<T, O>(act, bits_left, bits_right, row);
        if !is_answered || !is_same(left, bits_left) || !is_same(right, bits_right) {
            return false;
        }
    }
    true
}

/// Whether they do at all starts of windows of so many bits.
fn starts_agree<T: BitStore, O: SliceOrder>(
    len: usize,
    left: &mut [T],
    right: &mut [T],
    bits_left: &mut [T],
    bits_right: &mut [T],
) -> bool {
    let last = T::BITS as usize - 1;
    let mut agree = true;
    for (to, from) in [
        (0, 0),
        (0, 1),
        (0, last),
        (1, 0),
        (1, 1),
        (1, last),
        (last, 0),
        (last, 1),
        (last, last),
    ] {
        let row = Row { to, from, len };
        agree &= acts_agree::<T, O>(row, left, right, bits_left, bits_right);
    }
    agree
}

/// Whether they do at each length.
fn lengths_agree<T: BitStore, O: SliceOrder>(
    left: &mut [T],
    right: &mut [T],
    bits_left: &mut [T],
    bits_right: &mut [T],
) -> bool {
    let mut agree = true;
    for len in [0, 1, T::BITS as usize, 64, 65, 130] {
        agree &= starts_agree::<T, O>(len, left, right, bits_left, bits_right);
    }
    agree
}

/// Whether they do under both orders that go by words, and under one that doesn't.
fn orders_agree<T: BitStore>(
    left: &mut [T; 18],
    right: &mut [T; 18],
    bits_left: &mut [T; 18],
    bits_right: &mut [T; 18],
) -> bool {
    lengths_agree::<T, Lsb0>(left, right, bits_left, bits_right)
        && lengths_agree::<T, Msb0>(left, right, bits_left, bits_right)
        && lengths_agree::<T, HiLo>(left, right, bits_left, bits_right)
}

#[test]
fn words_do_what_bits_do(rt: HostRuntime) {
    let agree = [
        orders_agree::<u8>(&mut [0; 18], &mut [0; 18], &mut [0; 18], &mut [0; 18]),
        orders_agree::<u16>(&mut [0; 18], &mut [0; 18], &mut [0; 18], &mut [0; 18]),
        orders_agree::<u32>(&mut [0; 18], &mut [0; 18], &mut [0; 18], &mut [0; 18]),
        orders_agree::<u64>(&mut [0; 18], &mut [0; 18], &mut [0; 18], &mut [0; 18]),
        orders_agree::<u128>(&mut [0; 18], &mut [0; 18], &mut [0; 18], &mut [0; 18]),
        orders_agree::<usize>(&mut [0; 18], &mut [0; 18], &mut [0; 18], &mut [0; 18]),
    ];
    assert!(rt; agree == [true; 6]);
}
