//! A bit order of the caller's own.
#![tactic(auto, using(bitvec::specs::Laws::own_order))]

ghost use Rattle.std.specs.Prelude.{false};
ghost use Rattle.bitvec_view_examples.specs.Scattered.{scattered, scattered_permutes};

use bitvec::cells::{Cells, CellsRead, Exclusive, Shared};
use bitvec::engine::{
    BitOp, bits_copy_within, bits_reverse, elements_copy, elements_eq, elements_op, elements_swap,
};
use bitvec::index::Window;
use bitvec::prelude::*;
use bitvec::run::{Op, Reply, Step, run};
use std::alloc::Global;

/// The order in which index `i` is bit `(5 * i + 3) % BITS`.
pub struct Scattered;

impl BitOrder for Scattered {
    ghost at = { scattered };

    ghost permutes = { scattered_permutes };

    fn at<R: BitStore>(index: usize) -> usize {
        (5 * index + 3) % R::BITS as usize
    }

    fn select<R: BitStore>(index: usize) -> R {
        let place = (5 * index + 3) % R::BITS as usize;
        R::from_u128(1).shl(place as u32)
    }
}

impl SliceOrder for Scattered {
    ghost WORDS = { false };

    const WORDS: bool = false;

    fn block_eq<C: CellsRead, D: CellsRead<Elem = C::Elem>>(
        left: &mut C,
        left_window: Window,
        right: &mut D,
        right_window: Window,
    ) -> bool {
        elements_eq::<Self, C, D>(left, left_window, right, right_window)
    }

    fn block_copy<C: Cells, D: CellsRead<Elem = C::Elem>>(
        left: &mut C,
        to: Window,
        right: &mut D,
        from: Window,
    ) {
        elements_copy::<Self, C, D>(left, to, right, from);
    }

    fn block_swap<C: Cells, D: Cells + CellsRead<Elem = C::Elem>>(
        left: &mut C,
        left_window: Window,
        right: &mut D,
        right_window: Window,
    ) {
        elements_swap::<Self, C, D>(left, left_window, right, right_window);
    }

    fn block_copy_within<C: Cells>(
        cells: &mut C,
        window: Window,
        from: usize,
        to: usize,
        dest: usize,
    ) {
        bits_copy_within::<Self, C>(cells, window, from, to, dest);
    }

    fn block_op<C: Cells, D: CellsRead<Elem = C::Elem>>(
        left: &mut C,
        to: Window,
        right: &mut D,
        from: Window,
        op: BitOp,
    ) {
        elements_op::<Self, C, D>(left, to, right, from, op);
    }

    fn block_reverse<C: Cells>(cells: &mut C, window: Window) {
        bits_reverse::<Self, C>(cells, window);
    }
}

/// Whether a run through all bits of a byte replies so to its second step.
fn replies_then(alloc: Global, byte: &mut [u8; 1], steps: &[Step], reply: Reply) -> bool {
    let window = Window { start: 0, len: 8 };
    let mut cells = Exclusive::new(byte);
    let mut right = Shared::new(&[]);
    match run::<Scattered, _, _, _>(alloc, &mut cells, window, &mut right, steps) {
        Ok(replies) => replies.as_slice() == [Reply::Done, reply].as_slice(),
        Err(_) => false,
    }
}

// Indices 0, 1 and 2 of a byte are bits 3, 0 and 5.
#[test]
fn an_own_order_is_followed(rt: HostRuntime) {
    let mut byte = [0x00];
    let steps = [
        Step {
            from: 0,
            to: 3,
            op: Op::Fill(true),
        },
        Step {
            from: 2,
            to: 5,
            op: Op::CountOnes,
        },
    ];
    assert!(rt; replies_then(rt.alloc(), &mut byte, &steps, Reply::Count(1)));
    let mut elements = [0u8, 0];
    let view = BitSliceMut::<u8, Scattered>::from_slice_mut(&mut elements);
    let mut part = view.into_part(3..10);
    part.fill(true);
    part.reverse();
    assert!(rt; (byte, elements) == ([0x29], [0xD6, 0x09]));
}
