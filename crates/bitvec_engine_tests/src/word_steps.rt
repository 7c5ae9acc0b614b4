//! The block functions with costs in word steps: each once under `Lsb0` and `Msb0`, with memories worked by hand.
ghost use Rattle.bitvec_base.specs.Memory.{HasWindow};

use bitvec_base::{Lsb0, Msb0, Window};
use bitvec_cells::{Cells, Exclusive};
use bitvec_engine::ByWords;
use bitvec_engine::word_steps::{block_copy, block_copy_within, block_eq, block_op, block_swap};
use bitvec_words::BitOp;

// All bits of two bytes, five of the first, three at its start, and three of the second.
const ALL: Window = Window { start: 0, len: 16 };

const FIVE: Window = Window { start: 2, len: 5 };

const FIRST: Window = Window { start: 0, len: 3 };

const SECOND: Window = Window { start: 8, len: 3 };

/// Copies five bits, flips the first three of them, copies the other two to the next byte, and exchanges them with zeros.
/// It answers whether the copied bits were equal.
fn carry_out<O: ByWords, C: Cells>(left: &mut C, right: &mut C) -> bool
    requires window { HasWindow C.Elem.BITS (C.numbers left.old) ALL }
    requires right_window { HasWindow C.Elem.BITS (C.numbers right.old) ALL }
{
    block_copy::<O, _, _>(left, FIVE, right, FIVE);
    let same = block_eq::<O, _, _>(left, FIVE, right, FIVE);
    block_op::<O, _, _>(left, FIVE, right, FIRST, BitOp::Xor);
    block_copy_within::<O, _>(left, ALL, 5, 7, 8);
    block_swap::<O, _, _>(left, SECOND, right, SECOND);
    same
}

/// Whether the copied bits are equal, and the elements afterwards.
fn edit<O: ByWords>() -> (bool, [[u8; 2]; 2]) {
    let (mut left, mut right) = ([0x00, 0x00], [0xFF, 0x00]);
    let same = carry_out::<O, _>(
        &mut Exclusive::new(&mut left),
        &mut Exclusive::new(&mut right),
    );
    (same, [left, right])
}

#[test]
fn blocks_in_word_steps(rt: HostRuntime) {
    assert!(rt; edit::<Lsb0>() == (true, [[0x60, 0x00], [0xFF, 0x03]]));
    assert!(rt; edit::<Msb0>() == (true, [[0x06, 0x00], [0xFF, 0xC0]]));
}
