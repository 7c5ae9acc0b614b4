//! What the elements that a command stores are made of.

use crate::tally::Tally;
use bitvec_base::{HiLo, Lsb0, Msb0, Window};
use bitvec_engine::SliceOrder;
use bitvec_test_support::cells::{Cells, CellsRead, Exclusive, has_window};
use bitvec_test_support::store::BitStore;
use bitvec_words::BitOp;

/// An accessor whose elements are of no operation when they are loaded, and which adds up the
/// operations of those that are stored; at most `u64::MAX`.
///
/// Contracts see it as the accessor inside.
#[derive(Drop)]
struct Tallied<C> {
    inner: C,
    operations: u64,
}

impl<C: CellsRead<Elem = Tally>> CellsRead for Tallied<C> {
    type Elem = Tally;

    ghost borrow = { λ tallied. C.borrow tallied.inner };

    ghost numbers = { λ tallied. C.numbers tallied.inner };

    ghost loads = { λ tallied. C.loads tallied.inner };

    ghost stores = { λ tallied. C.stores tallied.inner };

    fn len(&self) -> usize {
        self.inner.len()
    }

    fn load(&mut self, index: usize) -> Tally {
        self.inner.load(index).fresh()
    }
}

impl<C: Cells + CellsRead<Elem = Tally>> Cells for Tallied<C> {
    fn store(&mut self, index: usize, element: Tally) {
        self.operations = self.operations.saturating_add(element.operations() as u64);
        self.inner.store(index, element)
    }
}

/// A command on a window of one memory and a window of another.
#[derive(Clone, Copy)]
enum Command {
    Copy,
    Swap,
    Or,
}

/// Bits of 65 elements, from a bit inside the first one on.
const LEFT: Window = Window {
    start: 5,
    len: 4096,
};

/// As many bits, from another one on.
const RIGHT: Window = Window {
    start: 3,
    len: 4096,
};

/// Carries a command out on the left window and the right one, if the memories have these, and says so.
fn carry_out<O: SliceOrder, C: Cells>(command: Command, left: &mut C, right: &mut C) -> bool {
    if !has_window(left, LEFT) || !has_window(right, RIGHT) {
        return false;
    }
    match command {
        Command::Copy => O::block_copy::<C, C>(left, LEFT, right, RIGHT),
        Command::Swap => O::block_swap::<C, C>(left, LEFT, right, RIGHT),
        Command::Or => O::block_op::<C, C>(left, LEFT, right, RIGHT, BitOp::Or),
    }
    true
}

/// Whether a command goes over zeros and ones, and how many operations the elements are of that it stores, on each side.
fn operations_of<O: SliceOrder>(command: Command) -> (bool, u64, u64) {
    let mut zeros = [Tally::ZERO; 65];
    let mut ones = [Tally::ALL; 65];
    let mut left = Tallied {
        inner: Exclusive::new(&mut zeros),
        operations: 0,
    };
    let mut right = Tallied {
        inner: Exclusive::new(&mut ones),
        operations: 0,
    };
    let is_done = carry_out::<O, _>(command, &mut left, &mut right);
    (is_done, left.operations, right.operations)
}

/// Whether the elements that each command stores are of the operations of words, or of more.
fn takes_words<O: SliceOrder>(is_by_words: bool) -> bool {
    let mut agree = true;
    for command in [Command::Copy, Command::Or, Command::Swap] {
        let (is_done, left, right) = operations_of::<O>(command);
        agree &= is_done && (left <= 8000 && right <= 8000) == is_by_words;
    }
    agree
}

// Under an order that has no words, bits at different places of elements go one by one.
#[test]
fn a_stored_element_is_of_few_operations(rt: HostRuntime) {
    assert!(rt; takes_words::<Lsb0>(true));
    assert!(rt; takes_words::<Msb0>(true));
    assert!(rt; takes_words::<HiLo>(false));
}
