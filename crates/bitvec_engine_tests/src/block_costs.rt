//! What a caller knows of the cost of a copy under any order that works by words, that costs are counted, and those of an
//! exchange.
ghost use Rattle.std.specs.Prelude.{◌≡◌, true};
ghost use Rattle.bitvec_base.specs.Memory.{HasWindow};
ghost use Rattle.bitvec_cells.specs.Access.{CostsAtMost, OnlyReadsAtMost};
ghost use Rattle.bitvec_cells.specs.Cost.{read_loads, write_loads, write_stores};

use bitvec_base::{Lsb0, Window};
use bitvec_engine::{ByWords, SliceOrder};
use bitvec_test_support::Counted;
use bitvec_test_support::cells::{Cells, CellsRead, Exclusive};

/// Copies a window, in steps of 64 bits.
pub fn copy_in_steps<O: ByWords, C: Cells, D: CellsRead<Elem = C::Elem>>(
    left: &mut C,
    to: Window,
    right: &mut D,
    from: Window,
)
    requires window { HasWindow C.Elem.BITS (C.numbers left.old) to }
    requires right_window { HasWindow C.Elem.BITS (D.numbers right.old) from }
    requires lengths { to.len ≡ from.len }
    ensures cost { CostsAtMost C.CellsRead left.old left.new (write_loads C.Elem.BITS true to.len) (write_stores C.Elem.BITS true to.len) }
    ensures right { OnlyReadsAtMost D.CellsRead right.old right.new (read_loads C.Elem.BITS true to.len) }
{
    O::block_copy::<C, D>(left, to, right, from);
}

/// Exchanges two windows, if this is asked, or else copies the right one.
fn carry_out<C: Cells>(left: &mut C, to: Window, right: &mut C, from: Window, exchanges: bool)
    requires window { HasWindow C.Elem.BITS (C.numbers left.old) to }
    requires right_window { HasWindow C.Elem.BITS (C.numbers right.old) from }
    requires lengths { to.len ≡ from.len }
{
    if exchanges {
        Lsb0::block_swap(left, to, right, from);
    } else {
        copy_in_steps::<Lsb0, _, _>(left, to, right, from);
    }
}

/// Exchanges 64 bits of two pairs of elements, or copies those of the right one, and gives the loads and stores of each side.
fn counts(left: &mut [u64; 2], right: &mut [u64; 2], exchanges: bool) -> [u64; 4] {
    let mut cells = Counted::new(Exclusive::new(left));
    let mut others = Counted::new(Exclusive::new(right));
    let to = Window { start: 3, len: 64 };
    let from = Window { start: 5, len: 64 };
    carry_out(&mut cells, to, &mut others, from, exchanges);
    [
        cells.loads(),
        cells.stores(),
        others.loads(),
        others.stores(),
    ]
}

/// Whether none of the counts is above its most.
fn are_at_most(counts: [u64; 4], most: [u64; 4]) -> bool {
    counts[0] <= most[0] && counts[1] <= most[1] && counts[2] <= most[2] && counts[3] <= most[3]
}

#[test]
fn a_copy_and_an_exchange_go_by_words(rt: HostRuntime) {
    for (exchanges, pairs, most, after) in [
        (
            false,
            [[0, u64::MAX], [u64::MAX, 0x16]],
            [4, 2, 2, 0],
            [
                [0xBFFF_FFFF_FFFF_FFF8, 0xFFFF_FFFF_FFFF_FFFD],
                [u64::MAX, 0x16],
            ],
        ),
        (
            true,
            [[u64::MAX, 0], [0, u64::MAX]],
            [4, 2, 4, 2],
            [
                [0xC000_0000_0000_0007, 0x7],
                [0xFFFF_FFFF_FFFF_FFE0, 0xFFFF_FFFF_FFFF_FFE3],
            ],
        ),
    ] {
        let [mut left, mut right] = pairs;
        let counts = counts(&mut left, &mut right, exchanges);
        assert!(rt; are_at_most(counts, most) && [left, right] == after);
    }
}

/// How many loads and stores are counted of one each.
fn counted(bytes: &mut [u8; 3]) -> (u64, u64) {
    let mut accessor = Counted::new(Exclusive::new(bytes));
    let byte = accessor.load(0);
    accessor.store(1, byte);
    (accessor.loads(), accessor.stores())
}

#[test]
fn a_counted_accessor_tallies_each_call(rt: HostRuntime) {
    assert!(rt; counted(&mut [1, 2, 3]) == (1, 1));
}
