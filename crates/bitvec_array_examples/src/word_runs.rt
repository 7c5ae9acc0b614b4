//! Runs of one command under an order that works by words, as `Lsb0` and `Msb0` do: `n` bits take at most `ceil(n / 64)` word
//! steps.
#![tactic(auto)]

ghost use Rattle.std.specs.Prelude.{◌-◌, ◌*◌, ◌==◌, if◌then◌else◌};
ghost use Rattle.std.specs.Int.{div_ceil};
ghost use Rattle.bitvec.specs.Access.{CostsAtMost};
ghost use Rattle.bitvec.specs.Groups.{IsOperator};
ghost use Rattle.bitvec.specs.WordSteps.{EditsInSteps, ReadsInSteps, WritesInSteps, word_span};

use bitvec::cells::{Cells, CellsRead, Exclusive, Shared};
use bitvec::engine::ByWords;
use bitvec::index::Window;
use bitvec::prelude::*;
use bitvec::run::{Op, Reply, RunError, Step, run};
use std::alloc::{Allocator, Global};
use std::ops::Range;

/// Compares the bits `range` of a window with right ones. Bits that aren't as many take no load.
pub fn compare<O: ByWords, A: Allocator, C: Cells, D: CellsRead<Elem = C::Elem>>(
    alloc: A,
    cells: &mut C,
    window: Window,
    range: Range<usize>,
    right: &mut D,
    source: Window,
) -> Result<Vec<Reply, A>, RunError>
    ensures cost { let steps = (if range.end - range.start == source.len then div_ceil (range.end - range.start) 64 else 0) in
        CostsAtMost C.CellsRead cells.old cells.new (steps * word_span C.Elem.BITS) 0 }
    ensures right { let steps = (if range.end - range.start == source.len then div_ceil (range.end - range.start) 64 else 0) in
        ReadsInSteps D.CellsRead right.old right.new C.Elem.BITS steps }
{
    let (from, to) = (range.start, range.end);
    let op = Op::Eq(source);
    let replies = run::<O, A, C, D>(alloc, cells, window, right, &[Step { from, to, op }])?;
    Ok(replies)
}

/// Copies right bits to the bits `range` of a window.
pub fn copy<O: ByWords, A: Allocator, C: Cells, D: CellsRead<Elem = C::Elem>>(
    alloc: A,
    cells: &mut C,
    window: Window,
    range: Range<usize>,
    right: &mut D,
    source: Window,
) -> Result<Vec<Reply, A>, RunError>
    ensures cost { WritesInSteps C.CellsRead cells.old cells.new C.Elem.BITS (div_ceil (range.end - range.start) 64) }
    ensures right { ReadsInSteps D.CellsRead right.old right.new C.Elem.BITS (div_ceil (range.end - range.start) 64) }
{
    let (from, to) = (range.start, range.end);
    let op = Op::CopyFrom(source);
    let replies = run::<O, A, C, D>(alloc, cells, window, right, &[Step { from, to, op }])?;
    Ok(replies)
}

/// Copies the bits `range` of a window to `dest` on.
pub fn copy_within<O: ByWords, A: Allocator, C: Cells>(
    alloc: A,
    cells: &mut C,
    window: Window,
    range: Range<usize>,
    dest: usize,
) -> Result<Vec<Reply, A>, RunError>
    ensures { EditsInSteps C.CellsRead cells.old cells.new C.Elem.BITS (div_ceil (range.end - range.start) 64) }
{
    let (from, to) = (0, window.len);
    let op = Op::CopyWithin(range.start, range.end, dest);
    let mut none = Shared::<C::Elem>::new(&[]);
    let replies = run::<O, A, C, _>(alloc, cells, window, &mut none, &[Step { from, to, op }])?;
    Ok(replies)
}

/// Combines the bits `range` of a window with right ones. Condition: the command is `And`, `Or` or `Xor`.
pub fn combine<O: ByWords, A: Allocator, C: Cells, D: CellsRead<Elem = C::Elem>>(
    alloc: A,
    cells: &mut C,
    window: Window,
    range: Range<usize>,
    right: &mut D,
    op: Op,
) -> Result<Vec<Reply, A>, RunError>
    requires { IsOperator op }
    ensures cost { EditsInSteps C.CellsRead cells.old cells.new C.Elem.BITS (div_ceil (range.end - range.start) 64) }
    ensures right { ReadsInSteps D.CellsRead right.old right.new C.Elem.BITS (div_ceil (range.end - range.start) 64) }
{
    let (from, to) = (range.start, range.end);
    let replies = run::<O, A, C, D>(alloc, cells, window, right, &[Step { from, to, op }])?;
    Ok(replies)
}

/// Runs each command once, on the first 12 bits of two bytes, and gives what the comparison replied.
fn run_each<O: ByWords>(alloc: Global, bytes: &mut [u8; 2], right: &mut [u8; 1]) -> bool {
    let mut cells = Exclusive::new(bytes);
    let mut others = Exclusive::new(right);
    let window = Window { start: 0, len: 12 };
    let source = Window { start: 4, len: 4 };
    let op = Op::Or(Window { start: 0, len: 4 });
    let copied = copy::<O, _, _, _>(alloc, &mut cells, window, 0..4, &mut others, source).is_ok();
    let moved = copy_within::<O, _, _>(alloc, &mut cells, window, 0..4, 8).is_ok();
    let combined = combine::<O, _, _, _>(alloc, &mut cells, window, 4..8, &mut others, op).is_ok();
    let same = compare::<O, _, _, _>(alloc, &mut cells, window, 0..4, &mut others, source);
    copied
        && moved
        && combined
        && matches!(same, Ok(replies) if replies.first() == Some(&Reply::Bit(true)))
}

#[test]
fn commands_run_under_both_orders(rt: HostRuntime) {
    let (mut bytes, mut right) = ([0, 0], [0xA3]);
    assert!(rt; run_each::<Lsb0>(rt.alloc(), &mut bytes, &mut right));
    assert!(rt; bytes == [0x3A, 0x0A]);
    let mut bytes = [0, 0];
    assert!(rt; run_each::<Msb0>(rt.alloc(), &mut bytes, &mut right));
    assert!(rt; bytes == [0x3A, 0x30]);
}
