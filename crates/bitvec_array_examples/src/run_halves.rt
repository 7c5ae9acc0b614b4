//! Commands through two halves, and what a caller knows of these afterwards.
ghost use Rattle.std.specs.Prelude.{◌≡◌, ◌≤◌, [], length};
ghost use Rattle.bitvec.specs.Fold.{list_after, replies_of};
ghost use Rattle.bitvec.specs.Sides.{halves_of, joined, side_lists, side_reply};
ghost use Rattle.bitvec.specs.Views.{seen_mut};

use bitvec::prelude::*;
use bitvec::run::{Op, Refusal, Reply, Side, Step, run_halves};

/// Runs steps through the bits before `mid` and those from it on: both are what the steps make of
/// their lists. Conditions: `mid` is at most `len`, and `out` has a place for each reply.
pub fn run_apart<T: BitStore, O: SliceOrder>(
    view: &mut BitSliceMut<'_, T, O>,
    mid: usize,
    steps: &[(Side, Step)],
    out: &mut [Reply],
)
    requires bound { mid ≤ (seen_mut view.old).window.len }
    requires lengths { length steps.now ≡ length out.old }
    ensures replies { out.new ≡ replies_of (side_reply []) (side_lists []) (halves_of mid (seen_mut view.old).bits) steps.now }
    ensures bits { (seen_mut view.new).bits ≡ joined (list_after (side_lists []) (halves_of mid (seen_mut view.old).bits) steps.now) }
{
    run_halves(view, mid, steps, BitSlice::empty(), out);
}

#[test]
fn halves_of_a_byte(rt: HostRuntime) {
    let mut bytes = [0x00u8];
    let mut out = [Reply::Done; 4];
    run_lsb0(&mut bytes, &mut out);
    assert!(rt; out == [Reply::Done, Reply::Done, Reply::Done, Reply::Count(5)]);
    assert!(rt; bytes == [0xFB]);
}

fn run_lsb0(bytes: &mut [u8; 1], out: &mut [Reply; 4]) {
    let steps = [
        (Side::Left, step(0, 3, Op::Fill(true))),
        (Side::Right, step(0, 5, Op::Invert)),
        (Side::Left, step(0, 3, Op::ShiftStart(1))),
        (Side::Right, step(0, 5, Op::CountOnes)),
    ];
    let mut view = BitSliceMut::<u8, Lsb0>::from_slice_mut(bytes);
    run_halves(&mut view, 3, &steps, BitSlice::empty(), out);
}

#[test]
fn refused_steps_leave_their_half(rt: HostRuntime) {
    let mut bytes = [0x00u8];
    let mut out = [Reply::Done; 6];
    run_msb0(&mut bytes, &mut out);
    let refused = [
        Reply::Done,
        Reply::Done,
        Reply::Refused(Refusal::Index),
        Reply::Done,
        Reply::Count(1),
        Reply::Refused(Refusal::Range),
    ];
    assert!(rt; out == refused);
    assert!(rt; bytes == [0x0D]);
}

fn run_msb0(bytes: &mut [u8; 1], out: &mut [Reply; 6]) {
    let steps = [
        (Side::Left, step(0, 5, Op::Set(4, true))),
        (Side::Right, step(0, 2, Op::Fill(true))),
        (Side::Left, step(0, 5, Op::Set(5, true))),
        (Side::Right, step(1, 3, Op::RotateLeft(1))),
        (Side::Left, step(0, 5, Op::CountOnes)),
        (Side::Left, step(0, 6, Op::Fill(true))),
    ];
    let mut view = BitSliceMut::<u8, Msb0>::from_slice_mut(bytes);
    run_halves(&mut view, 5, &steps, BitSlice::empty(), out);
}

fn step(from: usize, to: usize, op: Op) -> Step {
    Step { from, to, op }
}
