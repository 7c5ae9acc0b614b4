//! Writable walks over the bits 3 up to 21 of three bytes, which go past the end: each call gives a piece while as
//! many are left as it takes, and leaves the others. What is lent is set, and the bytes are compared at the end.

use bitvec_base::Lsb0;
use bitvec_edit::BitEdits;
use bitvec_iter::{ChunksMut, IterMut, PieceCallsMut};
use bitvec_slice::BitSliceMut;
use bitvec_test_support::MEMORIES;

/// A call on a walk. `Nth` and `NthBack` pass one piece.
#[derive(Clone, Copy)]
enum Call {
    Next,
    NextBack,
    Nth,
    NthBack,
}

/// Sets a chunk, if one came.
fn set_lent(chunk: Option<BitSliceMut<'_, u8, Lsb0>>) -> bool {
    match chunk {
        Some(mut chunk) => {
            chunk.fill(true);
            true
        }
        None => false,
    }
}

/// Calls a walk over chunks, and sets the chunk that comes.
fn set_chunk(chunks: &mut ChunksMut<'_, u8, Lsb0>, call: Call) -> bool {
    match call {
        Call::Next => set_lent(chunks.next_mut()),
        Call::NextBack => set_lent(chunks.next_back_mut()),
        Call::Nth => set_lent(chunks.nth_mut(1)),
        Call::NthBack => set_lent(chunks.nth_back_mut(1)),
    }
}

/// Calls a walk over bits, and sets the bit that comes.
fn set_bit(bits: &mut IterMut<'_, u8, Lsb0>, call: Call) -> bool {
    let bit = match call {
        Call::Next => bits.next_mut(),
        Call::NextBack => bits.next_back_mut(),
        Call::Nth => bits.nth_mut(1),
        Call::NthBack => bits.nth_back_mut(1),
    };
    match bit {
        Some(mut bit) => {
            bit.set(true);
            true
        }
        None => false,
    }
}

/// Whether each of seven calls gives one of the five chunks of four bits while there are as many as it takes,
/// and leaves the others.
fn walks_over_chunks(bytes: &mut [u8; 3], call: Call, taken: usize) -> bool {
    let mut view = BitSliceMut::<u8, Lsb0>::from_slice_mut(bytes).into_part(3..21);
    let mut chunks = view.chunks_mut(4);
    let mut left = 5usize;
    for _ in 0..7 {
        let is_there = left >= taken;
        left = left.saturating_sub(taken);
        if set_chunk(&mut chunks, call) != is_there || chunks.len() != left {
            return false;
        }
    }
    true
}

/// Makes twenty calls on a walk over the eighteen bits.
fn walks_over_bits(bytes: &mut [u8; 3], call: Call, taken: usize) -> bool {
    let mut view = BitSliceMut::<u8, Lsb0>::from_slice_mut(bytes).into_part(3..21);
    let mut bits = view.iter_mut();
    let mut left = 18usize;
    for _ in 0..20 {
        let is_there = left >= taken;
        left = left.saturating_sub(taken);
        if set_bit(&mut bits, call) != is_there || bits.len() != left {
            return false;
        }
    }
    true
}

/// Three bytes with some bits set.
pub(crate) fn with_ones(bytes: [u8; 3], ones: [u8; 3]) -> [u8; 3] {
    [bytes[0] | ones[0], bytes[1] | ones[1], bytes[2] | ones[2]]
}

// A call that passes one sets the second and the fourth of five chunks, and every second bit.
#[test]
fn chunks_and_bits_by_each_call(rt: HostRuntime) {
    let all = [0xF8, 0xFF, 0x1F];
    for (call, taken, chunks, bits) in [
        (Call::Next, 1, all, all),
        (Call::NextBack, 1, all, all),
        (Call::Nth, 2, [0x80, 0x87, 0x07], [0x50, 0x55, 0x15]),
        (Call::NthBack, 2, [0x80, 0x87, 0x07], [0xA8, 0xAA, 0x0A]),
    ] {
        for bytes in MEMORIES {
            let (mut by_chunks, mut by_bits) = (bytes, bytes);
            assert!(rt; walks_over_chunks(&mut by_chunks, call, taken));
            assert!(rt; walks_over_bits(&mut by_bits, call, taken));
            assert!(rt; by_chunks == with_ones(bytes, chunks) && by_bits == with_ones(bytes, bits));
        }
    }
}
