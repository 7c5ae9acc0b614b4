//! Chunks of a view that are lent, from both ends, and what no exact chunk has.
use bitvec_base::{Lsb0, Msb0};
use bitvec_edit::BitEdits;
use bitvec_iter::PieceCallsMut;
use bitvec_slice::BitSliceMut;

/// Sets the first bit of each chunk of four, by turns from both ends, by the calls that give no `Option`.
fn set_first_bits(bytes: &mut [u8; 1]) {
    let mut view = BitSliceMut::<u8, Msb0>::from_slice_mut(bytes);
    let mut chunks = view.chunks_exact_mut(4);
    for number in 0..chunks.len() {
        if chunks.is_empty() {
            break;
        }
        let mut chunk = if number % 2 == 0 {
            chunks.take_mut()
        } else {
            chunks.take_back_mut()
        };
        if !chunk.is_empty() {
            chunk.set(0, true);
        }
    }
}

/// How many chunks of three bits there are, how many bits their remainder has, which is set, how many it has
/// when it is taken again, how many the first chunk has then, and how many are left at the end.
fn set_remainder(bytes: &mut [u8; 1]) -> [usize; 5] {
    let mut view = BitSliceMut::<u8, Lsb0>::from_slice_mut(bytes);
    let mut chunks = view.chunks_exact_mut(3);
    let count = chunks.len();
    let first = {
        let mut rest = chunks.take_remainder();
        rest.fill(true);
        rest.len()
    };
    let again = {
        let rest = chunks.take_remainder();
        rest.len()
    };
    let came = len_of(chunks.next_mut());
    let left = {
        let rest = chunks.into_remainder();
        rest.len()
    };
    [count, first, again, came, left]
}

/// How many bits a chunk has, if one came.
fn len_of(chunk: Option<BitSliceMut<'_, u8, Lsb0>>) -> usize {
    match chunk {
        Some(chunk) => chunk.len(),
        None => 0,
    }
}

/// Sets what is left before the chunks from the end.
fn set_left_over(view: &mut BitSliceMut<'_, u8, Lsb0>) {
    let chunks = view.rchunks_exact_mut(3);
    let mut rest = chunks.into_remainder();
    rest.fill(true);
}

/// Sets the second of two chunks, passing the first.
fn set_second(view: &mut BitSliceMut<'_, u8, Msb0>) {
    let mut chunks = view.chunks_exact_mut(4);
    if let Some(mut chunk) = chunks.nth_mut(1) {
        chunk.fill(true);
    }
}

#[test]
fn chunks_and_a_remainder_are_taken(rt: HostRuntime) {
    let mut first_bits = [0x00];
    set_first_bits(&mut first_bits);
    let mut bytes = [0x00];
    assert!(rt; set_remainder(&mut bytes) == [2, 2, 0, 3, 0]);
    set_left_over(&mut BitSliceMut::from_slice_mut(&mut bytes));
    let mut second = [0x00];
    set_second(&mut BitSliceMut::from_slice_mut(&mut second));
    assert!(rt; [first_bits, bytes, second] == [[0x88], [0xC3], [0x0F]]);
}
