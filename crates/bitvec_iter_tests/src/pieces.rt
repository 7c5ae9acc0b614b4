//! Walks over the pieces of 0, 0, 0, 1, 0, 1, 1, 1, of which no two of one length above 2 are the same.

use crate::bits::read;
use bitvec_base::Msb0;
use bitvec_cutting::Cutting;
use bitvec_iter::{IterCalls, Pieces};
use bitvec_slice::{BitSlice, BitSliceMut};

/// How many bits a piece has, and the number that they write.
type Read = Option<(usize, u32)>;

/// What four calls of `next` give.
fn forward<C: Cutting>(mut pieces: Pieces<'_, u8, Msb0, C>) -> [Read; 4] {
    let mut given = [None; 4];
    for place in &mut given {
        *place = read(pieces.next());
    }
    given
}

/// What `nth`, `nth_back`, `next` and `next_back` give.
fn from_both_ends<C: Cutting>(mut pieces: Pieces<'_, u8, Msb0, C>) -> [Read; 4] {
    [
        read(pieces.nth(1)),
        read(pieces.nth_back(0)),
        read(pieces.next()),
        read(pieces.next_back()),
    ]
}

#[test]
fn pieces_in_order_and_from_both_ends(rt: HostRuntime) {
    let view = BitSlice::<u8, Msb0>::from_slice(&[0x17]);
    let five = view.into_part(0..5);
    let in_order = [
        forward(view.rchunks(3)),
        forward(view.rchunks_exact(3)),
        forward(five.windows(3)),
    ];
    assert!(rt;
        in_order
            == [
                [Some((3, 7)), Some((3, 2)), Some((2, 0)), None],
                [Some((3, 7)), Some((3, 2)), None, None],
                [Some((3, 0)), Some((3, 1)), Some((3, 2)), None],
            ]
    );
    let by_turns = [
        from_both_ends(view.chunks(3)),
        from_both_ends(five.windows(3)),
    ];
    assert!(rt;
        by_turns
            == [
                [Some((3, 5)), Some((2, 3)), None, None],
                [Some((3, 1)), Some((3, 2)), None, None]
            ]
    );
}

/// The last piece by number, and the one before it.
fn last_two(view: BitSlice<'_, u8, Msb0>) -> [Read; 2] {
    let mut pieces = view.chunks(3);
    [read(pieces.nth_back(0)), read(pieces.next_back())]
}

#[test]
fn a_clone_walks_alone(rt: HostRuntime) {
    let elements = [0x17u8];
    assert!(rt; last_two(BitSlice::from_slice(&elements)) == [Some((2, 3)), Some((3, 5))]);
    let view = BitSlice::<u8, Msb0>::from_slice(&elements);
    let mut chunks = view.chunks(3);
    assert!(rt; read(chunks.next()) == Some((3, 0)));
    let hint = chunks.size_hint();
    let copied = match chunks.clone() {
        Ok(copy) => forward(copy),
        Err(_) => [None; 4],
    };
    assert!(rt; copied == [Some((3, 5)), Some((2, 3)), None, None]);
    assert!(rt; (hint, read(chunks.next())) == ((2, Some(2)), Some((3, 5))));
}

#[test]
fn remainders_are_left(rt: HostRuntime) {
    let mut elements = [0x17u8];
    let view = BitSliceMut::<u8, Msb0>::from_slice_mut(&mut elements);
    let mut front = view.chunks_exact(3);
    assert!(rt; (read(front.next_back()), front.len()) == (Some((3, 5)), 1));
    let left = front.remainder().len();
    let mut chunks = view.rchunks(3);
    assert!(rt; read(chunks.next()) == Some((3, 7)));
    assert!(rt; read(Some(view.rchunks_exact(3).remainder())) == Some((2, 0)));
    assert!(rt; [left, view.into_part(0..5).windows(6).len()] == [2, 0]);
}
