//! Edits of parts of a view by closures: what a caller knows of the view afterwards.
ghost use Rattle.std.specs.Prelude.{◌≡◌, ℕ, ◌+◌, ◌*◌, ◌<◌, ◌≤◌, [], ◌∷◌, ◌++◌, map, not, replicate, slice_range, true};
ghost use Rattle.bitvec.specs.Memory.{memory_bits};
ghost use Rattle.bitvec.specs.Window.{write_at};
ghost use Rattle.bitvec.specs.Views.{seen, seen_mut};
ghost use Rattle.bitvec.specs.Writes.{WritesBits};
ghost use Rattle.bitvec.specs.Operators.{or_of};

use bitvec::prelude::*;

/// Makes the bits before `mid` ones, and flips those from it.
pub fn fill_then_invert<T: BitStore, O: SliceOrder>(view: &mut BitSliceMut<'_, T, O>, mid: usize)
    requires { mid ≤ (seen_mut view.old).window.len }
    ensures { WritesBits view.old view.new
        (replicate mid true ++ map not (slice_range (seen_mut view.old).bits mid (seen_mut view.old).window.len)) }
{
    view.edit_halves(mid, |left| left.fill(true), |right| right.invert());
}

/// Flips each chunk of `size` bits.
pub fn invert_chunks<T: BitStore, O: SliceOrder>(view: &mut BitSliceMut<'_, T, O>, size: usize)
    requires { 0 < size }
    ensures { (k : ℕ) → k * size < (seen_mut view.old).window.len → slice_range (seen_mut view.new).bits (k * size) (k * size + size)
        ≡ map not (slice_range (seen_mut view.old).bits (k * size) (k * size + size)) }
{
    view.for_each_chunk_mut(size, |_index, piece| piece.invert());
}

/// Gives the bits `from` up to `to` the ones of a mask too.
pub fn or_part<T: BitStore, O: SliceOrder, U: BitStore, P: BitOrder>(
    view: &mut BitSliceMut<'_, T, O>,
    from: usize,
    to: usize,
    mask: BitSlice<'_, U, P>,
)
    requires order { from ≤ to }
    requires bound { to ≤ (seen_mut view.old).window.len }
    ensures { WritesBits view.old view.new (write_at (seen_mut view.old).bits from
        (or_of (slice_range (seen_mut view.old).bits from to) (seen mask.entry).bits)) }
{
    view.edit_with(from..to, move |piece| piece.or_bits(mask));
}

/// Gives the first eight bits the ones of a byte too.
pub fn or_front(view: &mut BitSliceMut<'_, u64, Lsb0>, byte: u8)
    requires { 8 ≤ (seen_mut view.old).window.len }
    ensures { WritesBits view.old view.new (write_at (seen_mut view.old).bits 0
        (or_of (slice_range (seen_mut view.old).bits 0 8) (memory_bits 8 (λ _ i. i) (byte ∷ [])))) }
{
    let mask = BitSlice::<u8, Lsb0>::from_element(&byte);
    view.edit_with(
        0..8,
        &move |part: &mut BitSliceMut<u64, Lsb0>| part.or_bits(mask),
    );
}

/// Edits two bytes by all of these, one after the other.
fn edit_by_all(bytes: &mut [u8; 2]) {
    let mut view = BitSliceMut::<u8, Lsb0>::from_slice_mut(bytes);
    fill_then_invert(&mut view, 3);
    invert_chunks(&mut view, 5);
    view.for_each_rchunk_mut(5, |_index, piece| piece.invert());
    view.for_each_rchunk_exact_mut(5, |_index, piece| piece.invert());
}

/// Gives the first byte of a word the ones of another, and its last half those of a view.
fn or_both(words: &mut [u64; 1], byte: u8) {
    let mut view = BitSliceMut::<u64, Lsb0>::from_slice_mut(words);
    or_front(&mut view, byte);
    or_part(
        &mut view,
        32,
        64,
        BitSlice::<u8, Lsb0>::from_slice(&[0x0F, 0x10]),
    );
}

#[test]
fn parts_are_edited_in_place(rt: HostRuntime) {
    let mut bytes = [0x50u8, 0];
    edit_by_all(&mut bytes);
    assert!(rt; bytes == [0x51, 0]);
    let mut words = [0x8000_0000_0000_0100u64];
    or_both(&mut words, 0x81);
    assert!(rt; words == [0x8000_100F_0000_0181]);
}
