//! Edits of parts of a view by closures.
ghost use Rattle.std.specs.Prelude.{◌<◌, ◌≤◌, Bool, List, length};
ghost use Rattle.std.specs.Borrow.{GName};
ghost use Rattle.bitvec_base.specs.Window.{IsWithin};
ghost use Rattle.bitvec_slice.specs.Indices.{HasRange};
ghost use Rattle.bitvec_closures.specs.InPlace.{StandsAt, WritesInPlace};
ghost use Rattle.bitvec_closures.specs.Pieces.{EditsHalves, EditsPiece, EditsPieces, IsApart, IsPieceOf, MayEdit, MayEditEach, Narrows, way_of, in_back_chunks, in_chunks, in_whole_back_chunks, in_whole_chunks, range_of};

use bitvec_base::{BitOrder, Window};
use bitvec_cutting::{Cutting, InChunks, InChunksFromEnd, InExactChunks, InExactChunksFromEnd};
use bitvec_slice::{Sealed, View, ViewMut};
use bitvec_store::BitStore;
use std::ops::Range;

/// Edits of parts of a writable view by closures, which take the view itself, narrowed to the part
/// for the time of the call. So what is known of the view afterwards is exact: the part has the bits
/// that the closure left, and all else is as before. Indices, ranges and sizes are in bits.
///
/// The narrowed view stands among all elements of the whole one, and a closure has it as a `&mut`,
/// so that it can't take the elements. A closure owes that the piece stays where it stands, which
/// each edit of a view ensures; what it keeps in a captured `&mut` is not known afterwards, so a
/// closure of `edit_with` gives back as its result what the caller is to know. `bitvec` has no such
/// calls: its parts are views of their own.
pub trait EditParts<T: BitStore, O: BitOrder>: ViewMut<T, O> + Sized {
    // Which memory the view borrows, by its name among borrows.
    ghost named: { Self → GName };

    /// Moves the view to another window of its elements, which it owes to leave. Condition: these
    /// have the window. Only crates that the library is made of have a `Sealed` to call it with.
    #[doc(hidden)]
    fn stand_at(&mut self, window: Window, by: Sealed)
        requires { IsWithin window (length (Self.shows self.old).memory) }
        ensures { StandsAt Self.shows named self.old window self.new };

    // What shows new bits, and all else as before, was written so.
    ghost written_so: { (before after : Self) (new : List Bool)
        → WritesInPlace Self.shows named before after new → Self.writes before after new };

    /// Narrows the view to a range of its bits, and gives where it stood. Condition: it has the range.
    #[doc(hidden)]
    final fn narrow(&mut self, range: Range<usize>) -> Window
        requires { HasRange range (Self.shows self.old).window.len }
        ensures { Narrows Self.shows named self.old range result self.new }
    {
        let window = self.window();
        self.stand_at(
            Window {
                start: window.start + range.start,
                len: range.end - range.start,
            },
            Sealed,
        );
        window
    }

    /// `edit_with`, with all that the view shows as what a caller learns.
    #[doc(hidden)]
    final fn edit_shown<R, F: FnOnce(&mut Self) -> R>(&mut self, range: Range<usize>, edit: F) -> R
        requires range { HasRange range (Self.shows self.old).window.len }
        requires edit { MayEdit Self.shows named (F.pre edit) (F.post edit) (IsPieceOf (Self.shows self.old) range) }
        ensures { EditsPiece Self.shows (WritesInPlace Self.shows named)
            (F.post edit) self.old range result self.new }
    {
        let window = self.narrow(range);
        let result = edit(self);
        self.stand_at(window, Sealed);
        result
    }

    /// Calls `edit` on the bits of a range, and gives its result. Conditions: `start <= end <= len`;
    /// `edit` may be called on a view of these bits, and leaves it in its place.
    final fn edit_with<R, F: FnOnce(&mut Self) -> R>(&mut self, range: Range<usize>, edit: F) -> R
        requires range { HasRange range (Self.shows self.old).window.len }
        requires edit { MayEdit Self.shows named (F.pre edit) (F.post edit) (IsPieceOf (Self.shows self.old) range) }
        ensures { EditsPiece Self.shows Self.writes (F.post edit) self.old range result self.new }
    {
        self.edit_shown(range, edit)
    }

    /// Calls `left` on the bits before `mid`, then `right` on those from it, and gives both results;
    /// afterwards the bits are what `left` left and then what `right` left. Conditions: `mid <= len`;
    /// each closure may be called on a view of its bits, and leaves it in its place.
    final fn edit_halves<A, B, L: FnOnce(&mut Self) -> A, R: FnOnce(&mut Self) -> B>(
        &mut self,
        mid: usize,
        left: L,
        right: R,
    ) -> (A, B)
        requires bound { mid ≤ (Self.shows self.old).window.len }
        requires left { MayEdit Self.shows named (L.pre left) (L.post left) (IsPieceOf (Self.shows self.old) (range_of 0 mid)) }
        requires right { MayEdit Self.shows named (R.pre right) (R.post right) (IsPieceOf (Self.shows self.old) (range_of mid (Self.shows self.old).window.len)) }
        ensures { EditsHalves Self.shows Self.writes (L.post left) (R.post right) self.old mid result.0 result.1 self.new }
    {
        let len = self.window().len;
        let before = self.edit_shown(0..mid, left);
        let behind = self.edit_shown(mid..len, right);
        (before, behind)
    }

    /// Calls `edit` on each piece of a cutting and its number, in ascending order from 0 on.
    /// Conditions: each piece has some bits, and no two overlap; `edit` may be called on each piece,
    /// whatever it keeps from the calls before, and leaves it in its place.
    #[doc(hidden)]
    final fn for_each_piece_mut<C: Cutting, F: FnMut(usize, &mut Self)>(
        &mut self,
        cutting: C,
        mut edit: F,
    )
        requires apart { IsApart (way_of (C.pieces cutting) (C.place cutting)) (Self.shows self.old).window.len }
        requires edit { MayEditEach Self.shows named F.pre F.step edit (Self.shows self.old) (way_of (C.pieces cutting) (C.place cutting)) }
        ensures { EditsPieces Self.shows named Self.writes F.step edit self.old (way_of (C.pieces cutting) (C.place cutting)) self.new }
    {
        let len = self.window().len;
        for number in 0..cutting.count(len) {
            let window = self.narrow(cutting.piece(len, number));
            edit(number, self);
            self.stand_at(window, Sealed);
        }
    }

    /// Calls `edit` on each chunk of `size` bits and its number, in ascending order from 0 on; the
    /// last chunk has as many bits as are left. Conditions: `size` is not 0; `edit` may be called on
    /// each chunk, whatever it keeps from the calls before, and leaves it in its place.
    final fn for_each_chunk_mut<F: FnMut(usize, &mut Self)>(&mut self, size: usize, edit: F)
        requires some { 0 < size }
        requires edit { MayEditEach Self.shows named F.pre F.step edit (Self.shows self.old) (in_chunks size) }
        ensures { EditsPieces Self.shows named Self.writes F.step edit self.old (in_chunks size) self.new }
    {
        self.for_each_piece_mut(InChunks { size }, edit)
    }

    /// Calls `edit` on each chunk of `size` bits from the end and its number, in ascending order from
    /// 0, the last chunk of the view, on; the chunk that begins the view has as many bits as are left.
    /// Conditions: as for `for_each_chunk_mut`.
    final fn for_each_rchunk_mut<F: FnMut(usize, &mut Self)>(&mut self, size: usize, edit: F)
        requires some { 0 < size }
        requires edit { MayEditEach Self.shows named F.pre F.step edit (Self.shows self.old) (in_back_chunks size) }
        ensures { EditsPieces Self.shows named Self.writes F.step edit self.old (in_back_chunks size) self.new }
    {
        self.for_each_piece_mut(InChunksFromEnd { size }, edit)
    }

    /// Calls `edit` on each whole chunk of `size` bits and its number, in ascending order from 0 on;
    /// the bits behind them stay. Conditions: as for `for_each_chunk_mut`.
    final fn for_each_chunk_exact_mut<F: FnMut(usize, &mut Self)>(&mut self, size: usize, edit: F)
        requires some { 0 < size }
        requires edit { MayEditEach Self.shows named F.pre F.step edit (Self.shows self.old) (in_whole_chunks size) }
        ensures { EditsPieces Self.shows named Self.writes F.step edit self.old (in_whole_chunks size) self.new }
    {
        self.for_each_piece_mut(InExactChunks { size }, edit)
    }

    /// Calls `edit` on each whole chunk of `size` bits from the end and its number, in ascending order
    /// from 0, the last chunk of the view, on; the bits before them stay. Conditions: as for
    /// `for_each_chunk_mut`.
    final fn for_each_rchunk_exact_mut<F: FnMut(usize, &mut Self)>(&mut self, size: usize, edit: F)
        requires some { 0 < size }
        requires edit { MayEditEach Self.shows named F.pre F.step edit (Self.shows self.old) (in_whole_back_chunks size) }
        ensures { EditsPieces Self.shows named Self.writes F.step edit self.old (in_whole_back_chunks size) self.new }
    {
        self.for_each_piece_mut(InExactChunksFromEnd { size }, edit)
    }
}
