//! Square matrices of bits: row i of n by n bits is the bits i * n up to (i + 1) * n of a view.
ghost use Rattle.std.specs.Prelude.{◌≡◌, ◌+◌, ◌*◌, ◌<◌, false, replicate, slice_set, true};
ghost use Rattle.bitvec.specs.Operators.{or_within};
ghost use Rattle.bitvec.specs.Views.{seen, seen_mut};
ghost use Rattle.bitvec.specs.Writes.{WritesBits};
ghost use Rattle.bitmatrix.specs.Matrix.{Closes, IsEmpty, JoinsRow, Passes, SetsEntry, entry, row_of};

use bitvec::prelude::*;

/// The bit in row `i` and column `j`. Condition: the matrix has both.
#[tactic(auto, unfolding(crate::specs::Matrix::entry))]
pub fn get<T: BitStore, O: BitOrder>(
    matrix: BitSlice<'_, T, O>,
    n: usize,
    i: usize,
    j: usize,
) -> bool
    requires size { (seen matrix).window.len ≡ n * n }
    requires row { i < n }
    requires column { j < n }
    ensures { result ≡ entry n (seen matrix.entry).bits i j }
{
    matrix[i * n + j]
}

/// Row `i`. Condition: the matrix has it.
pub fn row<'a, T: BitStore, O: BitOrder>(
    matrix: BitSlice<'a, T, O>,
    n: usize,
    i: usize,
) -> BitSlice<'a, T, O>
    requires size { (seen matrix).window.len ≡ n * n }
    requires row { i < n }
    ensures bits { (seen result).bits ≡ row_of n (seen matrix.entry).bits i }
    ensures len { (seen result).window.len ≡ n }
{
    matrix.into_part(i * n..i * n + n)
}

/// Makes each bit 0. Condition: the view has n by n bits.
#[tactic(auto, using(crate::proofs::RowLaws::rows))]
pub fn clear<T: BitStore, O: SliceOrder>(matrix: &mut BitSliceMut<'_, T, O>, n: usize)
    requires { (seen_mut matrix.old).window.len ≡ n * n }
    ensures written { WritesBits matrix.old matrix.new (replicate (n * n) false) }
    ensures empty { IsEmpty n (seen_mut matrix.new).bits }
{
    matrix.fill(false);
}

/// Makes the bit in row `i` and column `j` 1. Condition: the matrix has both.
pub fn connect<T: BitStore, O: SliceOrder>(
    matrix: &mut BitSliceMut<'_, T, O>,
    n: usize,
    i: usize,
    j: usize,
)
    requires size { (seen_mut matrix.old).window.len ≡ n * n }
    requires row { i < n }
    requires column { j < n }
    ensures written { WritesBits matrix.old matrix.new (slice_set (seen_mut matrix.old).bits (i * n + j) true) }
    ensures sets { SetsEntry n i j (seen_mut matrix.old).bits (seen_mut matrix.new).bits }
{
    matrix.set(i * n + j, true);
}

/// Makes each bit of row `target` 1 where the bit of row `source` in its column is 1. Condition: the
/// matrix has both rows.
#[tactic(auto, using(bitvec::specs::Laws::lengths, crate::proofs::RowLaws::rows))]
pub fn or_row<T: BitStore, O: SliceOrder>(
    matrix: &mut BitSliceMut<'_, T, O>,
    n: usize,
    target: usize,
    source: usize,
)
    requires size { (seen_mut matrix.old).window.len ≡ n * n }
    requires target { target < n }
    requires source { source < n }
    ensures written { WritesBits matrix.old matrix.new (or_within (source * n) (source * n + n) (target * n) (seen_mut matrix.old).bits) }
    ensures joins { JoinsRow n target source (seen_mut matrix.old).bits (seen_mut matrix.new).bits }
{
    matrix.or_within(source * n..source * n + n, target * n);
}

/// Makes a bit 1 where its row leads to place `k`, and row `k` on to its column. Condition: there is such
/// a place. It is not inlined, so that its loop has the registers to itself.
#[tactic(auto, using(bitvec::specs::Laws::composed, crate::proofs::PathLaws::passing))]
#[inline(never)]
fn pass<T: BitStore, O: SliceOrder>(matrix: &mut BitSliceMut<'_, T, O>, n: usize, k: usize)
    requires size { (seen_mut matrix.old).window.len ≡ n * n }
    requires place { k < n }
    ensures written { WritesBits matrix.old matrix.new (seen_mut matrix.new).bits }
    ensures passes { Passes n k (seen_mut matrix.old).bits (seen_mut matrix.new).bits }
{
    for i in 0..n {
        if get(matrix.as_ref(), n, i, k) {
            or_row(matrix, n, i, k);
        }
    }
}

/// Makes each bit 1 exactly where there is a path along ones from its row to its column: the transitive
/// closure, by Warshall's algorithm. Condition: the view has n by n bits.
#[tactic(auto, using(bitvec::specs::Laws::composed, crate::proofs::PathLaws::closing))]
pub fn closure<T: BitStore, O: SliceOrder>(matrix: &mut BitSliceMut<'_, T, O>, n: usize)
    requires { (seen_mut matrix.old).window.len ≡ n * n }
    ensures written { WritesBits matrix.old matrix.new (seen_mut matrix.new).bits }
    ensures paths { Closes n (seen_mut matrix.old).bits (seen_mut matrix.new).bits }
{
    for k in 0..n {
        pass(matrix, n, k);
    }
}
