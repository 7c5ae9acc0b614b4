//! The chain of n places, in which each but the last leads to the next one.
ghost use Rattle.std.specs.Prelude.{◌≡◌, ◌*◌};
ghost use Rattle.bitvec.specs.Views.{seen_mut};
ghost use Rattle.bitvec.specs.Writes.{WritesBits};
ghost use Rattle.bitmatrix.specs.Matrix.{IsChain};

use crate::matrix::{clear, connect};
use bitvec::prelude::*;

/// Makes the matrix that of a chain. Condition: the view has n by n bits.
#[tactic(auto, using(bitvec::specs::Laws::composed, crate::proofs::ChainLaws::linking))]
pub fn link<T: BitStore, O: SliceOrder>(matrix: &mut BitSliceMut<'_, T, O>, n: usize)
    requires { (seen_mut matrix.old).window.len ≡ n * n }
    ensures written { WritesBits matrix.old matrix.new (seen_mut matrix.new).bits }
    ensures chain { IsChain n (seen_mut matrix.new).bits }
{
    clear(matrix, n);
    for j in 1..n {
        connect(matrix, n, j - 1, j);
    }
}
