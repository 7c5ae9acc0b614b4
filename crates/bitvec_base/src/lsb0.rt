//! The order that counts from the least significant bit.
ghost use Rattle.bitvec_base.specs.OrderLaws.{lsb0_permutes};

use crate::BitOrder;
use crate::ones::{highest, lowest, ones, single};
use bitvec_store::BitStore;

/// The order in which index `i` is bit `i`: the least significant bit first, as in `bitvec`.
#[derive(Clone, Copy)]
pub struct Lsb0;

impl BitOrder for Lsb0 {
    ghost at = { λ b i. i };

    ghost permutes = { lsb0_permutes };

    fn at<R: BitStore>(index: usize) -> usize {
        index
    }

    fn select<R: BitStore>(index: usize) -> R {
        single(index)
    }

    fn mask<R: BitStore>(from: usize, to: usize) -> R {
        ones(from, to)
    }

    fn first_one<R: BitStore>(element: R) -> Option<usize> {
        lowest(element)
    }

    fn last_one<R: BitStore>(element: R) -> Option<usize> {
        highest(element)
    }
}
