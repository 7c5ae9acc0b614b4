//! The order that counts from the most significant bit.
ghost use Rattle.std.specs.Prelude.{◌-◌};
ghost use Rattle.bitvec_base.specs.OrderLaws.{msb0_permutes};

use crate::BitOrder;
use crate::ones::{highest, lowest, ones, single};
use bitvec_store::BitStore;

/// The order in which index `i` is bit `BITS - 1 - i`: the most significant bit first, as in the
/// crate.
#[derive(Clone, Copy)]
pub struct Msb0;

impl BitOrder for Msb0 {
    ghost at = { λ b i. b - 1 - i };

    ghost permutes = { msb0_permutes };

    fn at<R: BitStore>(index: usize) -> usize {
        R::BITS as usize - 1 - index
    }

    fn select<R: BitStore>(index: usize) -> R {
        single(Self::at::<R>(index))
    }

    fn mask<R: BitStore>(from: usize, to: usize) -> R {
        let bits = R::BITS as usize;
        ones(bits - to, bits - from)
    }

    fn first_one<R: BitStore>(element: R) -> Option<usize> {
        let place = highest(element)?;
        Some(Self::at::<R>(place))
    }

    fn last_one<R: BitStore>(element: R) -> Option<usize> {
        let place = lowest(element)?;
        Some(Self::at::<R>(place))
    }
}
