//! What is made of two bits, one bit or one element at a time.
ghost use Rattle.std.specs.Prelude.{◌≡◌};
ghost use Rattle.bitvec_base.specs.Lists.{combined};
ghost use Rattle.bitvec_base.specs.Memory.{element_bits};
ghost use Rattle.bitvec_words.specs.Operator.{operator};

use bitvec_base::BitOrder;
use bitvec_store::BitStore;

/// What is made of two bits.
#[derive(Clone, Copy, PartialEq, Eq, Debug)]
pub enum BitOp {
    /// 1 if both are: `&=` of `bitvec`.
    And,
    /// 1 if one or both are: `|=` of `bitvec`.
    Or,
    /// 1 if they differ: `^=` of `bitvec`.
    Xor,
    /// 1 if the first is and the other isn't: `difference_with` of sets of bits.
    AndNot,
}

impl BitOp {
    /// What the operator makes of two bits.
    pub fn of(self, bit: bool, other: bool) -> bool
        ensures { result ≡ operator self bit other }
    {
        match self {
            BitOp::And => bit && other,
            BitOp::Or => bit || other,
            BitOp::Xor => bit != other,
            BitOp::AndNot => bit && !other,
        }
    }

    /// What the operator makes of the bits of two elements, index by index.
    pub fn of_elements<O: BitOrder, T: BitStore>(self, element: T, other: T) -> T
        ensures { element_bits T.BITS O.at (T.value result)
            ≡ combined (operator self) (element_bits T.BITS O.at (T.value element)) (element_bits T.BITS O.at (T.value other)) }
    {
        match self {
            BitOp::And => element.and(other),
            BitOp::Or => element.or(other),
            BitOp::Xor => element.xor(other),
            BitOp::AndNot => element.xor(element.and(other)),
        }
    }
}
