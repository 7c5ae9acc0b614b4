//! Elements by the numbers of the bits that are 1 in them.
ghost use Rattle.std.specs.Prelude.{◌≡◌, ◌-◌, ◌^◌, ◌<◌, ◌≤◌, true};
ghost use Rattle.bitvec_base.specs.Lists.{first_place, last_place};
ghost use Rattle.bitvec_base.specs.Memory.{element_bits};

use bitvec_store::BitStore;

/// The element whose one bit has this number.
pub(crate) fn single<R: BitStore>(place: usize) -> R
    requires { place < R.BITS }
    ensures { R.value result ≡ 2 ^ place }
{
    R::from_u128(1).shl(place as u32)
}

/// The element that has exactly the bits with the numbers from `from` up to, without, `to`.
pub(crate) fn ones<R: BitStore>(from: usize, to: usize) -> R
    requires order { from ≤ to }
    requires bound { to ≤ R.BITS }
    ensures { R.value result ≡ 2 ^ to - 2 ^ from }
{
    if from == to {
        return R::ZERO;
    }
    let count = (to - from) as u32;
    R::ALL.shr(R::BITS - count).shl(from as u32)
}

/// The number of the lowest bit that is 1, if there is one.
pub(crate) fn lowest<R: BitStore>(element: R) -> Option<usize>
    ensures { result ≡ first_place true (element_bits R.BITS (λ b i. i) (R.value element)) }
{
    element.in_range();
    let zeros = element.trailing_zeros();
    if zeros == R::BITS {
        return None;
    }
    Some(zeros as usize)
}

/// The number of the highest bit that is 1, if there is one.
pub(crate) fn highest<R: BitStore>(element: R) -> Option<usize>
    ensures { result ≡ last_place true (element_bits R.BITS (λ b i. i) (R.value element)) }
{
    element.in_range();
    let zeros = element.leading_zeros();
    if zeros == R::BITS {
        return None;
    }
    Some((R::BITS - 1 - zeros) as usize)
}
