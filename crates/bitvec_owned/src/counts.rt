//! How many elements bits touch, and how many there may be.
ghost use Rattle.std.specs.Prelude.{◌≡◌, ◌*◌, ◌/◌, ◌<◌, ◌≤◌, IfOk, OnErr};
ghost use Rattle.std.specs.Int.{div_ceil};
ghost use Rattle.bitvec_base.specs.Window.{max_bits};

use bitvec_base::{MAX_BITS, elements_of};
use bitvec_store::BitStore;
use std::alloc::AllocError;

/// How many elements have at most `MAX_BITS` bits.
#[inline(always)]
pub(crate) fn most_elements<T: BitStore>() -> usize
    ensures { result ≡ max_bits / T.BITS }
{
    elements_of::<T>(MAX_BITS)
}

/// How many bits so many elements have. Condition: they are at most `MAX_BITS`.
#[inline(always)]
pub(crate) fn bits_of<T: BitStore>(elements: usize) -> usize
    requires { T.BITS * elements ≤ max_bits }
    ensures { result ≡ T.BITS * elements }
{
    elements * T::BITS as usize
}

/// How many elements the first so many bits of a memory touch.
#[inline(always)]
pub(crate) fn touched_by<T: BitStore>(bits: usize) -> usize
    ensures { result ≡ div_ceil bits T.BITS }
{
    bits.div_ceil(T::BITS as usize)
}

/// [`touched_by`]: an error where these elements have more than `MAX_BITS` bits.
#[inline(always)]
pub(crate) fn room_for<T: BitStore>(bits: usize) -> Result<usize, AllocError>
    ensures count { IfOk result (λ count. count ≡ div_ceil bits T.BITS) }
    ensures few { IfOk result (λ count. count ≤ max_bits / T.BITS) }
    ensures full { OnErr result (T.BITS * (max_bits / T.BITS) < bits) }
{
    let count = touched_by::<T>(bits);
    if count > most_elements::<T>() {
        return Err(AllocError);
    }
    Ok(count)
}
