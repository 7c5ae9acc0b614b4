//! Powers of two.
ghost use Rattle.std.specs.Prelude.{◌≡◌, ◌^◌, ◌<◌};

/// The powers of two with these exponents.
macro_rules! powers {
    ($($exponent:literal)*) => { &[$(1 << $exponent),*] };
}

/// The powers of two that a `u64` holds, by their exponents: a shift by a number that isn't known takes
/// several steps.
const POWERS: &[u64] = powers!(
    0 1 2 3 4 5 6 7 8 9 10 11 12 13 14 15
    16 17 18 19 20 21 22 23 24 25 26 27 28 29 30 31
    32 33 34 35 36 37 38 39 40 41 42 43 44 45 46 47
    48 49 50 51 52 53 54 55 56 57 58 59 60 61 62 63
);

/// Two to a power. Condition: the exponent is below 64.
#[inline(always)]
pub(crate) fn power(exponent: usize) -> u64
    requires { exponent < 64 }
    ensures { result ≡ 2 ^ exponent }
{
    POWERS[exponent]
}
