//! Bit orders that run through an element from one end to the other.
ghost use Rattle.std.specs.Prelude.{◌≡◌, ℕ, ◌-◌, ◌<◌, Bool, true, false, if◌then◌else◌, refl};

use bitvec_base::{BitOrder, Lsb0, Msb0};

/// An order whose indices run through an element from one end to the other.
///
/// Bits that are next to each other in it are next to each other in the element, so a shift of an element moves
/// them all at once.
pub trait WordOrder: BitOrder {
    ghost HIGH: { Bool };

    /// Whether index 0 is the most significant bit; if not, it is the least significant one.
    const HIGH: bool;

    ghost ends_law: { (b i : ℕ) → i < b → Self.at b i ≡ (if HIGH then b - 1 - i else i) };
}

impl WordOrder for Lsb0 {
    ghost HIGH = { false };

    const HIGH: bool = false;

    ghost ends_law = { λ b i h. refl };
}

impl WordOrder for Msb0 {
    ghost HIGH = { true };

    const HIGH: bool = true;

    ghost ends_law = { λ b i h. refl };
}
