//! A way to cut lists into numbered pieces.
ghost use Rattle.std.specs.Prelude.{◌≡◌, ℕ, ◌<◌, ◌≤◌};
ghost use Rattle.std.specs.declared.ops.Range.{Range};
ghost use Rattle.bitvec_cutting.specs.Cutting.{LiesIn};

use std::ops::Range;

/// A way to cut a list of bits into numbered pieces.
///
/// Contracts see it as `pieces`, how many pieces there are of a list of so many bits, and `place`,
/// where in it the piece of a number stands. By law each piece lies in the list, and there are no
/// more pieces than bits.
pub trait Cutting: Copy + Drop {
    // How many pieces a list of so many bits has.
    ghost pieces: { Self → ℕ → ℕ };

    // Where the piece of a number stands in such a list.
    ghost place: { Self → ℕ → ℕ → Range ℕ };

    /// How many pieces a list of `len` bits has.
    fn count(&self, len: usize) -> usize
        ensures { result ≡ pieces self.now len };

    /// The indices that the piece of a number has in a list of `len` bits. Condition: there is such a
    /// piece.
    fn piece(&self, len: usize, number: usize) -> Range<usize>
        requires { number < pieces self.now len }
        ensures { result ≡ place self.now len number };

    ghost inside: { (cutting : Self) (len number : ℕ) → number < pieces cutting len → LiesIn len (place cutting len number) };

    ghost few: { (cutting : Self) (len : ℕ) → pieces cutting len ≤ len };
}

/// A way to cut into pieces of one length, which may leave bits over.
pub trait ExactCutting: Cutting {
    // Where the bits that are left over stand in a list of so many.
    ghost left_over: { Self → ℕ → Range ℕ };

    /// The indices of the bits that no piece of a list of `len` bits has.
    fn remainder(&self, len: usize) -> Range<usize>
        ensures { result ≡ left_over self.now len };

    ghost rest_inside: { (cutting : Self) (len : ℕ) → LiesIn len (left_over cutting len) };
}
