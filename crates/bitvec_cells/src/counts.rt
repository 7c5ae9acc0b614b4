//! How many loads and stores an accessor made. The counts exist only in proofs.
ghost use Rattle.std.specs.Prelude.{◌≡◌, ℕ, ◌+◌};
ghost use Rattle.std.specs.Borrow.{ftrue};

use std::marker::Model;

// The counts of one accessor. A value takes no bytes, and only these three functions make one.
#[derive(Drop)]
pub(crate) struct Counts {
    /// The loads so far.
    pub ghost loads: { ℕ },
    /// The stores so far.
    pub ghost stores: { ℕ },
}

impl Model for Counts {
    ghost also_owns = { λ _. ftrue };
}

impl Counts {
    pub(crate) fn new() -> Counts
        ensures loads { result.loads ≡ 0 }
        ensures stores { result.stores ≡ 0 }
    {
        Counts {}
    }

    // The counts after so many more loads.
    #[inline(always)]
    pub(crate) fn loaded(&self, count: usize) -> Counts
        ensures loads { result.loads ≡ self.now.loads + count }
        ensures stores { result.stores ≡ self.now.stores }
    {
        Counts {}
    }

    // The counts after so many more stores.
    #[inline(always)]
    pub(crate) fn stored(&self, count: usize) -> Counts
        ensures loads { result.loads ≡ self.now.loads }
        ensures stores { result.stores ≡ self.now.stores + count }
    {
        Counts {}
    }
}
