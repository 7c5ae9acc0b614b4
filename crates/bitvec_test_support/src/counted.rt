//! An accessor that tallies its loads and stores as it runs.
ghost use Rattle.std.specs.Prelude.{◌≡◌};
ghost use Rattle.bitvec_test_support.specs.Counted.{inner_of, load_tally, store_tally};

use bitvec_cells::{Cells, CellsRead};

/// An accessor around another one, which counts calls at run time, so that a test can compare
/// what a call really did with the bound that its contract promises.
///
/// Contracts see it as the accessor inside.
#[derive(Drop)]
pub struct Counted<C> {
    inner: C,
    loads: u64,
    stores: u64,
}

impl<C> Counted<C> {
    /// Counts the calls on this accessor from here on.
    pub fn new(inner: C) -> Self
        ensures inner { inner_of result ≡ inner }
        ensures loads { load_tally result ≡ 0 }
        ensures stores { store_tally result ≡ 0 }
    {
        Counted {
            inner,
            loads: 0,
            stores: 0,
        }
    }

    /// How many loads were made; at most `u64::MAX`.
    pub fn loads(&self) -> u64
        ensures { result ≡ load_tally self.now }
    {
        self.loads
    }

    /// How many stores were made; at most `u64::MAX`.
    pub fn stores(&self) -> u64
        ensures { result ≡ store_tally self.now }
    {
        self.stores
    }
}

impl<C: CellsRead> CellsRead for Counted<C> {
    type Elem = C::Elem;

    ghost borrow = { λ counted. C.borrow (inner_of counted) };

    ghost numbers = { λ counted. C.numbers (inner_of counted) };

    ghost loads = { λ counted. C.loads (inner_of counted) };

    ghost stores = { λ counted. C.stores (inner_of counted) };

    fn len(&self) -> usize {
        self.inner.len()
    }

    fn load(&mut self, index: usize) -> C::Elem {
        self.loads = self.loads.saturating_add(1);
        self.inner.load(index)
    }
}

impl<C: Cells> Cells for Counted<C> {
    fn store(&mut self, index: usize, element: C::Elem) {
        self.stores = self.stores.saturating_add(1);
        self.inner.store(index, element)
    }
}
