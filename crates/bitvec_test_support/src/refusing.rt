//! An allocator that runs out of memory when a test wants it to.
use std::alloc::{AllocError, Allocator};
use std::cell::Cell;

/// How many requests are still granted, how many were and of how many bytes, and how many were refused.
#[derive(Drop)]
struct Allowance {
    left: Cell<u64>,
    granted: Cell<u64>,
    bytes: Cell<u64>,
    refused: Cell<u64>,
}

impl Allowance {
    /// Spends one request for so many bytes. The answer is whether there was one left to spend.
    fn spend(&self, bytes: usize) -> bool {
        let left = self.left.get();
        if left == 0 {
            self.refused.set(self.refused.get().saturating_add(1));
            return false;
        }
        self.left.set(left - 1);
        self.granted.set(self.granted.get().saturating_add(1));
        self.bytes
            .set(self.bytes.get().saturating_add(bytes as u64));
        true
    }
}

/// An allocator that passes its first requests on to another one, and refuses every later one.
///
/// A request is a call that asks for a block: to allocate, and to grow or to shrink a block, which
/// here allocate a new one. Giving a block back is never refused.
///
/// A test refuses each request for memory by a loop over the number granted, until a run in
/// which nothing was refused. It lends the allocator: `&Refusing<B>` is `Copy`, and an allocator.
#[derive(Drop)]
pub struct Refusing<B: Allocator> {
    inner: B,
    allowance: Allowance,
}

impl<B: Allocator> Refusing<B> {
    /// An allocator that grants `granted` requests from `inner`.
    pub fn new(inner: B, granted: u64) -> Self {
        let allowance = Allowance {
            left: Cell::new(granted),
            granted: Cell::new(0),
            bytes: Cell::new(0),
            refused: Cell::new(0),
        };
        Refusing { inner, allowance }
    }

    /// How many requests were granted so far. It stops at `u64::MAX`.
    pub fn granted(&self) -> u64 {
        self.allowance.granted.get()
    }

    /// Of how many bytes the requests were that were granted so far, all together. It stops at
    /// `u64::MAX`.
    pub fn bytes(&self) -> u64 {
        self.allowance.bytes.get()
    }

    /// How many requests were refused so far. It stops at `u64::MAX`.
    pub fn refused(&self) -> u64 {
        self.allowance.refused.get()
    }

    /// Whether no request was refused so far.
    pub fn granted_all(&self) -> bool {
        self.refused() == 0
    }
}

unsafe impl<B: Allocator> Allocator for Refusing<B> {
    ghost dealloc_token = { λ heap ty ptr. B.dealloc_token heap.inner ty ptr };

    fn allocate(&self, size: usize, align: usize) -> Result<*mut u8, AllocError> {
        if !self.allowance.spend(size) {
            return Err(AllocError);
        }
        self.inner.allocate(size, align)
    }

    unsafe fn deallocate(&self, ptr: *mut u8, size: usize, align: usize) {
        self.inner.deallocate(ptr, size, align);
    }
}
