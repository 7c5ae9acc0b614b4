//! The parts of a view that is cut at the edges of elements, one by one.
ghost use Rattle.std.specs.Prelude.{◌≡◌};
ghost use Rattle.std.specs.Iterator.{YieldsFirst, YieldsLast, item_count};
ghost use Rattle.bitvec_slice.specs.BitParts.{YieldsParts, parts_left};
ghost use Rattle.bitvec_slice.specs.Domains.{parts_of};

use crate::BitDomain;
use std::iter::FusedIterator;

/// The parts of a bit domain, in their order and from both ends: of an enclave its one view; of a region the
/// head, the body and the tail, each of them also where it is empty. `parts` and `into_iter` of
/// [`BitDomain`] make it.
///
/// Contracts see it as `parts_left`, the parts that are still to come.
#[derive(Drop)]
pub struct BitDomainParts<V> {
    head: Option<V>,
    body: Option<V>,
    tail: Option<V>,
}

impl<V: Drop> BitDomain<V> {
    /// The parts, in their order: the one view of an enclave, and of a region the head, the body and the
    /// tail, each of them also where it is empty. `bitvec`'s type has no such call.
    pub fn parts(self) -> BitDomainParts<V>
        ensures parts { parts_left result ≡ parts_of self }
        ensures runs { YieldsParts result }
    {
        match self {
            BitDomain::Enclave(part) => BitDomainParts {
                head: Some(part),
                body: None,
                tail: None,
            },
            BitDomain::Region { head, body, tail } => BitDomainParts {
                head: Some(head),
                body: Some(body),
                tail: Some(tail),
            },
        }
    }
}

/// The walk of `parts`.
impl<V: Drop> IntoIterator for BitDomain<V> {
    type Item = V;

    type IntoIter = BitDomainParts<V>;

    ghost into_iter_gives = { λ domain it. (parts_left it ≡ parts_of domain) × YieldsParts it };

    fn into_iter(self) -> BitDomainParts<V> {
        self.parts()
    }
}

impl<V: Drop> Iterator for BitDomainParts<V> {
    type Item = V;

    ghost next_gives = { YieldsFirst (λ it. parts_left it) };

    ghost remaining = { item_count (λ it. parts_left it) };

    /// The first of the parts that are still to come.
    fn next(&mut self) -> Option<V> {
        if let Some(part) = self.head.take() {
            return Some(part);
        }
        if let Some(part) = self.body.take() {
            return Some(part);
        }
        self.tail.take()
    }
}

impl<V: Drop> DoubleEndedIterator for BitDomainParts<V> {
    ghost next_back_gives = { YieldsLast (λ it. parts_left it) };

    /// The last of the parts that are still to come.
    fn next_back(&mut self) -> Option<V> {
        if let Some(part) = self.tail.take() {
            return Some(part);
        }
        if let Some(part) = self.body.take() {
            return Some(part);
        }
        self.head.take()
    }
}

impl<V: Drop> FusedIterator for BitDomainParts<V> {}
