//! The values of the elements that a view touches, one by one.
ghost use Rattle.std.specs.Prelude.{◌≡◌, [], ◌∷◌, MatchOption, None};
ghost use Rattle.std.specs.Iterator.{YieldsFirstBy, YieldsLastBy, item_count};
ghost use Rattle.bitvec_domain.specs.Domains.{pieces_of, seen_part_if};
ghost use Rattle.bitvec_domain.specs.Values.{numbers_if, numbers_of_pieces};

use crate::{Domain, PartialElement};
use bitvec_base::BitOrder;
use bitvec_store::BitStore;
use std::iter::FusedIterator;

/// The values of the elements that a view touches, in their order and from both ends; in an element
/// that it touches in part, the bits outside the part are 0. `values` and `into_iter` of [`Domain`]
/// return it.
///
/// Contracts see it as `values_left`, the numbers of the values that are still to come.
#[derive(Drop)]
pub struct DomainValues<'a, T: BitStore, O: BitOrder> {
    head: Option<PartialElement<'a, T, O>>,
    body: &'a [T],
    tail: Option<PartialElement<'a, T, O>>,
}

impl<'a, T: BitStore, O: BitOrder> Domain<'a, T, O> {
    ghost use Rattle.bitvec_domain.specs.Values.{YieldsValues, values_left};

    /// The values of the elements, in their order: what `bitvec`'s `Domain` gives, which is an iterator.
    pub fn values(self) -> DomainValues<'a, T, O>
        ensures values { values_left result ≡ numbers_of_pieces T.BITS O.at T.value (pieces_of self.entry) }
        ensures runs { YieldsValues result }
    {
        match self {
            Domain::Enclave(part) => DomainValues {
                head: Some(part),
                body: &[],
                tail: None,
            },
            Domain::Region { head, body, tail } => DomainValues { head, body, tail },
        }
    }
}

/// The walk of `values`.
impl<'a, T: BitStore, O: BitOrder> IntoIterator for Domain<'a, T, O> {
    ghost use Rattle.bitvec_domain.specs.Values.{YieldsValues, values_left};

    type Item = T;

    type IntoIter = DomainValues<'a, T, O>;

    ghost into_iter_gives = { λ domain it. (values_left it ≡ numbers_of_pieces T.BITS O.at T.value (pieces_of domain)) × YieldsValues it };

    fn into_iter(self) -> DomainValues<'a, T, O> {
        self.values()
    }
}

// takes the part, if there is one, and gives its value
fn take_value<'a, T: BitStore, O: BitOrder>(
    part: &mut Option<PartialElement<'a, T, O>>,
) -> Option<T>
    ensures value { MatchOption result (numbers_if T.BITS O.at T.value (seen_part_if part.old) ≡ []) (λ x. numbers_if T.BITS O.at T.value (seen_part_if part.old) ≡ T.value x ∷ []) }
    ensures after { part.new ≡ None }
{
    let part = part.take()?;
    Some(part.load_value())
}

impl<'a, T: BitStore, O: BitOrder> Iterator for DomainValues<'a, T, O> {
    ghost use Rattle.bitvec_domain.specs.Values.{values_left};

    type Item = T;

    ghost next_gives = { YieldsFirstBy T.value (λ it. values_left it) };

    ghost remaining = { item_count (λ it. values_left it) };

    /// The first of the values that are still to come.
    fn next(&mut self) -> Option<T> {
        if let Some(value) = take_value(&mut self.head) {
            return Some(value);
        }
        if let Some((first, rest)) = self.body.split_first() {
            self.body = rest;
            return Some(*first);
        }
        take_value(&mut self.tail)
    }
}

impl<'a, T: BitStore, O: BitOrder> DoubleEndedIterator for DomainValues<'a, T, O> {
    ghost use Rattle.bitvec_domain.specs.Values.{values_left};

    ghost next_back_gives = { YieldsLastBy T.value (λ it. values_left it) };

    /// The last of the values that are still to come.
    fn next_back(&mut self) -> Option<T> {
        if let Some(value) = take_value(&mut self.tail) {
            return Some(value);
        }
        if let Some((last, rest)) = self.body.split_last() {
            self.body = rest;
            return Some(*last);
        }
        take_value(&mut self.head)
    }
}

impl<'a, T: BitStore, O: BitOrder> FusedIterator for DomainValues<'a, T, O> {}
