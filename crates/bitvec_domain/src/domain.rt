//! The elements that a view touches.
ghost use Rattle.std.specs.Prelude.{◌≡◌, IfSome, length, map};
ghost use Rattle.std.specs.Option.{option_map};
ghost use Rattle.bitvec_base.specs.Memory.{HasWindow};
ghost use Rattle.bitvec_domain.specs.Cuts.{IsPartWithin, cut_of};
ghost use Rattle.bitvec_domain.specs.Domains.{enclave_of, part_in, part_in_if, pieces_in, pieces_of, region_of, seen_part_if};
ghost use Rattle.bitvec_domain.specs.Parts.{seen_part};

use crate::PartialElement;
use crate::cut::Cut;
use bitvec_base::{BitOrder, Part, Window};
use bitvec_store::BitStore;

/// The elements that a view touches, in their order: `bitvec`'s `Domain` over shared elements.
#[derive(Drop)]
pub enum Domain<'a, T: BitStore, O: BitOrder> {
    /// Bits of one element that touch neither of its edges.
    Enclave(PartialElement<'a, T, O>),
    /// Whole elements, and parts of one at either end.
    Region {
        /// The bits of the first element, if the view begins inside it.
        head: Option<PartialElement<'a, T, O>>,
        /// The elements that the view covers.
        body: &'a [T],
        /// The bits of the last element, if the view ends inside it.
        tail: Option<PartialElement<'a, T, O>>,
    },
}

/// What a [`Domain`] has unless it is an enclave: the part before the whole elements, if there is one, the
/// whole elements, and the part behind them.
pub type Region<'a, T, O> = (
    Option<PartialElement<'a, T, O>>,
    &'a [T],
    Option<PartialElement<'a, T, O>>,
);

impl<'a, T: BitStore, O: BitOrder> Domain<'a, T, O> {
    /// The part of an element, if the view lies in one element and touches neither of its edges:
    /// `bitvec`'s `enclave`.
    pub fn enclave(self) -> Option<PartialElement<'a, T, O>>
        ensures { seen_part_if result ≡ enclave_of (pieces_of self.entry) }
    {
        match self {
            Domain::Enclave(part) => Some(part),
            Domain::Region {
                head: _,
                body: _,
                tail: _,
            } => None,
        }
    }

    /// The part before the whole elements, the whole elements, and the part behind them, unless the view is
    /// an enclave: `bitvec`'s `region`.
    pub fn region(self) -> Option<Region<'a, T, O>>
        ensures { option_map (λ given. (seen_part_if given.0, (given.1.now, seen_part_if given.2))) result ≡ region_of (pieces_of self.entry) }
    {
        match self {
            Domain::Enclave(_) => None,
            Domain::Region { head, body, tail } => Some((head, body, tail)),
        }
    }
}

/// The elements that a window touches. Condition: the memory has at most `MAX_BITS` bits, and the
/// window lies in it.
pub fn domain_of<T: BitStore, O: BitOrder>(elements: &[T], window: Window) -> Domain<'_, T, O>
    requires window { HasWindow T.BITS (map T.value elements.now) window }
    ensures { pieces_of result ≡ pieces_in T.BITS O.at T.value elements.now (cut_of T.BITS window) }
{
    match Cut::of_elements(elements, window) {
        Cut::Inside(part) => Domain::Enclave(part_of(elements, part)),
        Cut::Across {
            head,
            start,
            end,
            tail,
        } => Domain::Region {
            head: part_if(elements, head),
            body: &elements[start..end],
            tail: part_if(elements, tail),
        },
    }
}

/// The bits of a part.
fn part_of<T: BitStore, O: BitOrder>(elements: &[T], part: Part) -> PartialElement<'_, T, O>
    requires { IsPartWithin T.BITS (length elements.now) part }
    ensures { seen_part result ≡ part_in T.BITS O.at T.value elements.now part }
{
    PartialElement::new(&elements[part.element], part.from, part.to)
}

/// The bits of a part, if there is one.
fn part_if<T: BitStore, O: BitOrder>(
    elements: &[T],
    part: Option<Part>,
) -> Option<PartialElement<'_, T, O>>
    requires { IfSome part (IsPartWithin T.BITS (length elements.now)) }
    ensures { seen_part_if result ≡ part_in_if T.BITS O.at T.value elements.now part }
{
    match part {
        None => None,
        Some(part) => Some(part_of(elements, part)),
    }
}
