//! The elements that a writable view touches.
ghost use Rattle.std.specs.Prelude.{◌≡◌, ◌+◌, ◌-◌, ◌≤◌, IfSome, length, map};
ghost use Rattle.std.specs.Option.{option_map};
ghost use Rattle.bitvec_base.specs.Memory.{HasWindow};
ghost use Rattle.bitvec_domain.specs.Cuts.{IsHeadWithin, IsPartWithin, IsTailWithin, cut_of, part_from, part_if_from};
ghost use Rattle.bitvec_domain.specs.Domains.{enclave_of, part_in, part_in_if, pieces_in, pieces_of_mut, region_of, seen_part_if_mut};
ghost use Rattle.bitvec_domain.specs.Parts.{seen_part_mut};
ghost use Rattle.bitvec_domain.specs.declared.cut.Cut.TheVariants.{Across};

use crate::PartialElementMut;
use crate::cut::Cut;
use bitvec_base::{BitOrder, Part, Window};
use bitvec_store::BitStore;

/// The elements that a writable view touches, in their order: `bitvec`'s `Domain` over exclusive
/// elements.
#[derive(Drop)]
pub enum DomainMut<'a, T: BitStore, O: BitOrder> {
    /// Bits of one element that touch neither of its edges.
    Enclave(PartialElementMut<'a, T, O>),
    /// Whole elements, and parts of one at either end.
    Region {
        /// The bits of the first element, if the view begins inside it.
        head: Option<PartialElementMut<'a, T, O>>,
        /// The elements that the view covers.
        body: &'a mut [T],
        /// The bits of the last element, if the view ends inside it.
        tail: Option<PartialElementMut<'a, T, O>>,
    },
}

/// What a [`DomainMut`] has unless it is an enclave: the part before the whole elements, if there is one, the
/// whole elements, and the part behind them.
pub type RegionMut<'a, T, O> = (
    Option<PartialElementMut<'a, T, O>>,
    &'a mut [T],
    Option<PartialElementMut<'a, T, O>>,
);

impl<'a, T: BitStore, O: BitOrder> DomainMut<'a, T, O> {
    /// The part of an element, if the view lies in one element and touches neither of its edges:
    /// `bitvec`'s `enclave`.
    pub fn enclave(self) -> Option<PartialElementMut<'a, T, O>>
        ensures { seen_part_if_mut result ≡ enclave_of (pieces_of_mut self.entry) }
    {
        match self {
            DomainMut::Enclave(part) => Some(part),
            DomainMut::Region {
                head: _,
                body: _,
                tail: _,
            } => None,
        }
    }

    /// The part before the whole elements, the whole elements, and the part behind them, unless the view is
    /// an enclave: `bitvec`'s `region`.
    pub fn region(self) -> Option<RegionMut<'a, T, O>>
        ensures { option_map (λ given. (seen_part_if_mut given.0, (given.1.now, seen_part_if_mut given.2))) result ≡ region_of (pieces_of_mut self.entry) }
    {
        match self {
            DomainMut::Enclave(_) => None,
            DomainMut::Region { head, body, tail } => Some((head, body, tail)),
        }
    }
}

/// The elements that a window touches. Condition: the memory has at most `MAX_BITS` bits, and the
/// window lies in it.
pub fn domain_mut_of<T: BitStore, O: BitOrder>(
    elements: &mut [T],
    window: Window,
) -> DomainMut<'_, T, O>
    requires window { HasWindow T.BITS (map T.value elements.old) window }
    ensures { pieces_of_mut result ≡ pieces_in T.BITS O.at T.value elements.old (cut_of T.BITS window) }
{
    match Cut::of_elements(elements, window) {
        Cut::Inside(part) => DomainMut::Enclave(part_of(elements, 0, part)),
        Cut::Across {
            head,
            start,
            end,
            tail,
        } => region(elements, head, start, end, tail),
    }
}

/// A part of an element, whole elements, and another part of one.
fn region<T: BitStore, O: BitOrder>(
    elements: &mut [T],
    head: Option<Part>,
    start: usize,
    end: usize,
    tail: Option<Part>,
) -> DomainMut<'_, T, O>
    requires head { IfSome head (IsHeadWithin T.BITS (length elements.old) start) }
    requires order { start ≤ end }
    requires bound { end ≤ length elements.old }
    requires tail { IfSome tail (IsTailWithin T.BITS (length elements.old) end) }
    ensures { pieces_of_mut result ≡ pieces_in T.BITS O.at T.value elements.old (Across head start end tail) }
{
    let (front, after) = elements.split_at_mut(end);
    let (before, body) = front.split_at_mut(start);
    let head = part_if(before, 0, head);
    let tail = part_if(after, end, tail);
    DomainMut::Region { head, body, tail }
}

/// The bits of a part, where `elements` begin with the element `first`.
fn part_of<T: BitStore, O: BitOrder>(
    elements: &mut [T],
    first: usize,
    part: Part,
) -> PartialElementMut<'_, T, O>
    requires first { first ≤ part.element }
    requires within { IsPartWithin T.BITS (first + length elements.old) part }
    ensures { seen_part_mut result ≡ part_in T.BITS O.at T.value elements.old (part_from first part) }
{
    PartialElementMut::new(&mut elements[part.element - first], part.from, part.to)
}

/// The bits of a part, if there is one, where `elements` begin with the element `first`.
fn part_if<T: BitStore, O: BitOrder>(
    elements: &mut [T],
    first: usize,
    part: Option<Part>,
) -> Option<PartialElementMut<'_, T, O>>
    requires first { IfSome part (λ p. first ≤ p.element) }
    requires within { IfSome part (IsPartWithin T.BITS (first + length elements.old)) }
    ensures { seen_part_if_mut result ≡ part_in_if T.BITS O.at T.value elements.old (part_if_from first part) }
{
    match part {
        None => None,
        Some(part) => Some(part_of(elements, first, part)),
    }
}
