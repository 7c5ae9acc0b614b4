//! A view, cut at the edges of elements.
ghost use Rattle.std.specs.Prelude.{◌≡◌, ◌+◌, ◌*◌, ◌≤◌, IfSome, length, map};
ghost use Rattle.std.specs.Option.{option_map};
ghost use Rattle.bitvec_base.specs.Memory.{HasWindow};
ghost use Rattle.bitvec_base.specs.Window.{max_bits};
ghost use Rattle.bitvec_domain.specs.Cuts.{IsCutWithin, IsPartWithin, cut_of, part_from, part_if_from};
ghost use Rattle.bitvec_domain.specs.declared.cut.Cut.TheVariants.{Across};
ghost use Rattle.bitvec_slice.specs.Domains.{enclave_part, region_parts, view_in, view_in_if, views_in, views_of, views_of_mut};
ghost use Rattle.bitvec_slice.specs.Views.{seen, seen_mut};

use crate::{BitSlice, BitSliceMut};
use bitvec_base::{BitOrder, Part, Window};
use bitvec_domain::Cut;
use bitvec_store::BitStore;

/// A view, cut at the edges of elements: `bitvec`'s `BitDomain`, over the type of the parts, which is
/// [`BitSlice`] of `bit_domain` and [`BitSliceMut`] of `bit_domain_mut`. In a `for` it gives them in their
/// order, as `parts` does.
#[derive(Clone, Copy, Debug, PartialEq, Eq, Drop)]
pub enum BitDomain<V> {
    /// Bits of one element that touch neither of its edges.
    Enclave(V),
    /// The bits of whole elements, and parts of one at either end. A part that isn't there is an
    /// empty view of no element.
    Region {
        /// The bits of the first element, if the view begins inside it.
        head: V,
        /// The bits of the elements that the view covers.
        body: V,
        /// The bits of the last element, if the view ends inside it.
        tail: V,
    },
}

/// What `bit_domain_mut` gives: `bitvec`'s `BitDomainMut`. Its variants are those of [`BitDomain`].
pub type BitDomainMut<'a, T, O> = BitDomain<BitSliceMut<'a, T, O>>;

impl<V: Drop> BitDomain<V> {
    /// The view, where it touches neither edge of the one element that it lies in: `enclave` of `bitvec`.
    pub fn enclave(self) -> Option<V>
        ensures { result ≡ enclave_part self }
    {
        match self {
            BitDomain::Enclave(view) => Some(view),
            BitDomain::Region {
                head: _,
                body: _,
                tail: _,
            } => None,
        }
    }

    /// The views of the three pieces, where the view isn't within one element: `region` of `bitvec`.
    pub fn region(self) -> Option<(V, V, V)>
        ensures { option_map (λ given. (given.0, (given.1, given.2))) result ≡ region_parts self }
    {
        match self {
            BitDomain::Enclave(_) => None,
            BitDomain::Region { head, body, tail } => Some((head, body, tail)),
        }
    }
}

/// A window, cut at the edges of elements. Condition: the memory has at most `MAX_BITS` bits, and
/// the window lies in it.
pub(crate) fn bit_domain_of<T: BitStore, O: BitOrder>(
    elements: &[T],
    window: Window,
) -> BitDomain<BitSlice<'_, T, O>>
    requires window { HasWindow T.BITS (map T.value elements.now) window }
    ensures { views_of result ≡ views_in T.BITS O.at T.value elements.now (cut_of T.BITS window) }
{
    match Cut::of_elements(elements, window) {
        Cut::Inside(part) => BitDomain::Enclave(part_view(elements, part)),
        Cut::Across {
            head,
            start,
            end,
            tail,
        } => BitDomain::Region {
            head: part_view_if(elements, head),
            body: BitSlice::from_slice(&elements[start..end]),
            tail: part_view_if(elements, tail),
        },
    }
}

/// The bits of a part, as a view of its element.
fn part_view<T: BitStore, O: BitOrder>(elements: &[T], part: Part) -> BitSlice<'_, T, O>
    requires { IsPartWithin T.BITS (length elements.now) part }
    ensures { seen result ≡ view_in T.BITS O.at T.value elements.now part }
{
    T::fits_in_memory();
    let cell = &elements[part.element..part.element + 1];
    BitSlice::from_parts(cell, part.from, part.to - part.from)
}

/// The bits of a part, if there is one.
fn part_view_if<T: BitStore, O: BitOrder>(elements: &[T], part: Option<Part>) -> BitSlice<'_, T, O>
    requires { IfSome part (IsPartWithin T.BITS (length elements.now)) }
    ensures { seen result ≡ view_in_if T.BITS O.at T.value elements.now part }
{
    if let Some(part) = part {
        return part_view(elements, part);
    }
    BitSlice::empty()
}

/// A window, cut at the edges of elements. Condition: the memory has at most `MAX_BITS` bits, and
/// the window lies in it.
pub(crate) fn bit_domain_mut_of<T: BitStore, O: BitOrder>(
    elements: &mut [T],
    window: Window,
) -> BitDomain<BitSliceMut<'_, T, O>>
    requires window { HasWindow T.BITS (map T.value elements.old) window }
    ensures { views_of_mut result ≡ views_in T.BITS O.at T.value elements.old (cut_of T.BITS window) }
{
    match Cut::of_elements(elements, window) {
        Cut::Inside(part) => BitDomain::Enclave(part_view_mut(elements, 0, part)),
        Cut::Across {
            head,
            start,
            end,
            tail,
        } => region(elements, head, start, end, tail),
    }
}

/// A part of one element, whole elements, and again a part of one.
fn region<T: BitStore, O: BitOrder>(
    elements: &mut [T],
    head: Option<Part>,
    start: usize,
    end: usize,
    tail: Option<Part>,
) -> BitDomain<BitSliceMut<'_, T, O>>
    requires cut { IsCutWithin T.BITS (length elements.old) (Across head start end tail) }
    requires fits { T.BITS * length elements.old ≤ max_bits }
    ensures { views_of_mut result ≡ views_in T.BITS O.at T.value elements.old (Across head start end tail) }
{
    let (front, after) = elements.split_at_mut(end);
    let (before, body) = front.split_at_mut(start);
    let head = part_view_if_mut(before, 0, head);
    let body = BitSliceMut::from_slice_mut(body);
    let tail = part_view_if_mut(after, end, tail);
    BitDomain::Region { head, body, tail }
}

/// The bits of a part, as a view of its element, where `elements` are the elements from the element
/// `first` on.
fn part_view_mut<T: BitStore, O: BitOrder>(
    elements: &mut [T],
    first: usize,
    part: Part,
) -> BitSliceMut<'_, T, O>
    requires first { first ≤ part.element }
    requires within { IsPartWithin T.BITS (first + length elements.old) part }
    ensures { seen_mut result ≡ view_in T.BITS O.at T.value elements.old (part_from first part) }
{
    T::fits_in_memory();
    let index = part.element - first;
    let (front, _) = elements.split_at_mut(index + 1);
    let (_, cell) = front.split_at_mut(index);
    BitSliceMut::from_parts(cell, part.from, part.to - part.from)
}

/// The bits of a part, if there is one, where `elements` are the elements from the element `first` on.
fn part_view_if_mut<T: BitStore, O: BitOrder>(
    elements: &mut [T],
    first: usize,
    part: Option<Part>,
) -> BitSliceMut<'_, T, O>
    requires first { IfSome part (λ p. first ≤ p.element) }
    requires within { IfSome part (IsPartWithin T.BITS (first + length elements.old)) }
    ensures { seen_mut result ≡ view_in_if T.BITS O.at T.value elements.old (part_if_from first part) }
{
    match part {
        None => BitSliceMut::empty_mut(),
        Some(part) => part_view_mut(elements, first, part),
    }
}
