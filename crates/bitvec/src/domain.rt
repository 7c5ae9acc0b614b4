//! The elements that a view touches, and a view cut at their edges.
pub use bitvec_domain::{
    Cut, Domain, DomainMut, DomainValues, PartialElement, PartialElementMut, Region, RegionMut,
    domain_mut_of, domain_of,
};
pub use bitvec_slice::{BitDomain, BitDomainMut, BitDomainParts};
