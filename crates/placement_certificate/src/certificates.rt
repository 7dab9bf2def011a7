//! Requests for pages, and certificates of their answers.
use page_ranges::MemoryType;
use std::alloc::{Allocator, Global};
use std::marker::Model;

/// A request for pages: their type, how many they are, and the page number by which they end. The
/// `granule`, in pages, is 1 or 16: the first page is a multiple of it, and so is `pages`. It is 16 only on
/// machines with a granule of 16 pages, for the types that fill granules there.
#[derive(Clone, Copy, Debug, PartialEq, Eq)]
pub struct Request {
    pub mtype: MemoryType,
    pub pages: u64,
    pub limit: u64,
    pub granule: u64,
}

/// What a certificate says of one entry of the memory map, named by its first page and its pages:
/// the lowest price of a permitted start in it with the highest start at that price, or that
/// there is no permitted start.
#[derive(Clone, Copy, Debug, PartialEq, Eq)]
pub struct Bound {
    pub first: u64,
    pub pages: u64,
    pub least: Option<(u64, u64)>,
}

/// Why a start is best: a bound for each conventional entry, and the start.
#[derive(Debug, Drop)]
pub struct Certificate<A: Allocator = Global> {
    pub bounds: Vec<Bound, A>,
    pub answer: u64,
}

impl<A: Allocator> Model for Certificate<A> {
    ghost use Rattle.placement_certificate.specs.Certificates.{CertificateValue};

    ghost Value = { CertificateValue };

    ghost view = { λ c. record { bounds = c.bounds.items; answer = c.answer } };
}
