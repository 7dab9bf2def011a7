//! The check of a certificate, from nothing but a list of entries and a request.
ghost use Rattle.std.specs.Prelude.{◌≡◌, ◌↔◌, ℕ, Some, IsTrue, slice_get};
ghost use Rattle.std.specs.List.{AllZip};
ghost use Rattle.page_ranges.specs.MemoryMap.{IsMap, memory_of};
ghost use Rattle.placement_certificate.specs.Placement.{FillsGranules, IsProperRequest};
ghost use Rattle.placement_certificate.specs.Certificates.{IsTrueBound, conventional_entries};
ghost use Rattle.placement_certificate.specs.Acceptance.{IsAccepted};
ghost use Rattle.placement_certificate.specs.Search.{IsBestOf};
ghost use Rattle.placement_certificate.specs.Sides.{AreTrueBounds};

use crate::better::{PricedStart, better_of};
use crate::certificates::{Bound, Certificate, Request};
use crate::cursors::MapCursor;
use crate::entries::{is_map, item_at};
use crate::search::EntrySearch;
use page_ranges::{Descriptor, MemoryType, granule_for, is_granule, type_for_alloc};
use std::alloc::Allocator;

/// Whether a list of entries is a map, a request is for some pages of a type that requests may
/// name, in whole granules, and a certificate is true for both. The request's granule is 1 or 16, and 16
/// only with a type that fills granules. It takes no memory.
pub fn check<A: Allocator>(
    map: &[Descriptor],
    request: &Request,
    certificate: &Certificate<A>,
) -> bool
    ensures { IsTrue result ↔ IsAccepted map.now request.now certificate.now }
{
    if !is_map(map) || !is_proper(request) {
        return false;
    }
    let bounds = certificate.bounds.as_slice();
    are_true_bounds(map, request, bounds) && is_best(bounds, certificate.answer)
}

// Whether a request is for some pages of a type that requests may name, and for whole granules.
fn is_proper(request: &Request) -> bool
    ensures { IsTrue result ↔ IsProperRequest request.now }
{
    request.pages > 0 && type_for_alloc(request.mtype.number()).is_ok() && fills_granules(request)
}

// Whether a request's granule is one that its type has on some machine, and its pages fill whole
// granules.
fn fills_granules(request: &Request) -> bool
    ensures { IsTrue result ↔ FillsGranules request.now }
{
    let granule = request.granule;
    is_granule(granule)
        && granule_for(request.mtype, granule) == granule
        && request.pages % granule == 0
}

// Whether bounds are true, one for each conventional entry of a map, in their order.
fn are_true_bounds(map: &[Descriptor], request: &Request, bounds: &[Bound]) -> bool
    requires map { IsMap map.now }
    requires good { IsProperRequest request.now }
    ensures { IsTrue result ↔ AreTrueBounds (memory_of map.now) request.now bounds.now }
{
    let entries = map.len() as u64;
    let mut search = EntrySearch::new(MapCursor::new(map), MapCursor::new(map));
    // How many bounds were looked at.
    let mut count = 0;
    for entry in map {
        if entry.mtype == MemoryType::conventional() {
            let bound = Bound {
                first: entry.first,
                pages: entry.pages,
                least: search.least_in(request, entries, entry),
            };
            if !is_at(bounds, count, &bound) {
                return false;
            }
            count += 1;
        }
    }
    count == bounds.len()
}

// Whether a bound is at an index of some bounds.
fn is_at(bounds: &[Bound], index: usize, bound: &Bound) -> bool
    ensures { IsTrue result ↔ (slice_get bounds.now index ≡ Some bound.now) }
{
    item_at(bounds, index) == Some(*bound)
}

// Whether a start is the best of those of some bounds.
fn is_best(bounds: &[Bound], start: u64) -> bool
    ensures { IsTrue result ↔ ((count : ℕ) × IsBestOf (Some (count, start)) bounds.now) }
{
    match best_of(bounds) {
        Some((_, best)) => best == start,
        None => false,
    }
}

// The best start of some bounds, with its price.
fn best_of(bounds: &[Bound]) -> Option<PricedStart>
    ensures { IsBestOf result bounds.now }
{
    let mut best = None;
    for bound in bounds {
        best = better_of(best, bound.least);
    }
    best
}
