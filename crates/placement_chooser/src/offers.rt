//! The best start in one conventional entry of a memory map.
ghost use Rattle.std.specs.Prelude.{◌≡◌, ◌↔◌, ◌+◌, ◌≤◌, Some, false, Contains, IsTrue};
ghost use Rattle.std.specs.Option.{option_map};
ghost use Rattle.page_ranges.specs.MemoryTypes.{conventional, is_specific_purpose};
ghost use Rattle.page_ranges.specs.Memory.{IsProperMemory};
ghost use Rattle.page_ranges.specs.MemoryMap.{memory_map};
ghost use Rattle.descriptor_table.specs.Tables.{entry_of};
ghost use Rattle.descriptor_table.specs.Wanting.{IsFreeBehind};
ghost use Rattle.placement_certificate.specs.Certificates.{IsTrueLeast};
ghost use Rattle.placement_certificate.specs.Placement.{IsProperRequest};
ghost use Rattle.placement_certificate.specs.Search.{IsProperSearch};
ghost use Rattle.placement_certificate.specs.Sides.{IsSavedAt};
ghost use Rattle.placement_chooser.specs.Starts.{IsOfferIn, IsWantedFor, OffersBest};

use descriptor_table::{FreeRun, RunCursor, Wanted, block_of};
use page_ranges::{MemoryType, Run, is_specific_purpose};
use placement_certificate::{EntrySearch, PricedStart, Request};
use std::alloc::Allocator;

/// A start, and what a placement there saves: 1 where the map then has two entries more, which is the most, 2
/// where it has one more, and so on.
#[derive(Clone, Copy)]
pub(crate) struct Offer {
    pub(crate) saving: u64,
    pub(crate) start: u64,
}

/// No start is permitted, or none is better.
pub(crate) const NO_OFFER: Offer = Offer {
    saving: 0,
    start: 0,
};

// What an edge saves, by the runs outside it and inside it.
#[inline(always)]
fn edge_saves(mtype: MemoryType, outside: Option<&Run>, inside: &Run) -> u64
    ensures saved { IsSavedAt mtype (option_map (λ r. entry_of r.now) outside.entry)
        (Some (entry_of inside.now)) result }
    ensures bound { result ≤ 1 }
{
    match outside {
        Some(outside) => u64::from(
            outside.mtype == mtype && outside.attributes == mtype.attributes_as(inside.attributes),
        ),
        None => 0,
    }
}

/// The best start in an entry, with its price, whatever lies beside it.
#[inline(never)]
pub(crate) fn least_beside<B: Allocator + Copy>(
    search: &mut EntrySearch<RunCursor<'_, B>>,
    request: &Request,
    entries: u64,
    free: FreeRun<'_, B>,
) -> Option<PricedStart>
    requires memory { search.old ≡ free.memory }
    requires search { IsProperSearch free.memory request.now entries free.entry }
    ensures stays { search.new ≡ search.old }
    ensures least { IsTrueLeast free.entry.memory request.now free.entry.entry result }
{
    let below = free.below().map(|run| block_of(run));
    let above = free.above().map(|run| block_of(run));
    let entry = block_of(free.run());
    search.least_beside(request, entries, &entry, below, above)
}

// The same as an offer.
#[inline(never)]
fn offer_beside<B: Allocator + Copy>(
    search: &mut EntrySearch<RunCursor<'_, B>>,
    request: &Request,
    entries: u64,
    free: FreeRun<'_, B>,
) -> Offer
    requires memory { search.old ≡ free.memory }
    requires search { IsProperSearch free.memory request.now entries free.entry }
    ensures stays { search.new ≡ search.old }
    ensures offer { IsOfferIn free.entry.memory request.now free.entry.entry result }
{
    match least_beside(search, request, entries, free) {
        Some((price, start)) => Offer {
            saving: entries + 3 - price,
            start,
        },
        None => NO_OFFER,
    }
}

// Whether pages from a first one on end by a page number.
#[inline(always)]
fn fits(first: u64, pages: u64, end_by: u64) -> bool
    ensures { IsTrue result ↔ (first + pages ≤ end_by) }
{
    first <= end_by && pages <= end_by - first
}

/// The best start in an ordinary entry behind which no free page lies, where the granule is 1.
#[inline(always)]
pub(crate) fn offer_alone<B: Allocator + Copy>(request: &Request, free: &FreeRun<'_, B>) -> Offer
    requires one { request.now.granule ≡ 1 }
    requires proper { IsProperMemory free.now.memory }
    requires good { IsProperRequest request.now }
    requires entry { Contains (memory_map free.now.memory) free.now.entry }
    requires free { free.now.entry.mtype ≡ conventional }
    requires ordinary { is_specific_purpose free.now.entry.attributes ≡ false }
    requires behind { ¬ IsFreeBehind free.now }
    requires room { request.now.pages ≤ free.now.entry.pages }
    ensures { IsOfferIn free.now.memory request.now free.now.entry result }
{
    let run = free.run();
    let first = run.range.first;
    let end = first + run.range.pages;
    let low = edge_saves(request.mtype, free.below(), run);
    if request.limit < end {
        if !fits(first, request.pages, request.limit) {
            return NO_OFFER;
        }
        return Offer {
            saving: 2 + low,
            start: first,
        };
    }
    let high = edge_saves(request.mtype, free.above(), run);
    if run.range.pages == request.pages {
        return Offer {
            saving: 3 + low + high,
            start: first,
        };
    }
    if high < low {
        return Offer {
            saving: 2 + low,
            start: first,
        };
    }
    Offer {
        saving: 2 + high,
        start: end - request.pages,
    }
}

/// The best start of a request in a conventional entry, given how many entries the map has. There is no offer
/// where the entry is of no use.
#[inline(always)]
pub(crate) fn offer_in<B: Allocator + Copy>(
    search: &mut EntrySearch<RunCursor<'_, B>>,
    request: &Request,
    entries: u64,
    wanted: &Wanted,
    free: FreeRun<'_, B>,
) -> Offer
    requires memory { search.old ≡ free.memory }
    requires search { IsProperSearch free.memory request.now entries free.entry }
    requires wanted { IsWantedFor request.now wanted.now }
    ensures stays { search.new ≡ search.old }
    ensures offer { OffersBest free.entry.memory request.now wanted.now free.entry.entry result }
{
    if request.granule != 1 || free.goes_on() {
        return offer_beside(search, request, entries, free);
    }
    let run = free.run();
    if run.range.pages < request.pages {
        return NO_OFFER;
    }
    // Only a placement that fills the entry gains more than 1.
    if wanted.gain > 1 && run.range.pages != request.pages {
        return NO_OFFER;
    }
    if is_specific_purpose(run.attributes) {
        return NO_OFFER;
    }
    offer_alone(request, &free)
}
