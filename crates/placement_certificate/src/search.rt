//! The search for the best start in one entry of a map after the other.
ghost use Rattle.std.specs.Prelude.{◌≡◌, ◌↔◌, ◌+◌, ◌≤◌, Option, Contains, IsTrue};
ghost use Rattle.page_ranges.specs.Memory.{Page, page_at, page_below, IsProperMemory};
ghost use Rattle.page_ranges.specs.MemoryMap.{memory_map};
ghost use Rattle.page_ranges.specs.Cursors.{IsBlockAt};
ghost use Rattle.placement_certificate.specs.Placement.{IsAvailable};
ghost use Rattle.placement_certificate.specs.Certificates.{IsTrueLeast};
ghost use Rattle.placement_certificate.specs.Search.{IsAvailableBlock, IsOnPage, IsProperSearch, IsStop};

use crate::better::{PricedStart, better_of};
use crate::certificates::Request;
use crate::multiples::multiple_from;
use crate::starts::{EntryStarts, edge_saves};
use page_ranges::{Descriptor, MemoryType, PageCursor, is_specific_purpose};
use std::marker::Model;

// Whether a request may be given a block's pages without naming them.
#[inline(always)]
fn is_available(block: &Descriptor) -> bool
    ensures { IsTrue result ↔ IsAvailableBlock block.now }
{
    block.mtype == MemoryType::conventional() && !is_specific_purpose(block.attributes)
}

// Where the stretch of available pages that an entry lies in ends, and a block with the page there.
#[inline(always)]
fn stretch_end<C: PageCursor>(cursor: &mut C, entry: &Descriptor) -> (u64, Option<Descriptor>)
    requires proper { IsProperMemory (C.memory cursor.old) }
    requires entry { Contains (memory_map (C.memory cursor.old)) entry.now }
    requires available { IsAvailableBlock entry.now }
    ensures stays { C.memory cursor.new ≡ C.memory cursor.old }
    ensures stop { IsStop (C.memory cursor.old) entry.now result.0 }
    ensures behind { IsBlockAt (C.memory cursor.old) result.0 result.1 }
{
    let mut end = entry.first + entry.pages;
    while let Some(block) = cursor.block_at(end) {
        if !is_available(&block) {
            return (end, Some(block));
        }
        end = block.first + block.pages;
    }
    (end, None)
}

// A block with the page just below another.
#[inline(always)]
fn block_below<C: PageCursor>(cursor: &mut C, page: u64) -> Option<Descriptor>
    ensures stays { C.memory cursor.new ≡ C.memory cursor.old }
    ensures below { IsOnPage result (page_below (C.memory cursor.old) page) }
{
    if page == 0 {
        return None;
    }
    cursor.block_at(page - 1)
}

// Whether the pages of a request that is placed at a page end by a page number.
#[inline(always)]
fn fits(request: &Request, start: u64, end_by: u64) -> bool
    ensures { IsTrue result ↔ (start + request.now.pages ≤ end_by) }
{
    start <= end_by && request.pages <= end_by - start
}

// Whether the page that a block holds is available.
#[inline(always)]
fn is_available_at(block: &Option<Descriptor>) -> bool
    ensures { (x : Option Page) → IsOnPage block.now x → IsTrue result ↔ IsAvailable x }
{
    match block {
        Some(held) => is_available(held),
        None => false,
    }
}

/// Finds the best start in entries of a memory's map. It looks at two kinds of places, each by a cursor
/// of its own: when the entries are taken by ascending page, each cursor goes upward.
#[derive(Drop)]
pub struct EntrySearch<C: PageCursor + Drop> {
    // At the pages just below entries, and where stretches of available pages end.
    sides: C,
    // At the last pages of starts and at the pages above those.
    ends: C,
    // From `first` up to `stop` is the last stretch that was met; before the first one both are 0.
    first: u64,
    stop: u64,
}

impl<C: PageCursor + Drop> Model for EntrySearch<C> {
    ghost use Rattle.std.specs.Prelude.{List};
    ghost use Rattle.page_ranges.specs.Memory.{Page};

    ghost Value = { List Page };

    ghost use Rattle.placement_certificate.specs.Sides.{KnowsStretch};

    ghost view = { λ s. C.memory s.sides };

    ghost invariant = { λ s. KnowsStretch (C.memory s.ends) (C.memory s.sides) s.first s.stop };
}

impl<C: PageCursor + Drop> EntrySearch<C> {
    /// A search by two cursors over one memory.
    pub fn new(sides: C, ends: C) -> EntrySearch<C>
        requires { C.memory ends ≡ C.memory sides }
        ensures { result ≡ C.memory sides }
    {
        EntrySearch {
            sides,
            ends,
            first: 0,
            stop: 0,
        }
    }

    // Where the stretch of an available entry ends, which is known if the last stretch that was met holds the entry;
    // and a page that was looked at on the way, with a block that holds it.
    #[inline(always)]
    fn stop_of(&mut self, entry: &Descriptor) -> (u64, u64, Option<Descriptor>)
        requires proper { IsProperMemory self.old }
        requires entry { Contains (memory_map self.old) entry.now }
        requires available { IsAvailableBlock entry.now }
        ensures stays { self.new ≡ self.old }
        ensures stop { IsStop self.old entry.now result.0 }
        ensures known { IsBlockAt self.old result.1 result.2 }
    {
        if self.first <= entry.first && entry.first < self.stop {
            return (self.stop, entry.first, Some(*entry));
        }
        let (stop, behind) = stretch_end(&mut self.sides, entry);
        self.first = entry.first;
        self.stop = stop;
        (stop, stop, behind)
    }

    // The best start in an available entry, whatever lies behind it.
    #[inline(never)]
    fn least_in_stretch(
        &mut self,
        request: &Request,
        entries: u64,
        entry: &Descriptor,
        below: Option<Descriptor>,
    ) -> Option<PricedStart>
        requires search { IsProperSearch self.old request.now entries entry.now }
        requires available { IsAvailableBlock entry.now }
        requires below { IsOnPage below (page_below self.old entry.now.first) }
        ensures stays { self.new ≡ self.old }
        ensures least { IsTrueLeast self.old request.now entry.now result }
    {
        let lowest = multiple_from(entry.first, request.granule);
        if lowest - entry.first >= entry.pages {
            return None;
        }
        let (stop, known_page, known_block) = self.stop_of(entry);
        let end_by = stop.min(request.limit);
        if !fits(request, lowest, end_by) {
            return None;
        }
        let starts = EntryStarts {
            request: *request,
            entry: *entry,
            entries,
            lowest,
            end_by,
            below,
            known_page,
            known_block,
        };
        starts.least(&mut self.ends)
    }

    /// The best start of a request in a conventional entry, with its price, given how many entries the
    /// map has, and blocks with the page just below the entry and the page just behind it.
    /// Where the latter is not free and the granule is 1, nothing is looked up. In an entry of specific
    /// purpose there is no start. Entries may be asked for in any order.
    #[inline(always)]
    pub fn least_beside(
        &mut self,
        request: &Request,
        entries: u64,
        entry: &Descriptor,
        below: Option<Descriptor>,
        above: Option<Descriptor>,
    ) -> Option<PricedStart>
        requires search { IsProperSearch self.old request.now entries entry.now }
        requires below { IsOnPage below (page_below self.old entry.now.first) }
        requires above { IsOnPage above (page_at self.old (entry.now.first + entry.now.pages)) }
        ensures stays { self.new ≡ self.old }
        ensures least { IsTrueLeast self.old request.now entry.now result }
    {
        if is_specific_purpose(entry.attributes) {
            return None;
        }
        if request.granule != 1 || is_available_at(&above) {
            return self.least_in_stretch(request, entries, entry, below);
        }
        let end = entry.first + entry.pages;
        if !fits(request, entry.first, end.min(request.limit)) {
            return None;
        }
        let free = Some(*entry);
        let low_saves = edge_saves(request.mtype, &below, &free);
        let high_saves = edge_saves(request.mtype, &above, &free);
        if request.pages == entry.pages {
            return Some((entries - low_saves - high_saves, entry.first));
        }
        let lowest = Some((entries + 1 - low_saves, entry.first));
        if request.limit < end {
            return lowest;
        }
        better_of(
            lowest,
            Some((entries + 1 - high_saves, end - request.pages)),
        )
    }

    /// The same of an entry of which nothing else is known.
    #[inline(always)]
    pub fn least_in(
        &mut self,
        request: &Request,
        entries: u64,
        entry: &Descriptor,
    ) -> Option<PricedStart>
        requires { IsProperSearch self.old request.now entries entry.now }
        ensures stays { self.new ≡ self.old }
        ensures least { IsTrueLeast self.old request.now entry.now result }
    {
        let below = block_below(&mut self.sides, entry.first);
        let above = self.sides.block_at(entry.first + entry.pages);
        self.least_beside(request, entries, entry, below, above)
    }
}
