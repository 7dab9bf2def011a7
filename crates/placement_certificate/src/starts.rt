//! The starts in one entry of a map, and the best of them.
ghost use Rattle.std.specs.Prelude.{◌≡◌, ℕ, ◌+◌, ◌-◌, ◌<◌, ◌≤◌, ◌≢◌, ◌^◌, Option, None, IfSome};
ghost use Rattle.page_ranges.specs.Memory.{Page, page_below};
ghost use Rattle.page_ranges.specs.MemoryMap.{IsIn};
ghost use Rattle.page_ranges.specs.Cursors.{IsBlock, IsBlockAt};
ghost use Rattle.placement_certificate.specs.Placement.{IsPermittedStart, price};
ghost use Rattle.placement_certificate.specs.Certificates.{IsTrueLeast};
ghost use Rattle.placement_certificate.specs.Laws.{adds, saves};
ghost use Rattle.placement_certificate.specs.Search.{AreStartsIn, IsFound, IsTried, IsOnPage, StaysTried};
ghost use Rattle.placement_certificate.specs.Sides.{IsBelowStart, IsBlockWith, IsSavedAt, last_of_lowest};

use crate::better::{PricedStart, better_of};
use crate::certificates::Request;
use crate::multiples::multiple_to;
use page_ranges::{Descriptor, MemoryType, PageCursor};

/// The starts of a request in a conventional entry of a map.
#[derive(Drop)]
pub(crate) struct EntryStarts {
    pub(crate) request: Request,
    pub(crate) entry: Descriptor,
    // How many entries the map has.
    pub(crate) entries: u64,
    // The first multiple of the granule from the entry's first page on.
    pub(crate) lowest: u64,
    // A start in the entry is permitted just where it is a multiple of the granule and its pages end
    // by this page.
    pub(crate) end_by: u64,
    // A block with the page just below the entry, `None` where that is absent.
    pub(crate) below: Option<Descriptor>,
    // Some page, and a block that holds it. It saves a look-up where it is the page that the entry's stretch ends at.
    pub(crate) known_page: u64,
    pub(crate) known_block: Option<Descriptor>,
}

// What an edge adds to the price, by blocks that hold the page below it and the page above it.
#[inline(always)]
fn edge_adds(below: &Option<Descriptor>, above: &Option<Descriptor>) -> u64
    ensures { (x y : Option Page) → IsOnPage below.now x → IsOnPage above.now y
        → result ≡ adds x y }
{
    match (below, above) {
        (Some(x), Some(y)) => u64::from(x.mtype == y.mtype && x.attributes == y.attributes),
        _ => 0,
    }
}

// What an edge saves, by blocks that hold the page outside it and the page inside it.
#[inline(always)]
pub(crate) fn edge_saves(
    mtype: MemoryType,
    outside: &Option<Descriptor>,
    inside: &Option<Descriptor>,
) -> u64
    ensures { IsSavedAt mtype outside.now inside.now result }
{
    match (outside, inside) {
        (Some(x), Some(y)) => {
            u64::from(x.mtype == mtype && x.attributes == mtype.attributes_as(y.attributes))
        }
        _ => 0,
    }
}

impl EntryStarts {
    // A block with the page just below a start.
    #[inline(always)]
    fn block_below(&self, start: u64) -> Option<Descriptor>
        ensures { IsBelowStart self.now start result }
    {
        if self.entry.first < start {
            Some(self.entry)
        } else {
            self.below
        }
    }

    // A block with the page at a place, which is in a block or behind it.
    #[inline(always)]
    fn block_above<C: PageCursor>(
        &self,
        cursor: &mut C,
        block: &Descriptor,
        page: u64,
    ) -> Option<Descriptor>
        requires starts { AreStartsIn (C.memory cursor.old) self.now }
        requires block { IsBlock (C.memory cursor.old) block.now }
        requires behind { block.now.first ≤ page }
        requires within { block.now.first + block.now.pages < 2 ^ 64 }
        ensures stays { C.memory cursor.new ≡ C.memory cursor.old }
        ensures above { IsBlockAt (C.memory cursor.old) page result }
    {
        if page < block.first + block.pages {
            Some(*block)
        } else if page == self.known_page {
            self.known_block
        } else {
            cursor.block_at(page)
        }
    }

    // The price of a permitted start, the last page of which is in a block.
    #[inline(always)]
    fn price_of<C: PageCursor>(&self, cursor: &mut C, start: u64, block: &Descriptor) -> u64
        requires starts { AreStartsIn (C.memory cursor.old) self.now }
        requires in_entry { IsIn self.now.entry start }
        requires permitted { IsPermittedStart (C.memory cursor.old) self.now.request start }
        requires block { IsBlock (C.memory cursor.old) block.now }
        requires last { IsIn block.now (start + self.now.request.pages - 1) }
        ensures stays { C.memory cursor.new ≡ C.memory cursor.old }
        ensures price { result ≡ price (C.memory cursor.old) self.now.request start }
    {
        let mtype = self.request.mtype;
        let below = self.block_below(start);
        let first = Some(self.entry);
        let last = Some(*block);
        let above = self.block_above(cursor, block, start + self.request.pages);
        self.entries + edge_adds(&below, &first) + edge_adds(&last, &above)
            - edge_saves(mtype, &below, &first)
            - edge_saves(mtype, &above, &last)
    }

    // A block with the last page of the lowest start.
    #[inline(always)]
    fn first_block<C: PageCursor>(&self, cursor: &mut C) -> Option<Descriptor>
        requires starts { AreStartsIn (C.memory cursor.old) self.now }
        requires in_entry { IsIn self.now.entry self.now.lowest }
        requires permitted { IsPermittedStart
            (C.memory cursor.old) self.now.request self.now.lowest }
        ensures stays { C.memory cursor.new ≡ C.memory cursor.old }
        ensures block { IfSome result
            (IsBlockWith (C.memory cursor.old) (last_of_lowest self.now)) }
        ensures some { result ≢ None }
    {
        let last = self.lowest + (self.request.pages - 1);
        if last < self.entry.first + self.entry.pages {
            Some(self.entry)
        } else {
            cursor.block_at(last)
        }
    }

    // The better of what was found and of a permitted start, the last page of which is in a block.
    #[inline(always)]
    fn try_start<C: PageCursor>(
        &self,
        cursor: &mut C,
        found: Option<PricedStart>,
        start: u64,
        block: &Descriptor,
    ) -> Option<PricedStart>
        requires starts { AreStartsIn (C.memory cursor.old) self.now }
        requires in_entry { IsIn self.now.entry start }
        requires permitted { IsPermittedStart (C.memory cursor.old) self.now.request start }
        requires block { IsBlock (C.memory cursor.old) block.now }
        requires last { IsIn block.now (start + self.now.request.pages - 1) }
        requires found { IsFound (C.memory cursor.old) self.now.request self.now.entry found }
        ensures stays { C.memory cursor.new ≡ C.memory cursor.old }
        ensures found { IsFound (C.memory cursor.old) self.now.request self.now.entry result }
        ensures tried { IsTried (C.memory cursor.old) self.now.request self.now.entry result start }
        ensures still { StaysTried
            (C.memory cursor.old) self.now.request self.now.entry found result }
    {
        let count = self.price_of(cursor, start, block);
        better_of(found, Some((count, start)))
    }

    /// The best start, where the lowest one is permitted. Tried are that one, and for each block of
    /// pages the highest start with its last page there: so all starts that end where an entry ends, and
    /// the highest of all.
    #[inline(always)]
    pub(crate) fn least<C: PageCursor>(&self, cursor: &mut C) -> Option<PricedStart>
        requires starts { AreStartsIn (C.memory cursor.old) self.now }
        requires in_entry { IsIn self.now.entry self.now.lowest }
        requires permitted { IsPermittedStart
            (C.memory cursor.old) self.now.request self.now.lowest }
        ensures stays { C.memory cursor.new ≡ C.memory cursor.old }
        ensures least { IsTrueLeast (C.memory cursor.old) self.now.request self.now.entry result }
    {
        let pages = self.request.pages;
        let granule = self.request.granule;
        let top = self.entry.first + (self.entry.pages - 1);
        let highest = multiple_to(top.min(self.end_by - pages), granule);
        let mut start = self.lowest;
        let mut block = self.first_block(cursor)?;
        let mut found = None;
        loop {
            found = self.try_start(cursor, found, start, &block);
            if start == highest {
                return found;
            }
            // The block with the last page of the next start.
            block = self.block_above(cursor, &block, start + pages + (granule - 1))?;
            start = highest.min(multiple_to(block.first + block.pages - pages, granule));
        }
    }
}
