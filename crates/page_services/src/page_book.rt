//! The book of a machine's pages.
ghost use Rattle.std.specs.Prelude.{◌≡◌, ◌≢◌, false, ◌+◌, ◌-◌, ◌*◌, ◌<◌, ◌≤◌, ◌^◌, IfOk, IfSome, IsTrue, ◌↔◌, MatchResult, OnErr, OnOk, Err, None, option_and_then};
ghost use Rattle.page_ranges.specs.declared.ranges.Owner.TheVariants.{Given, Pages, Pool};
ghost use Rattle.page_ranges.specs.MemoryTypes.{conventional, is_bad_type, page_count, page_size};
ghost use Rattle.page_ranges.specs.Memory.{page_at, IsPresent, IsOwnedBy, AllInRange};
ghost use Rattle.page_ranges.specs.Granules.{IsGranule, granule_for};
ghost use Rattle.placement_certificate.specs.Placement.{IsProperRequest};
ghost use Rattle.page_services.specs.PageRules.{AllocatesPages, IsBestChoice, PlacesPages, FreesPages, FindsNoStart, HasReserve, HasWholeGranules, IsChosenOn, IsInGranules, TakesForPool, GivesFromPool, RunsOut, certifying, changed_book, ended_book, fixed_address, freed_book, freed_range, granule_of, if_counted, new_book, placed_book, placement_request, pool_request, preparing, whole_pages, whole_request};

use descriptor_table::RunTable;
use page_ranges::{
    MemoryType, Owner, PAGE_COUNT, PAGE_SIZE, PageRange, Status, granule_for, pages_below, rounded,
    type_for_alloc,
};
use placement_certificate::{Certificate, Request};
use placement_chooser::{best_start, choose};
use std::alloc::{AllocError, Allocator, Global};
use std::marker::Model;

/// AllocateAnyPages: the range may lie anywhere.
const ALLOCATE_ANY_PAGES: u32 = 0;

/// AllocateMaxAddress: the range ends by the byte at the address of the request.
pub const ALLOCATE_MAX_ADDRESS: u32 = 1;

/// AllocateAddress: the range starts at the address of the request.
const ALLOCATE_ADDRESS: u32 = 2;

// The request on a machine with a granule for a number of pages of a type, up to a limit. None where
// they are more than a number of 64 bits holds once they fill granules.
fn whole_request(granule: u64, mtype: MemoryType, pages: u64, limit: u64) -> Option<Request>
    ensures { result ≡ if_counted (whole_request granule mtype pages limit) }
{
    let granule = granule_for(mtype, granule);
    // A granule of one page takes no division.
    let pages = if granule == 1 {
        pages
    } else {
        rounded(pages, granule)?
    };
    Some(Request {
        mtype,
        pages,
        limit,
        granule,
    })
}

/// What AllocatePages of the kind `kind` leaves the service to place on a machine with a granule: so
/// many `pages` of the type `mtype`, rounded up to the type's granule, anywhere (0) or up to the byte at the
/// address `memory` (1). `None` for a kind that names its address, and where the rounded number has
/// more than 64 bits.
pub fn placement_request(
    granule: u64,
    kind: u32,
    mtype: MemoryType,
    pages: u64,
    memory: u64,
) -> Option<Request>
    ensures { result ≡ option_and_then if_counted
        (placement_request granule kind mtype pages memory) }
{
    let limit = match kind {
        ALLOCATE_ANY_PAGES => PAGE_COUNT,
        ALLOCATE_MAX_ADDRESS => pages_below(memory),
        _ => return None,
    };
    whole_request(granule, mtype, pages, limit)
}

/// The request for `pages` pages of the type `mtype` for the pool of a machine with a granule: rounded
/// up to the type's granule, they may lie anywhere. `None` where the rounded number has more than 64
/// bits.
pub fn pool_request(granule: u64, mtype: MemoryType, pages: u64) -> Option<Request>
    ensures { result ≡ if_counted (pool_request granule mtype pages) }
{
    whole_request(granule, mtype, pages, PAGE_COUNT)
}

/// A start that was chosen for a request, before pages are placed there.
#[derive(Drop)]
pub struct ChosenStart<A: Allocator = Global> {
    pub request: Request,
    /// The first page.
    pub first: u64,
    /// Why it is the best start, where the book returns certificates.
    pub certificate: Option<Certificate<A>>,
}

/// Where pages were placed.
#[derive(Debug, Drop)]
pub struct Placed<A: Allocator = Global> {
    /// The address of the first page.
    pub address: u64,
    /// Why it is the best start, where the book chose it and returns certificates.
    pub certificate: Option<Certificate<A>>,
}

/// The memory of a machine, how often the type of a page has changed in it, the machine's granule, and
/// whether certificates are returned.
#[derive(Drop)]
pub struct PageBook<A: Allocator = Global> {
    table: RunTable<A>,
    key: u64,
    granule: u64,
    certifies: bool,
    // Of the changes for which the table has memory reserved, how many are for calls of FreePages, and how many for
    // ends of extents. The others serve placements, two changes each.
    frees: usize,
    ends: usize,
    // How many pages AllocatePages placed that FreePages has not freed.
    held: u64,
}

impl<A: Allocator> Model for PageBook<A> {
    ghost use Rattle.page_services.specs.PageRules.{Book, IsKept, book_of};

    ghost Value = { Book };

    ghost view = { λ b.
        book_of b.table b.key b.granule b.certifies b.frees b.ends b.held };

    ghost invariant = { λ b. IsKept
        (book_of b.table b.key b.granule b.certifies b.frees b.ends b.held) };
}

impl<A: Allocator + Copy> PageBook<A> {
    /// The book of a machine with a granule of 1 or 16 pages, and a memory in which no type has
    /// changed. It returns certificates. Where a page of a granule was placed by AllocatePages with a
    /// type that fills granules, all pages of the granule were.
    pub fn new(table: RunTable<A>, granule: u64) -> PageBook<A>
        requires granule { IsGranule granule }
        requires whole { HasWholeGranules granule table.pages }
        ensures { result ≡ new_book granule table }
    {
        PageBook {
            table,
            key: 1,
            granule,
            certifies: true,
            frees: 0,
            ends: 0,
            held: 0,
        }
    }

    /// Returns a certificate with each place that it chooses from now on, or returns none. A place is the
    /// same either way, and only a certificate takes memory.
    pub fn certify(&mut self, certifies: bool)
        ensures { self.new ≡ certifying certifies self.old }
    {
        self.certifies = certifies;
    }

    /// Reserves memory for a number of placements and for the frees of what they place, which are two changes each,
    /// besides what is reserved already: these succeed where the host refuses all memory, except that of certificates.
    /// On an `Err` none is reserved.
    pub fn prepare(&mut self, placements: usize) -> Result<(), AllocError>
        ensures ok { OnOk result (self.new ≡ preparing placements self.old) }
        ensures err { OnErr result (self.new ≡ self.old) }
    {
        self.table.reserve(placements.saturating_mul(2))?;
        let _few = self.table.reserved();
        Ok(())
    }

    /// AllocatePages of the kind `kind`, for the type `mtype`, of a number of `pages`: anywhere (0), up to
    /// the byte at the address `memory` (1), or at that address (2). A type that fills granules
    /// is given whole granules: the pages are rounded up to them, and start where one starts. Of the
    /// places that kinds 0 and 1 permit it takes the highest after which the memory map has the
    /// fewest entries, with a certificate of that where certificates are returned.
    ///
    /// INVALID_PARAMETER: another kind, a type that no request may name, or no pages. NOT_FOUND: an
    /// address that is not that of a page, or of a granule where the type fills granules, or a
    /// range there, with the pages that it is rounded up by, that is not all conventional.
    /// OUT_OF_RESOURCES: no place of kind 0 or 1, also where the pages rounded up have a number of
    /// more than 64 bits, or memory ran out. On an `Err` the book is as it was.
    pub fn allocate(
        &mut self,
        kind: u32,
        mtype: u32,
        pages: u64,
        memory: u64,
    ) -> Result<Placed<A>, Status>
        requires { self.old.key < 2 ^ 62 }
        ensures { AllocatesPages IsBestChoice self.old kind mtype pages memory result self.new }
    {
        if kind > ALLOCATE_ADDRESS {
            return Err(Status::InvalidParameter);
        }
        let mtype = type_for_alloc(mtype)?;
        if pages == 0 {
            return Err(Status::InvalidParameter);
        }
        if kind == ALLOCATE_ADDRESS {
            return self.place_at(mtype, pages, memory);
        }
        match placement_request(self.granule, kind, mtype, pages, memory) {
            Some(request) => self.place_best(request, Owner::Pages),
            None => Err(Status::OutOfResources),
        }
    }

    // Places pages at an address: their number, and those that fill the last granule of their type.
    fn place_at(&mut self, mtype: MemoryType, pages: u64, memory: u64) -> Result<Placed<A>, Status>
        requires key { self.old.key < 2 ^ 62 }
        requires good { is_bad_type mtype ≡ false }
        requires some { 0 < pages }
        ensures { AllocatesPages IsBestChoice self.old fixed_address mtype pages memory result
            self.new }
    {
        let granule = granule_for(mtype, self.granule);
        let first = memory / PAGE_SIZE;
        if memory % PAGE_SIZE != 0 || first % granule != 0 {
            return Err(Status::NotFound);
        }
        let Some(pages) = rounded(pages, granule) else {
            // No memory has that many pages: a table says of itself that it is a proper memory.
            let _ = self.table.descriptors();
            return Err(Status::NotFound);
        };
        let range = PageRange { first, pages };
        if !self.table.all_conventional(range) {
            return Err(Status::NotFound);
        }
        self.place_in(range, mtype, Owner::Pages)?;
        Ok(Placed {
            address: memory,
            certificate: None,
        })
    }

    // Places pages of an owner at the best start for a request.
    fn place_best(&mut self, request: Request, owner: Owner) -> Result<Placed<A>, Status>
        requires key { self.old.key < 2 ^ 62 }
        requires proper { IsProperRequest request }
        requires limit { request.limit ≤ page_count }
        requires granule { request.granule ≡ granule_for request.mtype self.old.granule }
        requires taken { owner ≢ Given }
        ensures { PlacesPages IsBestChoice self.old request owner result self.new }
    {
        if !self.certifies {
            let Some(first) = best_start(&self.table, &request) else {
                return Err(Status::OutOfResources);
            };
            let range = PageRange {
                first,
                pages: request.pages,
            };
            self.place_in(range, request.mtype, owner)?;
            return Ok(Placed {
                address: first * PAGE_SIZE,
                certificate: None,
            });
        }
        match self.best_place(request) {
            Some(chosen) => self.place(chosen, owner),
            None => Err(Status::OutOfResources),
        }
    }

    // Places pages of an owner at a start that was chosen.
    fn place(&mut self, chosen: ChosenStart<A>, owner: Owner) -> Result<Placed<A>, Status>
        requires key { self.old.key < 2 ^ 62 }
        requires chosen { IsChosenOn self.old chosen }
        requires taken { owner ≢ Given }
        ensures places { PlacesPages IsBestChoice self.old chosen.request owner result self.new }
        ensures at { IfOk result (λ p. p.address ≡ chosen.first * page_size) }
    {
        let ChosenStart {
            request,
            first,
            certificate,
        } = chosen;
        let range = PageRange {
            first,
            pages: request.pages,
        };
        self.place_in(range, request.mtype, owner)?;
        Ok(Placed {
            address: first * PAGE_SIZE,
            certificate,
        })
    }

    // The best start for a request, and its certificate where certificates are returned. None where
    // no start is permitted, or where memory ran out for a certificate.
    fn best_place(&self, request: Request) -> Option<ChosenStart<A>>
        requires proper { IsProperRequest request }
        requires limit { request.limit ≤ page_count }
        requires granule { request.granule ≡ granule_for request.mtype self.now.granule }
        ensures best { IfSome result (λ c. (c.request ≡ request) × IsChosenOn self.now c) }
        ensures none { result ≡ None → FindsNoStart self.now request }
    {
        if !self.certifies {
            let first = best_start(&self.table, &request)?;
            return Some(ChosenStart {
                request,
                first,
                certificate: None,
            });
        }
        let Ok(Some(certificate)) = choose(self.table.allocator(), &self.table, &request) else {
            return None;
        };
        Some(ChosenStart {
            request,
            first: certificate.answer,
            certificate: Some(certificate),
        })
    }

    /// FreePages of `pages` pages from the address `memory` on: they are conventional again, and at
    /// each end so is the rest of the granule that the page there lies in, if its type fills
    /// granules.
    ///
    /// INVALID_PARAMETER: an unaligned address, no pages, or a range past the last page. NOT_FOUND:
    /// a page that AllocatePages did not place. OUT_OF_RESOURCES: memory ran out for the table, where none is
    /// reserved; each AllocatePages that succeeds reserves it for one call. On an `Err` the book is as it
    /// was.
    pub fn free(&mut self, memory: u64, pages: u64) -> Result<(), Status>
        requires { self.old.key < 2 ^ 62 }
        ensures { FreesPages self.old memory pages result self.new }
    {
        let range = PageRange {
            first: memory / PAGE_SIZE,
            pages,
        };
        if memory % PAGE_SIZE != 0 || pages == 0 || pages > PAGE_COUNT - range.first {
            return Err(Status::InvalidParameter);
        }
        if !self.are_allocated(range) {
            return Err(Status::NotFound);
        }
        let freed = self.freed_range(range);
        self.free_in(freed)
    }

    // Whether AllocatePages placed all pages of a range. Where it begins is kept for a change of it.
    fn are_allocated(&mut self, range: PageRange) -> bool
        ensures allocated { IsTrue result
            ↔ AllInRange self.old.memory range (IsOwnedBy Pages) }
        ensures whole { IsInGranules self.old }
        ensures book { self.new ≡ self.old }
    {
        self.table.find_owned(range, Owner::Pages)
    }

    // The range with the rest of the granules that its ends lie in.
    fn freed_range(&self, range: PageRange) -> PageRange
        requires some { 0 < range.pages }
        requires end { range.first + range.pages ≤ page_count }
        ensures { result ≡ freed_range self.now (range.first * page_size) range.pages }
    {
        if self.granule == 1 {
            return range;
        }
        let end = range.first + range.pages;
        let low = self.granule_at(range.first);
        let high = self.granule_at(end - 1);
        let first = range.first - range.first % low;
        // A page number is far below 64 bits, so it always fits once rounded.
        let end = rounded(end, high).unwrap_or(end);
        PageRange {
            first,
            pages: end - first,
        }
    }

    // The granule of the type of the page there, 1 where it is absent.
    fn granule_at(&self, page: u64) -> u64
        ensures granule { result ≡ granule_of self.now.granule (page_at self.now.memory page) }
        ensures valid { IsGranule result }
    {
        match self.table.run_at(page) {
            Some(run) => granule_for(run.mtype, self.granule),
            None => 1,
        }
    }

    /// Pages of the type `mtype` for the pool: `pages` of them, rounded up to whole granules of the
    /// type, at the best place of all, with a certificate of that where certificates are returned.
    ///
    /// OUT_OF_RESOURCES: no place is permitted, or memory ran out. The book is then as it was.
    pub fn take_for_pool(&mut self, mtype: MemoryType, pages: u64) -> Result<Placed<A>, Status>
        requires key { self.old.key < 2 ^ 62 }
        requires good { is_bad_type mtype ≡ false }
        requires some { 0 < pages }
        ensures { TakesForPool IsBestChoice self.old mtype pages result self.new }
    {
        match self.choose_for_pool(mtype, pages) {
            Some(chosen) => self.place_for_pool(chosen),
            None => Err(Status::OutOfResources),
        }
    }

    /// The best place of all for pages of the pool, as [`PageBook::take_for_pool`] takes them.
    ///
    /// None where no place is permitted, or where memory ran out for the certificate.
    pub fn choose_for_pool(&self, mtype: MemoryType, pages: u64) -> Option<ChosenStart<A>>
        requires good { is_bad_type mtype ≡ false }
        requires some { 0 < pages }
        ensures best { IfSome result (λ c. (c.request ≡ pool_request self.now.granule mtype pages)
            × IsChosenOn self.now c) }
        ensures none { result ≡ None
            → FindsNoStart self.now (pool_request self.now.granule mtype pages) }
    {
        match pool_request(self.granule, mtype, pages) {
            Some(request) => self.best_place(request),
            None => None,
        }
    }

    /// Takes pages for the pool at a start that was chosen on the book as it is.
    ///
    /// OUT_OF_RESOURCES: memory ran out. The book is then as it was.
    pub fn place_for_pool(&mut self, chosen: ChosenStart<A>) -> Result<Placed<A>, Status>
        requires key { self.old.key < 2 ^ 62 }
        requires chosen { IsChosenOn self.old chosen }
        ensures places { PlacesPages IsBestChoice self.old chosen.request Pool result self.new }
        ensures at { IfOk result (λ p. p.address ≡ chosen.first * page_size) }
    {
        self.place(chosen, Owner::Pool)
    }

    /// Gives pages of the pool back, as those of an extent that ends: they are conventional again.
    ///
    /// OUT_OF_RESOURCES: memory ran out for the table, and none is reserved for the end of an extent. The book
    /// is then as it was.
    pub fn give_from_pool(&mut self, extent: PageRange) -> Result<(), Status>
        requires key { self.old.key < 2 ^ 62 }
        requires owned { AllInRange self.old.memory extent (IsOwnedBy Pool) }
        ensures { GivesFromPool self.old extent result self.new }
    {
        if extent.pages == 0 {
            return Ok(());
        }
        self.end_in(extent)
    }

    // Places pages in a range for an owner, so that granules stay whole. Memory is reserved first, for that
    // and to free them.
    fn place_in(&mut self, range: PageRange, mtype: MemoryType, owner: Owner) -> Result<(), Status>
        requires key { self.old.key < 2 ^ 62 }
        requires present { AllInRange self.old.memory range IsPresent }
        requires good { is_bad_type mtype ≡ false }
        requires taken { owner ≢ Given }
        requires whole { IsInGranules self.old
            → IsInGranules (changed_book range mtype owner self.old) }
        ensures { MatchResult result (λ _. self.new ≡ placed_book range mtype owner self.old)
            (λ e. RunsOut (¬ HasReserve self.old) self.old e self.new) }
    {
        let kept = self.table.reserved() - self.frees - self.ends;
        if kept < 2 {
            let Ok(()) = self.table.reserve(2 - kept) else {
                return Err(Status::OutOfResources);
            };
        }
        let _few = self.table.reserved();
        self.table.change(range, mtype, owner);
        self.key += 1;
        if owner == Owner::Pool {
            self.ends += 1;
            return Ok(());
        }
        self.frees += 1;
        self.held = self.held.saturating_add(range.pages).min(PAGE_COUNT);
        Ok(())
    }

    // Frees pages for FreePages, so that granules stay whole. Where no memory is reserved for that, it is
    // reserved first.
    fn free_in(&mut self, range: PageRange) -> Result<(), Status>
        requires key { self.old.key < 2 ^ 62 }
        requires present { AllInRange self.old.memory range IsPresent }
        requires whole { IsInGranules self.old
            → IsInGranules (changed_book range conventional Given self.old) }
        ensures { MatchResult result (λ _. self.new ≡ freed_book range self.old)
            (λ e. RunsOut (self.old.frees ≡ 0) self.old e self.new) }
    {
        if self.frees == 0 {
            let Ok(()) = self.table.reserve(1) else {
                return Err(Status::OutOfResources);
            };
            self.table
                .change(range, MemoryType::conventional(), Owner::Given);
            self.key += 1;
            self.held = self.held.saturating_sub(range.pages);
            return Ok(());
        }
        self.table
            .change(range, MemoryType::conventional(), Owner::Given);
        self.key += 1;
        self.held = self.held.saturating_sub(range.pages);
        self.frees = (self.frees - 1).min(self.held as usize);
        Ok(())
    }

    // The same for an extent that ends.
    fn end_in(&mut self, range: PageRange) -> Result<(), Status>
        requires key { self.old.key < 2 ^ 62 }
        requires present { AllInRange self.old.memory range IsPresent }
        requires whole { IsInGranules self.old
            → IsInGranules (changed_book range conventional Given self.old) }
        ensures { MatchResult result (λ _. self.new ≡ ended_book range self.old)
            (λ e. RunsOut (self.old.ends ≡ 0) self.old e self.new) }
    {
        if self.ends == 0 {
            let Ok(()) = self.table.reserve(1) else {
                return Err(Status::OutOfResources);
            };
            self.table
                .change(range, MemoryType::conventional(), Owner::Given);
            self.key += 1;
            return Ok(());
        }
        self.table
            .change(range, MemoryType::conventional(), Owner::Given);
        self.key += 1;
        self.ends -= 1;
        Ok(())
    }

    /// The map key: 1 when new, and one more for each call that changed the type of a page.
    pub fn key(&self) -> u64
        ensures { result ≡ self.now.key }
    {
        self.key
    }

    /// The machine's granule in pages, 1 or 16. Where one page of a granule was placed by AllocatePages with a
    /// type that fills granules, all of its pages were.
    pub fn granule(&self) -> u64
        ensures granule { result ≡ self.now.granule }
        ensures valid { IsGranule result }
        ensures whole { IsInGranules self.now }
    {
        self.granule
    }

    /// The memory.
    pub fn table(&self) -> &RunTable<A>
        ensures { result.now.pages ≡ self.now.memory }
    {
        &self.table
    }
}
