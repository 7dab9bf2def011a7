//! Regions of memory for extents.
ghost use Rattle.std.specs.Prelude.{◌≡◌, ◌≤◌, ◌^◌, None, Some, IfSome};
ghost use Rattle.pool_services.specs.Regions.{IsRegionFor, IsSpareRegion, lying};

use raw_pool::{PAGE_CELLS, PoolMemory, RawPool};
use std::alloc::Allocator;
use std::marker::Model;

/// Where the regions of new extents come from: the memory that the machine's pages are, if the pool is over
/// such memory, and else the heap.
#[derive(Drop)]
pub(crate) struct Regions<A: Allocator> {
    memory: Option<PoolMemory>,
    // A region of the heap of an extent of one page that ended. The next such extent takes it, and asks the host for
    // no memory.
    spare: Option<RawPool<A>>,
}

impl<A: Allocator> Model for Regions<A> {
    ghost use Rattle.std.specs.Prelude.{◌≡◌, None, Option, IfSome};
    ghost use Rattle.raw_pool.specs.declared.pages.numbered.PoolMemory.{PoolMemory};
    ghost use Rattle.pool_services.specs.Regions.{IsSpareRegion};

    ghost Value = { Option PoolMemory };

    ghost view = { λ r. r.memory };

    ghost invariant = { λ r. IfSome r.spare (λ s. IsSpareRegion s × (r.memory ≡ None)) };
}

impl<A: Allocator + Copy> Regions<A> {
    /// Regions of the heap.
    pub(crate) fn of_heap() -> Regions<A>
        ensures { result ≡ None }
    {
        Regions {
            memory: None,
            spare: None,
        }
    }

    /// Regions of the memory that the machine's pages are.
    pub(crate) fn over(memory: PoolMemory) -> Regions<A>
        ensures { result ≡ Some memory }
    {
        Regions {
            memory: Some(memory),
            spare: None,
        }
    }

    /// Keeps a region of the heap for later, if it has one page and no blocks, in place of the one that was kept before.
    pub(crate) fn keep(&mut self, region: RawPool<A>)
        ensures { self.new ≡ self.old }
    {
        if self.memory.is_none()
            && region.cells() == PAGE_CELLS
            && region.is_empty()
            && region.page().is_none()
        {
            self.spare = Some(region);
        }
    }

    // The region that is kept, if one of the given number of pages is asked for.
    fn take(&mut self, pages: usize) -> Option<RawPool<A>>
        ensures spare { IfSome result
            (λ r. IsSpareRegion r × (pages ≡ 1) × (self.old ≡ None)) }
        ensures memory { self.new ≡ self.old }
    {
        if pages == 1 { self.spare.take() } else { None }
    }

    /// A region for a new extent of a number of pages from one on. Its bytes are those pages, if the pool is over
    /// memory.
    pub(crate) fn region(&mut self, alloc: A, first: u64, pages: usize) -> Option<RawPool<A>>
        requires { (1 ≤ pages) × (pages ≤ 2 ^ 21) }
        ensures region { IfSome result (λ r. IsRegionFor first pages r) }
        ensures lies { IfSome result (λ r. r.lies ≡ lying first self.old) }
        ensures memory { self.new ≡ self.old }
    {
        let spare = self.take(pages);
        if spare.is_some() {
            return spare;
        }
        match self.memory {
            Some(memory) => RawPool::over(alloc, memory, first, pages).ok(),
            None => RawPool::new(alloc, pages).ok(),
        }
    }
}
