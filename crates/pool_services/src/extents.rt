//! An extent of the pool with its region of memory.
ghost use Rattle.std.specs.Prelude.{◌≡◌, ◌≢◌, ◌+◌, ◌<◌, ◌≤◌, ◌↔◌, ◌^◌, [], length, is_some, map, nat_le, ℕ, option_map, true, IsTrue, MatchOption};
ghost use Rattle.std.specs.List.{find};
ghost use Rattle.page_ranges.specs.Granules.{IsGranule};
ghost use Rattle.raw_pool.specs.Blocks.{block_at, cells_for, lowest_fit, new_block, with_block, without_block};
ghost use Rattle.pool_services.specs.Extents.{IsExtent, address_of, cells_in, extent_pages, extent_with_block, max_size, pages_for, tail_in, with_blocks};
ghost use Rattle.pool_services.specs.Regions.{IsRegionFor, with_block_at};
ghost use Rattle.pool_services.specs.Listed.{begins_from, is_from, listed};
ghost use Rattle.pool_services.specs.Rooms.{room_of};
ghost use Rattle.pool_services.specs.Searches.{HasRoom, HoldsAddress, IsFreed, IsLastUpTo, IsLocated, written_if};

use crate::listed::PoolBlock;
use crate::rooms::Room;
use page_ranges::{MemoryType, PAGE_SIZE, PageRange, granule_for, rounded};
use raw_pool::{PAGE_CELLS, RawPool};
use std::alloc::Allocator;
use std::marker::Model;

/// The bytes of a cell, as addresses count them.
const CELL_SIZE: u64 = raw_pool::CELL_SIZE as u64;

/// The bytes of a block's first cell that come before its own, as addresses count them.
pub(crate) const HEADER_SIZE: u64 = raw_pool::HEADER_SIZE as u64;

/// The cells that a block of a size takes.
pub(crate) fn cells_for(size: usize) -> usize
    requires { size ≤ 2 ^ 33 }
    ensures { result ≡ cells_for size }
{
    (size + HEADER_SIZE as usize + (CELL_SIZE as usize - 1)) / CELL_SIZE as usize
}

/// The fewest pages that hold a block of a size.
pub(crate) fn pages_for(size: usize) -> usize
    requires { size ≤ max_size }
    ensures pages { result ≡ pages_for size }
    ensures some { 0 < result }
    ensures few { result ≤ 2 ^ 20 + 1 }
{
    (cells_for(size) + (PAGE_CELLS - 1)) / PAGE_CELLS
}

/// The pages of a new extent of a type for a block of a size, on a machine with a granule.
pub(crate) fn extent_pages(granule: u64, mtype: MemoryType, size: usize) -> usize
    requires granule { IsGranule granule }
    requires size { size ≤ max_size }
    ensures pages { result ≡ extent_pages granule mtype size }
    ensures enough { pages_for size ≤ result }
    ensures few { result ≤ 2 ^ 21 }
{
    let Some(pages) = rounded(pages_for(size) as u64, granule_for(mtype, granule)) else {
        unreachable!();
    };
    pages as usize
}

/// What comes of giving back the block that has an address.
pub(crate) enum Freed {
    /// No block has the address.
    NoBlock,
    /// The block is given back.
    Back,
    /// The block, at this cell, is the only one of its extent, and stays.
    Last(usize),
}

/// Some pages of one type and the blocks in them.
#[derive(Drop)]
pub(crate) struct PoolExtent<A: Allocator> {
    range: PageRange,
    mtype: MemoryType,
    region: RawPool<A>,
    // How many blocks there are.
    live: usize,
}

impl<A: Allocator> Model for PoolExtent<A> {
    ghost use Rattle.pool_services.specs.Extents.{Extent};
    ghost use Rattle.pool_services.specs.Regions.{IsCountedRegion};

    ghost Value = { Extent };

    ghost view = { λ e.
        record {
          first = e.range.first;
          pages = e.range.pages;
          mtype = e.mtype;
          blocks = e.region.blocks;
        } };

    ghost invariant = { λ e.
        IsCountedRegion e.range e.live e.region };
}

impl<A: Allocator + Copy> PoolExtent<A> {
    /// An extent with a first block, for which it is large enough.
    pub(crate) fn with_block(
        first: u64,
        mtype: MemoryType,
        mut region: RawPool<A>,
        pages: u64,
        size: usize,
    ) -> PoolExtent<A>
        requires pages { pages_for size ≤ pages }
        requires size { size ≤ max_size }
        requires region { IsRegionFor first pages region }
        ensures { result ≡ extent_with_block first pages mtype size }
    {
        if region.take(size).is_none() {
            unreachable!();
        }
        PoolExtent {
            range: PageRange { first, pages },
            mtype,
            region,
            live: 1,
        }
    }

    /// The pages.
    pub(crate) fn range(&self) -> PageRange
        ensures first { result.first ≡ self.now.first }
        ensures pages { result.pages ≡ self.now.pages }
    {
        self.range
    }

    /// The first page, the type of the pages, and how many cells the longest run of free cells has.
    pub(crate) fn room(&self) -> Room
        requires { IsExtent self.now }
        ensures { result ≡ room_of self.now }
    {
        Room {
            first: self.range.first,
            mtype: self.mtype,
            longest: self.longest(),
        }
    }

    /// How many cells the longest run of free cells has.
    pub(crate) fn longest(&self) -> u32
        requires { IsExtent self.now }
        ensures { result ≡ (room_of self.now).longest }
    {
        self.region.longest_free() as u32
    }

    /// Takes the lowest run of free cells that has room for a block, and returns its first cell.
    pub(crate) fn take(&mut self, size: usize) -> Option<usize>
        requires { IsExtent self.old }
        ensures cell { result ≡ lowest_fit (cells_in self.old.pages)
            (cells_for size) 0 self.old.blocks }
        ensures extent { MatchOption result (self.new ≡ self.old)
            (λ cell. self.new ≡ with_block_at cell size self.old) }
    {
        let cell = self.region.take(size)?;
        self.live += 1;
        Some(cell)
    }

    /// The cell at which a block with an address in the extent would begin.
    fn cell_at(&self, address: u64) -> Option<usize>
        requires extent { IsExtent self.now }
        requires in_extent { HoldsAddress self.now address }
        ensures { MatchOption result ((k : ℕ) → address_of self.now.first k ≢ address)
            (λ cell. address ≡ address_of self.now.first cell) }
    {
        let offset = address - HEADER_SIZE - PAGE_SIZE * self.range.first;
        if offset % CELL_SIZE == 0 {
            Some((offset / CELL_SIZE) as usize)
        } else {
            None
        }
    }

    /// Gives back the block that has an address in the extent, unless it is the only one there.
    #[inline(always)]
    pub(crate) fn give(&mut self, address: u64) -> Freed
        requires extent { IsExtent self.old }
        requires in_extent { HoldsAddress self.old address }
        ensures { IsFreed address self.old result self.new }
    {
        let Some(cell) = self.cell_at(address) else {
            return Freed::NoBlock;
        };
        if self.live == 1 {
            if self.region.size_of(cell).is_none() {
                return Freed::NoBlock;
            }
            return Freed::Last(cell);
        }
        if !self.region.give(cell) {
            return Freed::NoBlock;
        }
        self.live -= 1;
        Freed::Back
    }

    /// The memory of the extent, where the block at a cell is given back.
    pub(crate) fn into_region(self, cell: usize) -> RawPool<A>
        ensures { result.blocks ≡ without_block cell self.blocks }
    {
        let PoolExtent {
            range: _,
            mtype: _,
            mut region,
            live: _,
        } = self;
        region.give(cell);
        region
    }

    /// The address of the block at a cell.
    pub(crate) fn address_of(&self, cell: usize) -> u64
        requires extent { IsExtent self.now }
        requires cell { cell < cells_in self.now.pages }
        ensures { result ≡ address_of self.now.first cell }
    {
        PAGE_SIZE * self.range.first + CELL_SIZE * cell as u64 + HEADER_SIZE
    }

    /// The last cell of some that begins a block, of the first cells up to one.
    fn block_up_to(&self, cell: usize) -> Option<usize>
        requires { cell < 2 ^ 60 }
        ensures { IsLastUpTo cell self.now.blocks result }
    {
        let mut end = cell + 1;
        while end > 0 {
            end -= 1;
            if self.region.size_of(end).is_some() {
                return Some(end);
            }
        }
        None
    }

    /// The block that alone an address can belong to, which lies in the extent: its cell, and how many
    /// bytes lie before the address in it or behind it.
    fn locate(&self, address: u64) -> Option<(usize, usize)>
        requires extent { IsExtent self.now }
        requires in_extent { HoldsAddress self.now address }
        ensures { IsLocated self.now address result }
    {
        let offset = address - HEADER_SIZE - PAGE_SIZE * self.range.first;
        let cell = self.block_up_to((offset / CELL_SIZE) as usize)?;
        Some((cell, (offset - CELL_SIZE * cell as u64) as usize))
    }

    /// The bytes from an address on, which lies in the extent, to the end of the block that it belongs to.
    pub(crate) fn tail(&self, address: u64) -> Option<&[u8]>
        requires extent { IsExtent self.now }
        requires in_extent { HoldsAddress self.now address }
        ensures { option_map (λ s. s.now) result ≡ tail_in self.now.first address self.now.blocks }
    {
        let (cell, at) = self.locate(address)?;
        let bytes = self.region.bytes(cell)?;
        if at <= bytes.len() {
            Some(&bytes[at..])
        } else {
            None
        }
    }

    /// The first cell whose block would lie at an address or above it.
    fn cell_from(&self, address: u64) -> usize
        requires { IsExtent self.now }
        ensures { (k : ℕ) → nat_le result k ≡ nat_le address (address_of self.now.first k) }
    {
        let start = PAGE_SIZE * self.range.first + HEADER_SIZE;
        if address <= start {
            return 0;
        }
        ((address - start - 1) / CELL_SIZE + 1) as usize
    }

    /// The cell behind the block that begins one cell before a cell, where one does, else the cell.
    fn behind_block(&self, cell: usize) -> usize
        requires { IsExtent self.now }
        ensures { find (begins_from result) self.now.blocks
            ≡ find (begins_from cell) self.now.blocks }
    {
        if cell == 0 {
            return 0;
        }
        match self.region.size_of(cell - 1) {
            Some(size) => cell - 1 + cells_for(size),
            None => cell,
        }
    }

    /// The first cell from one on at which a block begins, and the block's size.
    fn next_block(&self, cell: usize) -> Option<(usize, usize)>
        requires { IsExtent self.now }
        ensures { result ≡ option_map (λ b. (b.first, b.size))
            (find (begins_from cell) self.now.blocks) }
    {
        for at in cell..PAGE_CELLS * self.range.pages as usize {
            if let Some(size) = self.region.size_of(at) {
                return Some((at, size));
            }
        }
        None
    }

    /// The block with the lowest address at or above one.
    pub(crate) fn block_from(&self, address: u64) -> Option<PoolBlock>
        requires { IsExtent self.now }
        ensures { result ≡ find (is_from address) (map (listed self.now) self.now.blocks) }
    {
        let cell = self.behind_block(self.cell_from(address));
        let (cell, size) = self.next_block(cell)?;
        Some(PoolBlock {
            address: self.address_of(cell),
            size: size as u64,
            mtype: self.mtype,
        })
    }

    /// Writes bytes from an address on, which lies in the extent. False, with nothing changed, if they
    /// do not lie in one block.
    pub(crate) fn write(&mut self, address: u64, bytes: &[u8]) -> bool
        requires extent { IsExtent self.old }
        requires in_extent { HoldsAddress self.old address }
        ensures written { IsTrue result
            ↔ HasRoom (length bytes.now) (tail_in self.old.first address self.old.blocks) }
        ensures extent { self.new ≡ written_if result address bytes.now self.old }
    {
        match self.locate(address) {
            Some((cell, at)) => self.region.write(cell, at, bytes),
            None => false,
        }
    }
}
