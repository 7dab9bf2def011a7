//! A region of whole pages, whose cells are blocks and free runs.
ghost use Rattle.std.specs.Prelude.{◌≡◌, ◌≤◌, ◌*◌, ◌^◌, ◌<◌, [], length, IfOk, None, Some, IsTrue, ◌↔◌};
ghost use Rattle.std.specs.Option.{is_some, option_map};
ghost use Rattle.raw_pool.specs.Answers.{bytes_at};
ghost use Rattle.raw_pool.specs.Blocks.{block_at, cells_for, given, holds_range, longest_run, lowest_fit, taken, written};

use crate::pages::PoolMemory;
use crate::region::Region;
use crate::store::{CELL_SIZE, PAGE_CELLS, Store};
use std::alloc::{AllocError, Allocator, Global};
use std::marker::Model;

/// A region of raw memory: 128 cells of 32 bytes for each of its pages, and blocks known by their
/// first cells.
///
/// A block takes cells in a row, for a header of 8 bytes and the block's own bytes behind it. All its
/// bytes are 0 when it is taken, and change by [`RawPool::write`] only.
#[derive(Drop)]
pub struct RawPool<A: Allocator = Global> {
    // In a box, so that a list of regions moves little as regions come and go.
    store: Box<Store<A>, A>,
}

impl<A: Allocator> Model for RawPool<A> {
    ghost use Rattle.raw_pool.specs.Blocks.{Pool};
    ghost use Rattle.raw_pool.specs.Lying.{whole_pool};
    ghost use Rattle.raw_pool.specs.Stores.{IsWholeStore};

    ghost Value = { Pool };

    ghost view = { λ p. whole_pool p.store.value };

    ghost invariant = { λ p. IsWholeStore p.store.value };
}

impl<A: Allocator + Copy> RawPool<A> {
    /// A region of the given number of pages, at most 2^21, with no blocks. This is the one call that takes
    /// memory. It touches none of it.
    pub fn new(alloc: A, pages: usize) -> Result<RawPool<A>, AllocError>
        requires { (1 ≤ pages) × (pages ≤ 2 ^ 21) }
        ensures { IfOk result (λ p. p ≡ record { cells = 128 * pages; blocks = []; lies = None }) }
    {
        let cells = PAGE_CELLS * pages;
        let region = Region::new(alloc, CELL_SIZE * cells, cells)?;
        let store = Store {
            region,
            cells,
            head: 0,
            longest: cells,
        };
        Ok(RawPool {
            store: Box::new(alloc, store)?,
        })
    }

    /// The same over pages of a machine, from one on, where all of them are free: the bytes of the cells are these
    /// pages, and go back to their heap with the region.
    pub fn over(
        alloc: A,
        home: PoolMemory,
        page: u64,
        pages: usize,
    ) -> Result<RawPool<A>, AllocError>
        requires { (1 ≤ pages) × (pages ≤ 2 ^ 21) }
        ensures { IfOk result
            (λ p. p ≡ record { cells = 128 * pages; blocks = []; lies = Some page }) }
    {
        let cells = PAGE_CELLS * pages;
        let region = Region::over(alloc, home, page, pages, cells)?;
        let store = Store {
            region,
            cells,
            head: 0,
            longest: cells,
        };
        Ok(RawPool {
            store: Box::new(alloc, store)?,
        })
    }

    /// Takes the lowest run of free cells that has room for a block of the given size, all bytes of which
    /// become 0, and returns its first cell. On None, which means that there is no such run, all stays.
    #[inline(always)]
    pub fn take(&mut self, size: usize) -> Option<usize>
        ensures cell { result ≡ lowest_fit self.old.cells (cells_for size) 0 self.old.blocks }
        ensures pool { self.new ≡ taken self.old size result }
    {
        self.store.take(size)
    }

    /// Gives a block back. False, with nothing changed, if no block begins at the cell.
    pub fn give(&mut self, cell: usize) -> bool
        ensures given { result ≡ is_some (block_at cell self.old.blocks) }
        ensures pool { self.new ≡ given self.old cell }
    {
        self.store.give(cell)
    }

    /// The size in bytes of the block that begins at a cell.
    pub fn size_of(&self, cell: usize) -> Option<usize>
        ensures { result ≡ option_map (λ b. b.size) (block_at cell self.now.blocks) }
    {
        self.store.size_of(cell)
    }

    /// The bytes of the block that begins at a cell.
    pub fn bytes(&self, cell: usize) -> Option<&[u8]>
        ensures { option_map (λ s. s.now) result ≡ bytes_at cell self.now.blocks }
    {
        self.store.bytes_of(cell)
    }

    /// Writes bytes into the block that begins at a cell, from its byte `at` on. False, with nothing
    /// changed, if there is no such block or the bytes do not fit.
    pub fn write(&mut self, cell: usize, at: usize, bytes: &[u8]) -> bool
        ensures written { result ≡ holds_range at (length bytes.now)
            (block_at cell self.old.blocks) }
        ensures pool { self.new ≡ written result cell at bytes.now self.old }
    {
        self.store.write(cell, at, bytes)
    }

    /// How many cells there are, of blocks and free ones.
    pub fn cells(&self) -> usize
        ensures { result ≡ self.now.cells }
    {
        self.store.cells
    }

    /// The first of the machine's pages that the cells are, where they are pages of a machine.
    pub fn page(&self) -> Option<u64>
        ensures { result ≡ self.now.lies }
    {
        self.store.region.page()
    }

    /// Whether there is no block.
    pub fn is_empty(&self) -> bool
        ensures { IsTrue result ↔ (self.now.blocks ≡ []) }
    {
        self.store.is_empty()
    }

    /// How many cells the longest run of free cells has.
    pub fn longest_free(&self) -> usize
        ensures { result ≡ longest_run self.now.cells 0 self.now.blocks }
    {
        self.store.longest_free()
    }
}
