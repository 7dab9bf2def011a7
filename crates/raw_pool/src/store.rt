//! The cells of a region: blocks with their headers, and the list of the free runs between them.
ghost use Rattle.std.specs.Prelude.{◌≡◌, ◌≤◌, ◌<◌, ◌+◌, ◌*◌, ◌^◌, ◌==◌, [], ◌∷◌, cond, length, max, slice_index, IsTrue, ◌↔◌, MatchOption, Some, None, true, ◌≢◌, ◌-◌, if◌then◌else◌};
ghost use Rattle.std.specs.List.{AllByRecursion};
ghost use Rattle.std.specs.Option.{is_some, option_map};
ghost use Rattle.byteorder.specs.Endian.{little_bytes};
ghost use Rattle.raw_pool.specs.Bytes.{word};
ghost use Rattle.raw_pool.specs.Answers.{AreCellsIn, bytes_at};
ghost use Rattle.raw_pool.specs.Blocks.{block_at, cells_for, given, holds_range, longest_run, lowest_fit, taken, written};
ghost use Rattle.raw_pool.specs.FreeList.{link};
ghost use Rattle.raw_pool.specs.Searches.{IsCut};
ghost use Rattle.raw_pool.specs.Stores.{AddsRun, ChangesBytes, ChangesLinks, ChangesMarks, ChangesSet, EndsWithRun, HasPassed, IsFit, IsLaidStore, IsMarked, IsRunBefore, IsRunIn, IsWholeStore, JoinsRun, KnowsLongest, block_by_header, blocks_of, bytes_with_link, bytes_with_run, marks_with, pool_in};

use crate::raw_bytes::word_in;
use crate::region::Region;
use std::alloc::{Allocator, Global};

/// The bytes of a cell.
pub const CELL_SIZE: usize = 32;

/// The bytes of the header before a block.
pub const HEADER_SIZE: usize = 8;

/// The cells of a page.
pub const PAGE_CELLS: usize = 128;

/// The cells that a block of a size takes, its header included.
fn cells_of(size: usize) -> usize
    requires { size < 2 ^ 63 }
    ensures { result ≡ cells_for size }
{
    (size + HEADER_SIZE + (CELL_SIZE - 1)) / CELL_SIZE
}

/// The larger of two numbers.
fn larger(a: usize, b: usize) -> usize
    ensures { result ≡ max a b }
{
    if a < b { b } else { a }
}

/// A region of cells. Each cell has a mark, which is 1 for the first cell of a block and 0 for others.
///
/// The free runs are a list by ascending cell. A run has its header in its first cell: how many cells
/// it has, and the first cell of the next run. The list ends with the number of cells.
#[derive(Drop)]
pub(crate) struct Store<A: Allocator = Global> {
    pub(crate) region: Region<A>,
    pub(crate) cells: usize,
    // The first free run.
    pub(crate) head: usize,
    // How many cells the longest free run has.
    pub(crate) longest: usize,
}

impl<A: Allocator + Copy> Store<A> {
    /// The first cell of the run behind a free run. Behind the last one it is the number of cells.
    fn link(&self, run: usize) -> usize
        requires few { (self.now.cells ≤ 2 ^ 28) × (run < self.now.cells) }
        requires set { 32 * run + 16 ≤ length self.now.region.bytes.set }
        ensures { result ≡ link self.now.region.bytes.set self.now.cells self.now.head run }
    {
        self.link_in(self.region.bytes(), run)
    }

    /// The same for a walk, which lends the bytes once.
    #[inline(always)]
    fn link_in(&self, bytes: &[u8], run: usize) -> usize
        requires few { (self.now.cells ≤ 2 ^ 28) × (run < self.now.cells) }
        requires set { 32 * run + 16 ≤ length self.now.region.bytes.set }
        requires bytes { bytes.now ≡ self.now.region.bytes.set }
        ensures { result ≡ link self.now.region.bytes.set self.now.cells self.now.head run }
    {
        word_in(bytes, CELL_SIZE * run + 8) as usize
    }

    /// How many cells a free run has.
    fn run_cells(&self, run: usize) -> usize
        requires few { (self.now.cells ≤ 2 ^ 28) × (run < self.now.cells) }
        requires set { 32 * run + 16 ≤ length self.now.region.bytes.set }
        ensures { result ≡ word self.now.region.bytes.set (32 * run) }
    {
        self.run_cells_in(self.region.bytes(), run)
    }

    /// The same for a walk.
    #[inline(always)]
    fn run_cells_in(&self, bytes: &[u8], run: usize) -> usize
        requires few { (self.now.cells ≤ 2 ^ 28) × (run < self.now.cells) }
        requires set { 32 * run + 16 ≤ length self.now.region.bytes.set }
        requires bytes { bytes.now ≡ self.now.region.bytes.set }
        ensures { result ≡ word self.now.region.bytes.set (32 * run) }
    {
        word_in(bytes, CELL_SIZE * run) as usize
    }

    /// Sets which run is behind a free run, or behind the list's head.
    fn set_link(&mut self, run: usize, next: usize)
        requires few { (self.old.cells ≤ 2 ^ 28) × (run ≤ self.old.cells) }
        requires room { self.old.region.bytes.room ≡ 32 * self.old.cells }
        requires set { run < self.old.cells → 32 * run + 16 ≤ length self.old.region.bytes.set }
        ensures bytes { self.new.region.bytes ≡ bytes_with_link self.old run next }
        ensures head { self.new.head ≡ cond (run == self.old.cells) next self.old.head }
        ensures others { ChangesLinks self.old self.new }
        ensures lies { self.new.region.lies ≡ self.old.region.lies }
    {
        if run == self.cells {
            self.head = next;
        } else {
            self.region.overwrite_word(CELL_SIZE * run + 8, next as u64);
        }
    }

    /// Writes the header of a free run.
    fn set_run(&mut self, run: usize, cells: usize, next: usize)
        requires few { (self.old.cells ≤ 2 ^ 28) × (run < self.old.cells) }
        requires room { self.old.region.bytes.room ≡ 32 * self.old.cells }
        requires set { 32 * run ≤ length self.old.region.bytes.set }
        ensures bytes { self.new.region.bytes ≡ bytes_with_run self.old run cells next }
        ensures others { ChangesBytes self.old self.new }
        ensures lies { self.new.region.lies ≡ self.old.region.lies }
    {
        self.region
            .write_words(CELL_SIZE * run, cells as u64, next as u64);
    }

    /// Writes the header of a free run over bytes that are set.
    fn reset_run(&mut self, run: usize, cells: usize, next: usize)
        requires few { (self.old.cells ≤ 2 ^ 28) × (run < self.old.cells) }
        requires set { 32 * run + 16 ≤ length self.old.region.bytes.set }
        ensures bytes { self.new.region.bytes ≡ bytes_with_run self.old run cells next }
        ensures others { ChangesBytes self.old self.new }
        ensures lies { self.new.region.lies ≡ self.old.region.lies }
    {
        self.region.overwrite_word(CELL_SIZE * run, cells as u64);
        self.region.overwrite_word(CELL_SIZE * run + 8, next as u64);
    }

    /// The first free run of at least the given number of cells, and the place in the list before it.
    fn find_fit(&self, need: usize) -> Option<(usize, usize)>
        requires { IsLaidStore self.now }
        ensures { IsFit self.now need result }
    {
        let bytes = self.region.bytes();
        let mut last = self.cells;
        let mut next = self.head;
        while next < self.cells {
            if self.run_cells_in(bytes, next) >= need {
                return Some((last, next));
            }
            last = next;
            next = self.link_in(bytes, next);
        }
        None
    }

    /// The place in the list behind which a run at a cell belongs, and the run that is there.
    fn find_place(&self, cell: usize) -> (usize, usize)
        requires store { IsLaidStore self.now }
        requires within { cell < self.now.cells }
        ensures { HasPassed (λ r. r.first < cell) self.now result.0 result.1 × (cell ≤ result.1) }
    {
        let bytes = self.region.bytes();
        let mut last = self.cells;
        let mut next = self.head;
        while next < cell {
            last = next;
            next = self.link_in(bytes, next);
        }
        (last, next)
    }

    /// How many cells the longest free run has. It goes along the whole free list.
    fn find_longest(&self) -> usize
        requires { IsLaidStore self.now }
        ensures { result ≡ longest_run self.now.cells 0 (blocks_of self.now) }
    {
        let bytes = self.region.bytes();
        let mut longest = 0;
        let mut next = self.head;
        while next < self.cells {
            longest = larger(longest, self.run_cells_in(bytes, next));
            next = self.link_in(bytes, next);
        }
        longest
    }

    /// How many cells the longest free run has once a block of `need` cells is off the front of a run of `run` cells,
    /// and `next` is behind it. Runs before it are shorter than the block, so the rest is the longest where it is the
    /// last run and no shorter than the block.
    fn longest_left(&self, need: usize, run: usize, next: usize) -> usize
        requires store { IsLaidStore self.now }
        requires few { need < 2 ^ 60 }
        requires last { self.now.cells ≤ next → 2 * need ≤ run
            → longest_run self.now.cells 0 (blocks_of self.now) ≡ run - need }
        ensures { result ≡ longest_run self.now.cells 0 (blocks_of self.now) }
    {
        if next >= self.cells && run >= 2 * need {
            run - need
        } else {
            self.find_longest()
        }
    }

    /// Takes the given number of cells off the front of a free run and sets their bytes to 0. The answer is what
    /// the list goes on with: the rest of the run, or the run behind it.
    fn cut(&mut self, at: usize, need: usize) -> usize
        requires few { (self.old.cells ≤ 2 ^ 28) × (at < self.old.cells) }
        requires room { self.old.region.bytes.room ≡ 32 * self.old.cells }
        requires set { 32 * at + 16 ≤ length self.old.region.bytes.set }
        requires fits { need ≤ word self.old.region.bytes.set (32 * at) }
        requires within { at + word self.old.region.bytes.set (32 * at) ≤ self.old.cells }
        ensures cut { IsCut self.old.region.bytes.set self.new.region.bytes.set self.old.cells
            self.old.head at need result }
        ensures others { ChangesSet self.old self.new }
        ensures lies { self.new.region.lies ≡ self.old.region.lies }
    {
        let free = self.run_cells(at);
        let next = self.link(at);
        let (start, count) = (CELL_SIZE * at, CELL_SIZE * need);
        if need < free {
            self.region
                .clear_and_write(start, count, (free - need) as u64, next as u64);
            at + need
        } else {
            self.region.clear(start, count);
            next
        }
    }

    /// Marks a cell as the first of a block. Where marks are set for it, all those of its page are.
    fn mark(&mut self, cell: usize)
        requires room { self.old.region.marks.room ≡ self.old.cells }
        requires within { (cell < self.old.cells) × (self.old.cells ≤ 2 ^ 28) }
        ensures marks { self.new.region.marks ≡ marks_with self.old cell }
        ensures others { ChangesMarks self.old self.new }
        ensures lies { self.new.region.lies ≡ self.old.region.lies }
    {
        let end = self.cells.min((cell / PAGE_CELLS + 1) * PAGE_CELLS);
        self.region.put_mark(cell, end, 1);
    }

    /// Makes the front of a free run a block, all of whose bytes are 0.
    #[inline(always)]
    fn place(&mut self, last: usize, at: usize, size: usize, need: usize)
        requires store { IsLaidStore self.old }
        requires scan { HasPassed (λ r. r.cells < need) self.old last at }
        requires within { at < self.old.cells }
        requires need { need ≡ cells_for size }
        requires fits { need ≤ word self.old.region.bytes.set (32 * at) }
        ensures pool { pool_in self.new ≡ taken (pool_in self.old) size (Some at) }
        ensures store { IsLaidStore self.new }
        ensures longest { self.new.longest ≡ self.old.longest }
        ensures lies { self.new.region.lies ≡ self.old.region.lies }
    {
        let rest = self.cut(at, need);
        self.set_link(last, rest);
        self.region.overwrite_word(CELL_SIZE * at, size as u64);
        self.mark(at);
    }

    /// Takes the lowest run of free cells that has room for a block.
    fn take_prepared(&mut self, size: usize) -> Option<usize>
        requires store { IsLaidStore self.old }
        requires longest { KnowsLongest self.old }
        ensures cell { result ≡ lowest_fit self.old.cells (cells_for size) 0 (blocks_of self.old) }
        ensures pool { pool_in self.new ≡ taken (pool_in self.old) size result }
        ensures store { IsLaidStore self.new }
        ensures longest { KnowsLongest self.new }
        ensures lies { self.new.region.lies ≡ self.old.region.lies }
    {
        if size > CELL_SIZE * self.cells {
            return None;
        }
        let need = cells_of(size);
        let (last, at) = self.find_fit(need)?;
        let run = self.run_cells(at);
        let next = self.link(at);
        self.place(last, at, size, need);
        // Another run that is longer stays the longest.
        if run >= self.longest {
            self.longest = self.longest_left(need, run, next);
        }
        Some(at)
    }

    /// Whether a block begins at a cell.
    fn is_block(&self, cell: usize) -> bool
        ensures block { block_at cell (blocks_of self.now)
            ≡ (if result then Some (block_by_header self.now cell) else None) }
        ensures marked { result ≡ true → IsMarked self.now cell }
    {
        let marks = self.region.marks();
        cell < marks.len() && marks[cell] != 0
    }

    /// Where the free cells end that begin at a cell, the next block or the region's end, and where
    /// the list goes on there. The first free run from that cell on is `next`.
    fn run_behind(&self, cell: usize, next: usize) -> (usize, usize)
        requires few { self.now.cells ≤ 2 ^ 28 }
        requires set { next < self.now.cells → IsRunIn self.now next }
        requires within { next ≤ self.now.cells }
        ensures run { EndsWithRun self.now cell next result }
        ensures none { (next ≡ cell → next < self.now.cells → ⊥)
            → (result.0 ≡ cell) × (result.1 ≡ next) }
    {
        if next == cell && next < self.cells {
            (next + self.run_cells(next), self.link(next))
        } else {
            (cell, next)
        }
    }

    /// Makes the cells from a cell up to `end` free. They join the free run `last` before them if it
    /// touches them; the list goes on with `after`. The answer is how many cells their run has.
    fn join(&mut self, last: usize, cell: usize, end: usize, after: usize) -> usize
        requires few { AreCellsIn self.old.cells cell end last }
        requires room { self.old.region.bytes.room ≡ 32 * self.old.cells }
        requires last { last < self.old.cells → IsRunBefore self.old last cell }
        requires set { 32 * cell + 32 ≤ length self.old.region.bytes.set }
        ensures touching { JoinsRun self.old last cell end after self.new result }
        ensures apart { AddsRun self.old last cell end after self.new result }
        ensures others { ChangesLinks self.old self.new }
        ensures lies { self.new.region.lies ≡ self.old.region.lies }
    {
        if last < self.cells && last + self.run_cells(last) == cell {
            self.reset_run(last, end - last, after);
            end - last
        } else {
            self.reset_run(cell, end - cell, after);
            self.set_link(last, cell);
            end - cell
        }
    }

    /// Makes the cells of a block free.
    fn free(&mut self, cell: usize)
        requires store { IsLaidStore self.old }
        requires longest { KnowsLongest self.old }
        requires block { IsMarked self.old cell }
        ensures pool { pool_in self.new ≡ given (pool_in self.old) cell }
        ensures store { IsLaidStore self.new }
        ensures longest { KnowsLongest self.new }
        ensures lies { self.new.region.lies ≡ self.old.region.lies }
    {
        let block_end = cell + cells_of(self.region.word(CELL_SIZE * cell) as usize);
        let (last, next) = self.find_place(cell);
        let (end, after) = self.run_behind(block_end, next);
        let run = self.join(last, cell, end, after);
        self.region.overwrite_mark(cell, 0);
        self.longest = larger(self.longest, run);
    }

    /// Writes the header of the one free run, if no byte of the region is set yet.
    fn prepare(&mut self)
        requires { IsWholeStore self.old }
        ensures pool { pool_in self.new ≡ pool_in self.old }
        ensures store { IsLaidStore self.new }
        ensures longest { KnowsLongest self.new }
        ensures lies { self.new.region.lies ≡ self.old.region.lies }
    {
        if self.region.len() == 0 {
            self.set_run(0, self.cells, self.cells);
            self.head = 0;
        }
    }

    /// Takes the lowest run of free cells that has room for a block of the given size, all bytes of which
    /// become 0, and returns the first of its cells.
    pub(crate) fn take(&mut self, size: usize) -> Option<usize>
        requires { IsWholeStore self.old }
        ensures cell { result ≡ lowest_fit self.old.cells (cells_for size) 0 (blocks_of self.old) }
        ensures pool { pool_in self.new ≡ taken (pool_in self.old) size result }
        ensures region { IsWholeStore self.new }
        ensures lies { self.new.region.lies ≡ self.old.region.lies }
    {
        self.prepare();
        self.take_prepared(size)
    }

    /// Gives a block back, if one begins at the cell.
    pub(crate) fn give(&mut self, cell: usize) -> bool
        requires { IsWholeStore self.old }
        ensures given { result ≡ is_some (block_at cell (blocks_of self.old)) }
        ensures pool { pool_in self.new ≡ given (pool_in self.old) cell }
        ensures region { IsWholeStore self.new }
        ensures lies { self.new.region.lies ≡ self.old.region.lies }
    {
        let is_block = self.is_block(cell);
        if is_block {
            self.free(cell);
        }
        is_block
    }

    /// The size of the block at a cell.
    pub(crate) fn size_of(&self, cell: usize) -> Option<usize>
        requires { IsWholeStore self.now }
        ensures { result ≡ option_map (λ b. b.size) (block_at cell (blocks_of self.now)) }
    {
        if self.is_block(cell) {
            Some(self.region.word(CELL_SIZE * cell) as usize)
        } else {
            None
        }
    }

    /// The bytes of the block at a cell.
    pub(crate) fn bytes_of(&self, cell: usize) -> Option<&[u8]>
        requires { IsWholeStore self.now }
        ensures { option_map (λ s. s.now) result ≡ bytes_at cell (blocks_of self.now) }
    {
        let size = self.size_of(cell)?;
        let start = CELL_SIZE * cell + HEADER_SIZE;
        Some(&self.region.bytes()[start..start + size])
    }

    /// Writes bytes into the block at a cell, from one of its bytes on, if they fit.
    pub(crate) fn write(&mut self, cell: usize, at: usize, bytes: &[u8]) -> bool
        requires { IsWholeStore self.old }
        ensures written { result ≡ holds_range at (length bytes.now)
            (block_at cell (blocks_of self.old)) }
        ensures pool { pool_in self.new ≡ written result cell at bytes.now (pool_in self.old) }
        ensures region { IsWholeStore self.new }
        ensures lies { self.new.region.lies ≡ self.old.region.lies }
    {
        let Some(size) = self.size_of(cell) else {
            return false;
        };
        if at > size || bytes.len() > size - at {
            return false;
        }
        self.region
            .write(CELL_SIZE * cell + HEADER_SIZE + at, bytes);
        true
    }

    /// How many cells the longest free run has.
    pub(crate) fn longest_free(&self) -> usize
        requires { IsWholeStore self.now }
        ensures { result ≡ longest_run self.now.cells 0 (blocks_of self.now) }
    {
        self.longest
    }

    /// Whether there is no block: the first free run has all cells then.
    pub(crate) fn is_empty(&self) -> bool
        requires { IsWholeStore self.now }
        ensures { IsTrue result ↔ (blocks_of self.now ≡ []) }
    {
        if self.region.len() == 0 {
            return true;
        }
        self.head == 0 && self.run_cells(0) == self.cells
    }
}
