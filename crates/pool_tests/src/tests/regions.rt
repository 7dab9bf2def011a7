//! Blocks of a region, by hand.
use raw_pool::RawPool;
use std::process::Abort;

/// A page holds 128 blocks of one cell, of 24 bytes at most.
const PAGE_BLOCKS: usize = 128;

/// A call on a region, and what it returns.
enum Step {
    /// The size of a block to take, and its first cell.
    Take(usize, Option<usize>),
    /// The cell of a block to give back, and whether there is one.
    Give(usize, bool),
    /// The cell of a block, the first byte to write, the bytes, and whether they fit.
    Write(usize, usize, &'static [u8], bool),
    /// The cell of a block, its size, and its first and its last bytes.
    Holds(usize, usize, &'static [u8], &'static [u8]),
    /// A cell at which no block begins.
    Refuses(usize),
    /// How many cells the longest free run has.
    Longest(usize),
    /// Whether there is no block.
    Empty(bool),
}

/// Whether a block has a size, and these bytes first and last.
fn holds(pool: &RawPool, cell: usize, size: usize, front: &[u8], back: &[u8]) -> bool {
    match pool.bytes(cell) {
        Some(bytes) => {
            pool.size_of(cell) == Some(size)
                && bytes.len() == size
                && bytes.starts_with(front)
                && bytes.ends_with(back)
        }
        None => false,
    }
}

/// Whether no block begins at a cell.
fn refuses(pool: &mut RawPool, cell: usize) -> bool {
    !pool.give(cell)
        && pool.size_of(cell).is_none()
        && pool.bytes(cell).is_none()
        && !pool.write(cell, 0, b"")
}

/// Whether a call returns what its step says.
fn is_as_said(pool: &mut RawPool, step: &Step) -> bool {
    match step {
        Step::Take(size, cell) => pool.take(*size) == *cell,
        Step::Give(cell, is_given) => pool.give(*cell) == *is_given,
        Step::Write(cell, at, bytes, fits) => pool.write(*cell, *at, bytes) == *fits,
        Step::Holds(cell, size, front, back) => holds(pool, *cell, *size, front, back),
        Step::Refuses(cell) => refuses(pool, *cell),
        Step::Longest(cells) => pool.longest_free() == *cells,
        Step::Empty(is_empty) => pool.is_empty() == *is_empty,
    }
}

/// A new region of the given number of pages.
fn region_of(rt: &(impl AllocGlobal + Abort), pages: usize) -> RawPool {
    if pages == 0 || pages > 4 {
        panic!(rt; "{pages} pages");
    }
    RawPool::new(rt.alloc(), pages).expect(rt, "memory")
}

/// Makes the calls on a new region of the given number of pages.
fn make_all(rt: &(impl AllocGlobal + Abort), pages: usize, steps: &[Step]) {
    let mut pool = region_of(rt, pages);
    for step in steps {
        assert!(rt; is_as_said(&mut pool, step));
    }
}

#[test]
fn first_run_that_fits(rt: HostRuntime) {
    make_all(&rt, 1, FIRST_RUN);
}

const FIRST_RUN: &[Step] = &[
    Step::Take(24, Some(0)),
    Step::Take(25, Some(1)),
    Step::Give(0, true),
    Step::Take(100, Some(3)),
    Step::Take(1, Some(0)),
    Step::Take(4088, None),
    Step::Write(0, 0, b"\x5a", true),
    Step::Holds(0, 1, b"\x5a", b"\x5a"),
];

#[test]
fn freed_cells_again(rt: HostRuntime) {
    make_all(&rt, 1, FREED_CELLS);
}

const FREED_CELLS: &[Step] = &[
    Step::Take(24, Some(0)),
    Step::Take(24, Some(1)),
    Step::Take(24, Some(2)),
    Step::Take(24, Some(3)),
    Step::Write(0, 0, b"\xa5", true),
    Step::Give(1, true),
    Step::Give(3, true),
    Step::Take(4, Some(1)),
    Step::Holds(1, 4, b"\0\0\0\0", b"\0\0\0\0"),
];

#[test]
fn nothing_there(rt: HostRuntime) {
    make_all(&rt, 1, NOTHING_THERE);
}

/// Cells at which no block begins, and ranges that lie in none. A header in a block's bytes is none.
const NOTHING_THERE: &[Step] = &[
    Step::Empty(true),
    Step::Take(40, Some(0)),
    Step::Write(0, 24, b"\x08\0\0\0\0\0\0\0", true),
    Step::Refuses(1),
    Step::Refuses(2),
    Step::Refuses(127),
    Step::Refuses(128),
    Step::Refuses(usize::MAX),
    Step::Write(0, 40, b"\x01", false),
    Step::Give(0, true),
    Step::Refuses(0),
    Step::Empty(true),
];

#[test]
fn largest_block(rt: HostRuntime) {
    make_all(&rt, 4, LARGEST_BLOCK);
}

/// The bytes of a region of four pages: 512 cells of 32.
const REGION_SIZE: usize = 512 * 32;

/// The largest block of a region of four pages, read and written at both ends.
const LARGEST_BLOCK: &[Step] = &[
    Step::Take(REGION_SIZE - 7, None),
    Step::Take(REGION_SIZE - 8, Some(0)),
    Step::Longest(0),
    Step::Take(0, None),
    Step::Write(0, 0, b"\x11\x22", true),
    Step::Write(0, 16374, b"\x33\x44", true),
    Step::Write(0, 16375, b"\x55\x66", false),
    Step::Write(0, 16376, b"\x55", false),
    Step::Holds(0, 16376, b"\x11\x22\0", b"\0\x33\x44"),
    Step::Give(0, true),
    Step::Empty(true),
    Step::Take(REGION_SIZE - 8, Some(0)),
    Step::Holds(0, 16376, b"\0\0\0", b"\0\0\0"),
];

#[test]
fn sizes_at_the_edges(rt: HostRuntime) {
    for (size, cell, next) in SIZES {
        let mut pool = region_of(&rt, 1);
        assert!(rt; pool.take(*size) == *cell && pool.take(0) == *next);
    }
}

/// A size, the cell of its block in an empty page, and that of the next block.
const SIZES: &[(usize, Option<usize>, Option<usize>)] = &[
    (0, Some(0), Some(1)),
    (23, Some(0), Some(1)),
    (24, Some(0), Some(1)),
    (25, Some(0), Some(2)),
    (4088, Some(0), None),
    (4089, None, Some(0)),
    (4096, None, Some(0)),
    (1 << 32, None, Some(0)),
    (usize::MAX, None, Some(0)),
];

/// Gives back every second block of a page from one on.
fn give_half(rt: &impl Abort, pool: &mut RawPool, first: usize) {
    for half in 0..PAGE_BLOCKS / 2 {
        assert!(rt; pool.give(first.saturating_add(2 * half)));
    }
}

/// A page full of blocks of one cell, of which every second is given back, then all.
#[test]
fn full_page(rt: HostRuntime) {
    let mut pool = region_of(&rt, 1);
    for cell in 0..PAGE_BLOCKS {
        assert!(rt; pool.take(24) == Some(cell));
    }
    assert!(rt; pool.take(0).is_none());
    give_half(&rt, &mut pool, 0);
    assert!(rt; pool.longest_free() == 1);
    give_half(&rt, &mut pool, 1);
    assert!(rt; pool.longest_free() == PAGE_BLOCKS && pool.take(4088) == Some(0));
}

/// How many cells the longest free run of a page has, by the sizes of its blocks.
fn longest_by_sizes(pool: &RawPool) -> usize {
    let mut longest: usize = 0;
    let mut free: usize = 0;
    let mut taken: usize = 0;
    for cell in 0..PAGE_BLOCKS {
        if let Some(size) = pool.size_of(cell) {
            taken = size.saturating_add(39) / 32;
        }
        free = if taken > 0 { 0 } else { free.saturating_add(1) };
        taken = taken.saturating_sub(1);
        longest = longest.max(free);
    }
    longest
}

/// The longest free run after each of many calls on a page, drawn by a generator of numbers.
#[test]
fn longest_after_drawn_calls(rt: HostRuntime) {
    let mut pool = region_of(&rt, 1);
    let mut draw: u64 = 1;
    for _ in 0..4000 {
        draw = draw
            .wrapping_mul(6_364_136_223_846_793_005)
            .wrapping_add(1_442_695_040_888_963_407);
        let drawn = (draw >> 40) as usize;
        if draw >> 63 == 0 {
            pool.take(drawn % 200);
        } else {
            pool.give(drawn % PAGE_BLOCKS);
        }
        assert!(rt; pool.longest_free() == longest_by_sizes(&pool));
    }
}

/// The pages of the largest region.
const MAX_PAGES: usize = 1 << 21;

/// The largest region has 8 GiB, none of which is touched. A host may refuse so much memory.
#[test]
fn largest_region(rt: HostRuntime) {
    if let Ok(mut pool) = RawPool::new(rt.alloc(), MAX_PAGES) {
        for step in LARGEST_REGION {
            assert!(rt; is_as_said(&mut pool, step));
        }
    }
}

const LARGEST_REGION: &[Step] = &[
    Step::Empty(true),
    Step::Longest(PAGE_BLOCKS * MAX_PAGES),
    Step::Take(24, Some(0)),
    Step::Longest(PAGE_BLOCKS * MAX_PAGES - 1),
    Step::Give(0, true),
    Step::Empty(true),
];
