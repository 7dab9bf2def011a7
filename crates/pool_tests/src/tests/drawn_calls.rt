//! Drawn calls on a region of four pages, beside a plain list of its blocks.
use raw_pool::RawPool;
use std::process::Abort;

/// The pages of the region, and its cells.
const PAGES: usize = 4;

const CELLS: usize = 512;

/// How many calls are drawn.
const CALLS: usize = 1000;

/// A block: its first cell, how many cells it takes, and its bytes.
#[derive(Drop)]
struct Block {
    cell: usize,
    cells: usize,
    bytes: Vec<u8>,
}

/// A drawn number.
#[derive(Clone, Copy)]
struct Draw {
    state: u64,
}

impl Draw {
    /// The next number below a limit, 0 where that is 0.
    fn next(&mut self, limit: usize) -> usize {
        self.state = self
            .state
            .wrapping_mul(6_364_136_223_846_793_005)
            .wrapping_add(1_442_695_040_888_963_407);
        let drawn = (self.state >> 33) as usize;
        if limit == 0 { 0 } else { drawn % limit }
    }
}

/// The lowest of a number of free cells in a row, by blocks in ascending order, and how many blocks are below them.
fn place_of(blocks: &[Block], cells: usize) -> Option<(usize, usize)> {
    let mut free: usize = 0;
    for (index, block) in blocks.iter().enumerate() {
        if block.cell.saturating_sub(free) >= cells {
            return Some((free, index));
        }
        free = block.cell.saturating_add(block.cells);
    }
    if CELLS.saturating_sub(free) >= cells {
        Some((free, blocks.len()))
    } else {
        None
    }
}

/// A row of zeros.
fn zeros(rt: &(impl AllocGlobal + Abort), size: usize) -> Vec<u8> {
    let mut bytes = Vec::new(rt.alloc());
    for _ in 0..size {
        bytes.push(0).expect(rt, "memory");
    }
    bytes
}

/// Takes a block of a size, of the region and of the list.
fn take(rt: &(impl AllocGlobal + Abort), pool: &mut RawPool, blocks: &mut Vec<Block>, size: usize) {
    let cells = size.saturating_add(39) / 32;
    let place = place_of(blocks.as_slice(), cells);
    assert!(rt; pool.take(size) == place.map(|found| found.0));
    if let Some((cell, index)) = place {
        if index <= blocks.len() {
            let bytes = zeros(rt, size);
            blocks
                .insert(index, Block { cell, cells, bytes })
                .expect(rt, "memory");
        }
    }
}

/// Gives the block at a cell back, if there is one.
fn give(rt: &impl Abort, pool: &mut RawPool, blocks: &mut Vec<Block>, cell: usize) {
    let found = blocks.iter().position(|block| block.cell == cell);
    assert!(rt; pool.give(cell) == found.is_some());
    if let Some(index) = found {
        if index < blocks.len() {
            let _block = blocks.remove(index);
        }
    }
}

/// Writes bytes into a block of the list, and returns whether they lie in one.
fn write_listed(blocks: &mut [Block], cell: usize, at: usize, bytes: &[u8]) -> bool {
    let Some(index) = blocks.iter().position(|block| block.cell == cell) else {
        return false;
    };
    if index >= blocks.len() {
        return false;
    }
    let held = blocks[index].bytes.as_mut_slice();
    if at > held.len() || bytes.len() > held.len() - at {
        return false;
    }
    held[at..at + bytes.len()].copy_from_slice(bytes);
    true
}

/// Whether the region has this block at a cell, with its bytes, or has none there.
fn is_listed(pool: &RawPool, cell: usize, listed: Option<&Block>) -> bool {
    match (listed, pool.bytes(cell)) {
        (Some(block), Some(bytes)) => {
            pool.size_of(cell) == Some(block.bytes.len()) && bytes == block.bytes.as_slice()
        }
        (None, None) => pool.size_of(cell).is_none(),
        _ => false,
    }
}

/// Asserts that the region has just the blocks of the list, with all their bytes.
fn assert_listed(rt: &impl Abort, pool: &RawPool, blocks: &[Block]) {
    for cell in 0..CELLS {
        let listed = blocks.iter().find(|block| block.cell == cell);
        assert!(rt; is_listed(pool, cell, listed));
    }
    assert!(rt; pool.is_empty() == blocks.is_empty());
}

/// A cell, and mostly one at which a block begins.
fn drawn_cell(draw: &mut Draw, blocks: &[Block]) -> usize {
    let cell = draw.next(CELLS + 8);
    match blocks.get(draw.next(blocks.len().saturating_add(blocks.len() / 4))) {
        Some(block) => block.cell,
        None => cell,
    }
}

/// A drawn size: of a few cells, or any up to more than the region has.
fn drawn_size(draw: &mut Draw) -> usize {
    if draw.next(16) == 0 {
        draw.next(20_000)
    } else {
        draw.next(700)
    }
}

/// Makes a drawn call on the region and on the list, which must answer the same.
fn make_call(
    rt: &(impl AllocGlobal + Abort),
    draw: &mut Draw,
    pool: &mut RawPool,
    blocks: &mut Vec<Block>,
) {
    match draw.next(4) {
        0 => take(rt, pool, blocks, drawn_size(draw)),
        1 => {
            let cell = drawn_cell(draw, blocks.as_slice());
            give(rt, pool, blocks, cell);
        }
        _ => {
            let cell = drawn_cell(draw, blocks.as_slice());
            let at = draw.next(700);
            let bytes = draw.state.to_le_bytes();
            let front = &bytes[..draw.next(9).min(bytes.len())];
            let fits = write_listed(blocks.as_mut_slice(), cell, at, front);
            assert!(rt; pool.write(cell, at, front) == fits);
        }
    }
}

#[test]
fn calls_are_those_of_a_list_of_blocks(rt: HostRuntime) {
    let mut pool = RawPool::new(rt.alloc(), PAGES).expect(&rt, "memory");
    let mut blocks = Vec::new(rt.alloc());
    let mut draw = Draw { state: 1 };
    for _ in 0..CALLS {
        make_call(&rt, &mut draw, &mut pool, &mut blocks);
        assert_listed(&rt, &pool, blocks.as_slice());
    }
}
