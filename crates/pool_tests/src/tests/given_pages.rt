//! Regions over pages of a heap: taken, given back, and taken again.
use raw_pool::{PageHeap, PageRun, PoolMemory, RawPool};
use refusing_memory::Refusing;
use std::process::Abort;

/// Four pages, the first of which is page 0.
fn four_pages(rt: &(impl AllocGlobal + Abort)) -> PoolMemory {
    let run = PageRun::within(&rt.alloc(), 4).expect(rt, "memory");
    let heap = PageHeap::lasting(rt.alloc(), run).expect(rt, "memory");
    PoolMemory { heap, first: 0 }
}

/// A region over pages of a heap, from one on, where all of them are free.
fn region_over(rt: &impl AllocGlobal, home: PoolMemory, at: u64, pages: usize) -> Option<RawPool> {
    if pages == 0 || pages > 5 {
        return None;
    }
    RawPool::over(rt.alloc(), home, at, pages).ok()
}

/// Asserts whether a region can be had over some pages. It is dropped at once.
fn assert_has(rt: &(impl AllocGlobal + Abort), home: PoolMemory, at: u64, pages: usize, has: bool) {
    assert!(rt; region_over(rt, home, at, pages).is_some() == has);
}

/// Fills a region with one block of a byte.
fn fill(rt: &impl Abort, region: &mut RawPool, size: usize, byte: u8) {
    assert!(rt; region.take(size) == Some(0));
    for at in 0..size {
        assert!(rt; region.write(0, at, &[byte]));
    }
}

/// Asserts that the block of a region has one byte throughout.
fn assert_filled(rt: &impl Abort, region: &RawPool, size: usize, byte: u8) {
    let bytes = region.bytes(0).expect(rt, "a block");
    assert!(rt; bytes.len() == size);
    assert!(rt; bytes.iter().all(|it| *it == byte));
}

#[test]
fn pages_go_back_with_their_region(rt: HostRuntime) {
    let home = four_pages(&rt);
    let region = region_over(&rt, home, 1, 2).expect(&rt, "two pages");
    for row in &[
        (0, 1, true),
        (0, 2, false),
        (1, 1, false),
        (2, 2, false),
        (3, 1, true),
    ] {
        assert_has(&rt, home, row.0, row.1, row.2);
    }
    drop(region);
    for row in &[
        (0, 4, true),
        (0, 5, false),
        (3, 1, true),
        (3, 2, false),
        (4, 1, false),
    ] {
        assert_has(&rt, home, row.0, row.1, row.2);
    }
}

#[test]
fn regions_over_one_heap_share_nothing(rt: HostRuntime) {
    let home = four_pages(&rt);
    let mut low = region_over(&rt, home, 0, 1).expect(&rt, "a page");
    let mut high = region_over(&rt, home, 1, 3).expect(&rt, "three pages");
    fill(&rt, &mut low, 4088, 1);
    fill(&rt, &mut high, 12280, 2);
    assert_filled(&rt, &low, 4088, 1);
    assert_has(&rt, home, 0, 1, false);
    drop(low);
    assert_filled(&rt, &high, 12280, 2);
    let mut again = region_over(&rt, home, 0, 1).expect(&rt, "a page");
    assert!(rt; again.take(4088) == Some(0));
    assert_filled(&rt, &again, 4088, 0);
    assert_filled(&rt, &high, 12280, 2);
}

#[test]
fn a_refusal_leaves_the_pages(rt: HostRuntime) {
    let home = four_pages(&rt);
    let memory = Refusing::new(rt.alloc());
    for number in 1..=2 {
        memory.refuse(number);
        assert!(rt; RawPool::over(&memory, home, 0, 4).is_err());
        assert!(rt; memory.has_refused());
        assert_has(&rt, home, 0, 4, true);
    }
    assert!(rt; RawPool::over(&memory, home, 0, 4).is_ok());
}
