//! Blocks of small heaps.
use super::{Region, RegionHeap};
use std::process::Abort;

/// A heap with 16 units for blocks, and one for their marks.
fn small_heap(rt: &(impl AllocGlobal + Abort)) -> RegionHeap {
    RegionHeap::new(Region::within(&rt.alloc(), 17).expect(rt, "memory"))
}

fn has_room(heap: &RegionHeap, size: usize) -> bool {
    Vec::<u8, &RegionHeap>::with_capacity(heap, size).is_ok()
}

#[test]
fn units_are_taken_and_given_back(rt: HostRuntime) {
    let heap = small_heap(&rt);
    let mut blocks = Vec::new(rt.alloc());
    for _ in 0..8 {
        let block = Vec::<u8, &RegionHeap>::with_capacity(&heap, 16).expect(&rt, "two units");
        blocks.push(block).expect(&rt, "memory");
    }
    assert!(rt; !has_room(&heap, 1));
    drop(blocks.pop());
    assert!(rt; has_room(&heap, 16));
    assert!(rt; !has_room(&heap, 17));
    drop(blocks);
    assert!(rt; has_room(&heap, 240));
    assert!(rt; !has_room(&heap, 241));
}

#[test]
fn two_heaps_share_nothing(rt: HostRuntime) {
    let one = small_heap(&rt);
    let other = small_heap(&rt);
    let mut text = Vec::<u8, &RegionHeap>::new(&one);
    let mut same = Vec::<u8, &RegionHeap>::new(&other);
    for byte in 0..40 {
        text.push(byte).expect(&rt, "memory");
        same.push(byte).expect(&rt, "memory");
    }
    assert_eq!(rt; text.as_slice(), same.as_slice());
    assert!(rt; !has_room(&one, 128));
    drop(text);
    assert!(rt; has_room(&one, 240));
    assert!(rt; !has_room(&other, 128));
}

#[test]
fn a_heap_lies_in_its_own_region(rt: HostRuntime) {
    let region = Region::within(&rt.alloc(), 21).expect(&rt, "memory");
    let heap = RegionHeap::lasting(region).expect(&rt, "four units");
    assert!(rt; has_room(heap, 240));
    assert!(rt; !has_room(heap, 241));
    let region = Region::within(&rt.alloc(), 3).expect(&rt, "memory");
    assert!(rt; RegionHeap::lasting(region).is_none());
}
