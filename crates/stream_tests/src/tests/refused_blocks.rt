//! A block of the pool that needs new pages, while memory is refused.
use super::heaps::core_on;
use boot_core::Services;
use driver_connect::TableDriver;
use page_ranges::Status;
use refusing_memory::Refusing;
use std::alloc::Global;
use std::process::Abort;

/// More allocations than a block takes.
const MAX_ALLOCATIONS: u64 = 1000;

/// How many entries the memory map has, before and with the pages of a block.
const ENTRIES: usize = 4;

const ENTRIES_WITH_BLOCK: usize = 5;

/// Asserts that a core places a block unless an allocation is refused: its pages are then free as before. Returns whether
/// it places it.
fn is_placed(
    rt: &impl Abort,
    heap: &Refusing<Global>,
    core: &mut Services<TableDriver, &Refusing<Global>>,
) -> bool {
    assert!(rt; core.calls_left() > 0);
    match core.allocate_pool(4, 24) {
        Ok(_block) => {
            assert!(rt; !heap.has_refused() && core.descriptors() == ENTRIES_WITH_BLOCK);
            true
        }
        Err(status) => {
            assert!(rt; status == Status::OutOfResources && heap.has_refused());
            assert!(rt; core.descriptors() == ENTRIES);
            false
        }
    }
}

/// The same on a core of its own, whose allocation of this number is refused.
fn is_placed_but_for(rt: &(impl AllocGlobal + Abort), number: u64) -> bool {
    let heap = Refusing::new(rt.alloc());
    let mut core = core_on(rt, &heap);
    heap.refuse(number);
    is_placed(rt, &heap, &mut core.services)
}

#[test]
fn a_refused_block_leaves_the_pages(rt: HostRuntime) {
    for number in 1..MAX_ALLOCATIONS {
        if is_placed_but_for(&rt, number) {
            assert!(rt; number > 1);
            return;
        }
    }
    panic!(rt; "no end");
}
