//! Pages and blocks that are freed while all memory is refused.
use super::heaps::core_on;
use boot_core::Services;
use driver_connect::TableDriver;
use page_ranges::{Descriptor, Status};
use refusing_memory::Refusing;
use std::alloc::Global;
use std::process::Abort;

/// The services of a core on memory that can be refused.
type RefusedCore<'a> = Services<TableDriver, &'a Refusing<Global>>;

/// How much is placed: pages, and blocks of the pool.
const COUNT: usize = 400;

/// What is to be freed: pages from an address on, with their number, or the block at an address.
#[derive(Clone, Copy)]
enum Taken {
    Pages(u64, u64),
    Block(u64),
}

/// Places pages anywhere, and returns their address.
fn place(
    rt: &impl Abort,
    core: &mut RefusedCore<'_>,
    mtype: u32,
    pages: u64,
) -> Result<u64, Status> {
    assert!(rt; core.calls_left() > 0);
    let placed = core.allocate_pages(0, mtype, pages, 0)?;
    Ok(placed.address)
}

/// Takes a block of the pool, and returns its address.
fn take_block(
    rt: &impl Abort,
    core: &mut RefusedCore<'_>,
    mtype: u32,
    size: u64,
) -> Result<u64, Status> {
    assert!(rt; core.calls_left() > 0);
    let (address, _certificate) = core.allocate_pool(mtype, size)?;
    Ok(address)
}

/// Frees pages, or a block.
fn free(rt: &impl Abort, core: &mut RefusedCore<'_>, taken: Taken) -> Result<(), Status> {
    assert!(rt; core.calls_left() > 0);
    match taken {
        Taken::Pages(address, pages) => core.free_pages(address, pages),
        Taken::Block(address) => core.free_pool(address),
    }
}

/// The entries of the memory map.
fn map_of(rt: &(impl AllocGlobal + Abort), core: &RefusedCore<'_>) -> Vec<Descriptor> {
    let mut entries = Vec::new(rt.alloc());
    for entry in core.map_entries() {
        entries.push(entry).expect(rt, "memory");
    }
    entries
}

fn next_draw(draw: u64) -> u64 {
    draw.wrapping_mul(6_364_136_223_846_793_005)
        .wrapping_add(1_442_695_040_888_963_407)
}

/// Places pages or takes a block, of a drawn size and type: every second one is of boot services data.
fn take_drawn(rt: &impl Abort, core: &mut RefusedCore<'_>, draw: u64) -> Taken {
    let mtype = match draw >> 30 & 3 {
        0 => 3,
        1 => 6,
        _ => 4,
    };
    if draw >> 40 & 3 == 0 {
        let size = match draw >> 50 & 3 {
            0 => 24,
            1 => 1_000,
            2 => 5_000,
            _ => 9_000,
        };
        return Taken::Block(take_block(rt, core, mtype, size).expect(rt, "a block"));
    }
    let pages = 1 + (draw >> 50) % 4;
    let address = place(rt, core, mtype, pages).expect(rt, "pages");
    Taken::Pages(address, pages)
}

/// Asserts that no pages are placed and no extent begins, and that the memory map stays.
fn assert_none_taken(rt: &(impl AllocGlobal + Abort), core: &mut RefusedCore<'_>) {
    let before = map_of(rt, core);
    assert!(rt; place(rt, core, 4, 1) == Err(Status::OutOfResources));
    assert!(rt; take_block(rt, core, 4, 40_000) == Err(Status::OutOfResources));
    assert!(rt; map_of(rt, core).as_slice() == before.as_slice());
}

/// Frees all that was taken, in a drawn order. Returns the most entries that the memory map has meanwhile.
fn free_all(
    rt: &(impl AllocGlobal + Abort),
    core: &mut RefusedCore<'_>,
    taken: &mut Vec<Taken>,
) -> usize {
    let mut most = 0;
    let mut draw = 17;
    for left in (1..=COUNT).rev() {
        draw = next_draw(draw);
        assert!(rt; taken.len() == left);
        let freed = taken.swap_remove((draw >> 33) as usize % left);
        assert!(rt; free(rt, core, freed).is_ok());
        if left % 16 == 0 {
            assert_none_taken(rt, core);
        }
        most = core.descriptors().max(most);
    }
    most
}

/// Fills memory of a core, and frees all of it while memory is refused to the core.
fn assert_freed<'a>(
    rt: &(impl AllocGlobal + Abort),
    heap: &'a Refusing<Global>,
    core: &mut RefusedCore<'a>,
) {
    let first = map_of(rt, core);
    let mut taken = Vec::new(rt.alloc());
    let mut draw = 13;
    for _taken in 0..COUNT {
        draw = next_draw(draw);
        taken.push(take_drawn(rt, core, draw)).expect(rt, "memory");
    }
    let entries = core.descriptors();
    heap.refuse_from(1);
    assert_none_taken(rt, core);
    let most = free_all(rt, core, &mut taken);
    assert!(rt; most > entries.saturating_add(100));
    assert!(rt; map_of(rt, core).as_slice() == first.as_slice());
}

/// Pages of a type lie side by side, so that to free some of them cuts the runs that they are.
#[test]
fn frees_take_no_memory(rt: HostRuntime) {
    let heap = Refusing::new(rt.alloc());
    let mut core = core_on(&rt, &heap);
    assert_freed(&rt, &heap, &mut core.services);
}
