//! What takes memory beside the services, and reports that it is refused.
use super::BLOCK;
use super::heaps::{core_on, new_core};
use boot_core::{Call, Core, Reply};
use boot_trace::{BlockFault, TraceFault, check_block, read_call};
use driver_connect::TableDriver;
use map_keys::read_descriptors;
use page_ranges::Status;
use refusing_memory::Refusing;
use std::alloc::Global;
use std::process::Abort;

/// More allocations than are asked for.
const MAX_ALLOCATIONS: u64 = 1000;

/// Asserts that a core is made unless an allocation is refused, and returns how many it takes.
fn core_allocations(rt: &(impl AllocGlobal + Abort)) -> u64 {
    for number in 1..MAX_ALLOCATIONS {
        let heap = Refusing::new(rt.alloc());
        let is_there = new_core(rt, &heap, number).is_ok();
        assert!(rt; is_there != heap.has_refused());
        if is_there {
            return number - 1;
        }
    }
    MAX_ALLOCATIONS
}

#[test]
fn core_is_refused_memory(rt: HostRuntime) {
    let count = core_allocations(&rt);
    assert!(rt; count > 0 && count < MAX_ALLOCATIONS);
}

/// Whether the boot services are ended by a list of one call, if memory was there for its reply.
fn is_ended(rt: &impl Abort, core: &mut Core<TableDriver, &Refusing<Global>>) -> Option<bool> {
    assert!(rt; core.calls_left() > 0);
    match core.run(&[Call::ExitBootServices { key: 1 }]) {
        Ok(replies) => Some(matches!(replies.as_slice(), [Reply::ExitBootServices(Ok(()))],)),
        Err(_) => None,
    }
}

/// The boot services can be ended once, and no call is made while memory is refused.
fn assert_ends(
    rt: &impl Abort,
    heap: &Refusing<Global>,
    core: &mut Core<TableDriver, &Refusing<Global>>,
) {
    let left = core.calls_left();
    heap.refuse(1);
    assert!(rt; is_ended(rt, core).is_none());
    assert!(rt; core.calls_left() == left);
    assert!(rt; is_ended(rt, core) == Some(true));
}

/// How many descriptors are read, if memory is there for them.
fn count_of(rt: &impl Abort, heap: &Refusing<Global>, bytes: &[u8]) -> Option<usize> {
    match read_descriptors(heap, bytes) {
        Ok(entries) => Some(entries.expect(rt, "records").len()),
        Err(_) => None,
    }
}

/// A map and the pool are read into the caller's buffers without memory. The descriptors of the map take some.
fn assert_reads(
    rt: &impl Abort,
    heap: &Refusing<Global>,
    core: &mut Core<TableDriver, &Refusing<Global>>,
) {
    let mut bytes = [0u8; 192];
    heap.refuse_from(1);
    assert!(rt; core.calls_left() > 1);
    assert!(rt; core.get_memory_map(&mut bytes).status == Status::Success);
    assert!(rt; core.pool_read(0, &mut [0u8; 1]) == Status::InvalidParameter);
    assert!(rt; !heap.has_refused());
    assert!(rt; count_of(rt, heap, &bytes).is_none());
    heap.refuse(0);
    assert!(rt; count_of(rt, heap, &bytes) == Some(4));
}

/// Makes a core, and asserts that memory is refused to its replies, or to descriptors.
fn assert_refused(rt: &(impl AllocGlobal + Abort), is_of_replies: bool) {
    let heap = Refusing::new(rt.alloc());
    let mut core = core_on(rt, &heap);
    if is_of_replies {
        assert_ends(rt, &heap, &mut core);
    } else {
        assert_reads(rt, &heap, &mut core);
    }
}

#[test]
fn replies_are_refused_memory(rt: HostRuntime) {
    assert_refused(&rt, true);
}

#[test]
fn descriptors_are_refused_memory(rt: HostRuntime) {
    assert_refused(&rt, false);
}

/// Lines of traces.
const LINES: [&str; 5] = [
    "list",
    "map 0x40",
    "write 0x7ff008 a5a5a5a5a5a5a5a5a5",
    "connect 1 1 2 3 4 5 6",
    "install-many 0 11111111-1111-1111-1111-111111111111 1 22222222-2222-2222-2222-222222222222 2",
];

/// Asserts that a line is read unless an allocation is refused, and returns how many it takes.
fn line_allocations(rt: &(impl AllocGlobal + Abort), line: &str) -> u64 {
    for number in 1..MAX_ALLOCATIONS {
        let heap = Refusing::new(rt.alloc());
        heap.refuse_from(number);
        match read_call(&heap, line.as_bytes()) {
            Ok(call) => {
                assert!(rt; call.is_some() && !heap.has_refused());
                return number - 1;
            }
            Err(fault) => assert!(rt; fault == TraceFault::OutOfMemory && heap.has_refused()),
        }
    }
    MAX_ALLOCATIONS
}

#[test]
fn lines_are_refused_memory(rt: HostRuntime) {
    for line in &LINES {
        let count = line_allocations(&rt, line);
        assert!(rt; count > 0 && count < MAX_ALLOCATIONS);
    }
}

/// Asserts that a block is judged unless an allocation is refused, and returns how many that takes.
fn block_allocations(rt: &(impl AllocGlobal + Abort)) -> u64 {
    for number in 1..MAX_ALLOCATIONS {
        let heap = Refusing::new(rt.alloc());
        let mut out = Vec::new(rt.alloc());
        heap.refuse_from(number);
        match check_block(&heap, BLOCK, &mut out) {
            Ok(is_accepted) => {
                assert!(rt; is_accepted && !heap.has_refused());
                assert!(rt; out.as_slice() == b"accepted\n".as_slice());
                return number - 1;
            }
            Err(fault) => {
                assert!(rt; fault == BlockFault::OutOfMemory && heap.has_refused());
                assert!(rt; out.is_empty());
            }
        }
    }
    MAX_ALLOCATIONS
}

#[test]
fn block_is_refused_memory(rt: HostRuntime) {
    let count = block_allocations(&rt);
    assert!(rt; count > 0 && count < MAX_ALLOCATIONS);
}
