//! Lists of calls through `Core::run`.
use super::{Free, machine_of};
use boot_core::{Call, Core, Reply};
use driver_connect::TableDriver;
use page_ranges::{PAGE_COUNT, Status};
use std::process::Abort;

/// Blocks of free memory, two of them above each other.
const MACHINE: [Free; 3] = [(0, 160), (256, 768), (1040, 1008)];

/// A core of that machine.
fn core_of(rt: &(impl AllocGlobal + Abort), free: &[Free]) -> Core<TableDriver> {
    Core::new(rt.alloc(), machine_of(rt, free), Vec::new(rt.alloc())).expect(rt, "memory")
}

/// The replies to calls, of which there are not too many.
fn replies_of(rt: &impl Abort, core: &mut Core<TableDriver>, calls: &[Call]) -> Vec<Reply> {
    assert!(rt; calls.len() as u64 <= core.calls_left());
    core.run(calls).expect(rt, "memory")
}

/// The status of a reply, and the address at which it says that pages were placed, 0 for none.
fn parts_of(rt: &impl Abort, reply: &Reply) -> (Status, u64) {
    match reply {
        Reply::AllocatePages(Ok(placed)) => (Status::Success, placed.address),
        Reply::FreePages(Ok(())) | Reply::ExitBootServices(Ok(())) => (Status::Success, 0),
        Reply::AllocatePages(Err(status))
        | Reply::FreePages(Err(status))
        | Reply::ExitBootServices(Err(status)) => (*status, 0),
        Reply::GetMemoryMap { reply, .. } => (reply.status, 0),
        _ => panic!(rt; "the reply to another call"),
    }
}

/// Calls, one after the other.
const CALLS: [Call; 7] = [
    Call::FreePages {
        memory: 0x9e000,
        pages: 2,
    },
    Call::AllocatePages {
        kind: 2,
        mtype: 2,
        pages: 2,
        memory: 0x9e000,
    },
    // The best place is the highest.
    Call::AllocatePages {
        kind: 0,
        mtype: 4,
        pages: 10,
        memory: 0,
    },
    Call::ExitBootServices { key: 1 },
    Call::GetMemoryMap { size: 47 },
    Call::ExitBootServices { key: 3 },
    Call::FreePages {
        memory: 0x9e000,
        pages: 2,
    },
];

/// The status of each of them, and the address at which pages are placed.
const REPLIES: [(Status, u64); 7] = [
    (Status::NotFound, 0),
    (Status::Success, 0x9e000),
    (Status::Success, 0x7f_6000),
    (Status::InvalidParameter, 0),
    (Status::BufferTooSmall, 0),
    (Status::Success, 0),
    (Status::Unsupported, 0),
];

/// Asserts that replies have these parts.
fn assert_parts(rt: &impl Abort, replies: &[Reply], wanted: &[(Status, u64)]) {
    assert!(rt; replies.len() == wanted.len());
    for (parts, reply) in wanted.iter().zip(replies.iter()) {
        assert!(rt; parts_of(rt, reply) == *parts);
    }
}

/// Makes the calls on a core.
fn assert_calls(rt: &impl Abort, core: &mut Core<TableDriver>) {
    let replies = replies_of(rt, core, &CALLS);
    assert_parts(rt, replies.as_slice(), &REPLIES);
    assert!(rt; core.descriptors() == 5 && core.calls_left() == 0x8000_0000 - 7);
}

/// The number of pairs of calls, one of which frees what the other placed.
const PAIRS: usize = 5_000;

/// Appends a call that places pages, and one that frees them.
fn push_pair(rt: &impl Abort, calls: &mut Vec<Call>) {
    let memory = 0x8000_0000_0000_0000;
    let pages = 16;
    calls
        .push(Call::AllocatePages {
            kind: 2,
            mtype: 2,
            pages,
            memory,
        })
        .expect(rt, "memory");
    calls
        .push(Call::FreePages { memory, pages })
        .expect(rt, "memory");
}

/// Appends all pairs.
fn push_pairs(rt: &impl Abort, calls: &mut Vec<Call>) {
    for _pair in 0..PAIRS {
        push_pair(rt, calls);
    }
}

/// Asserts that all calls of the pairs succeeded.
fn assert_served(rt: &impl Abort, replies: &[Reply]) {
    assert!(rt; replies.len() == 2 * PAIRS);
    for reply in replies {
        assert!(rt; parts_of(rt, reply).0 == Status::Success);
    }
}

/// Makes pairs of calls on a core.
fn assert_pairs(rt: &(impl AllocGlobal + Abort), core: &mut Core<TableDriver>) {
    let mut calls = Vec::new(rt.alloc());
    push_pairs(rt, &mut calls);
    let replies = replies_of(rt, core, calls.as_slice());
    assert_served(rt, replies.as_slice());
}

/// Makes the calls on a core with these pages, or the pairs.
fn assert_list(rt: &(impl AllocGlobal + Abort), free: &[Free], has_pairs: bool) {
    let mut core = core_of(rt, free);
    if has_pairs {
        assert_pairs(rt, &mut core);
    } else {
        assert_calls(rt, &mut core);
    }
}

#[test]
fn replies_in_order(rt: HostRuntime) {
    assert_list(&rt, &MACHINE, false);
}

#[test]
fn many_calls(rt: HostRuntime) {
    assert_list(&rt, &[(0, PAGE_COUNT)], true);
}
