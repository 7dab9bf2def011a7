//! A trace that asks for more calls than its core has left.
use super::heaps::{core_on, printed, run_on};
use boot_trace::RunFault;
use refusing_memory::Refusing;
use std::process::Abort;

/// Four calls, and two lines that ask for none.
const LINES: [&str; 6] = [
    "list\n",
    "pages 2 4 2 0x20000\n",
    "pool 4 24\n",
    "list\n",
    "install 0 11111111-1111-1111-1111-111111111111 0 0x10\n",
    "pages 0 4 1 0\n",
];

/// How many of these lines a core runs that has 0, 1, 2 and 3 calls left.
const RUN: [usize; 4] = [1, 2, 4, 5];

/// How many calls a core serves that is not made for C.
const CALLS: u64 = 0x8000_0000;

/// The first of these lines.
fn front_of(rt: &(impl AllocGlobal + Abort), count: usize) -> String {
    let mut text = String::new(rt.alloc());
    for line in LINES.get(..count).unwrap_or(&LINES) {
        text.push_str(line).expect(rt, "memory");
    }
    text
}

/// How the run of the first lines ends on a core with `calls` calls left, all of which it makes; what it prints; and what
/// `list` prints then.
fn ended(
    rt: &(impl AllocGlobal + Abort),
    calls: u64,
    count: usize,
) -> (Result<(), RunFault>, u64, u64) {
    let heap = Refusing::new(rt.alloc());
    let mut core = core_on(rt, &heap);
    assert!(rt; core.calls_left() == CALLS);
    assert!(rt; calls <= core.calls_left());
    core.services.leave_calls(calls);
    let lines = front_of(rt, count);
    let (end, text) = run_on(&heap, &mut core, lines.as_str());
    assert!(rt; core.calls_left() == 0);
    (end, text, printed(rt, &heap, &mut core, "list"))
}

/// Asserts that a core with `calls` calls left runs `count` lines. The next line asks for a call that is one too many: it
/// ends the run, prints nothing and changes nothing.
fn assert_ends(rt: &(impl AllocGlobal + Abort), calls: u64, count: usize) {
    let (end, text, map) = ended(rt, calls, LINES.len());
    let (front_end, front_text, front_map) = ended(rt, calls, count);
    assert!(rt; end == Err(RunFault::NoCallsLeft) && front_end.is_ok());
    assert!(rt; text == front_text && map == front_map);
}

#[test]
fn runs_up_to_the_last_call(rt: HostRuntime) {
    for (calls, count) in RUN.iter().enumerate() {
        assert_ends(&rt, calls as u64, *count);
    }
}
