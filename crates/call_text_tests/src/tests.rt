//! Lines that are read as calls, calls that are printed, and the text of a fault.
use boot_calls::Call;
use call_texts::{CallTrace, line_for};
use std::fmt::Write;
use std::process::Abort;
use trace_lines::{RunFault, TraceCall, read_call};

/// A line of each verb that makes a call, as it is printed.
const LINES: [&str; 26] = [
    "pages 0 4 10 0x0",
    "free-pages 0x7f6000 10",
    "map 16777216",
    "pool 4 24",
    "free-pool 0x7ff008",
    "read 0x7ff008 65536",
    "write 0x7ff008 -",
    "write 0x7ff008 00a5ff",
    "install 0 09576e91-6d3f-11d2-8e39-00a0c969723b 0 0xffffffffffffffff",
    "install-many 3 09576e91-6d3f-11d2-8e39-00a0c969723b 0x10 5b1b31a1-9562-11d2-8e3f-00a0c969723b 0x0",
    "uninstall 3 5b1b31a1-9562-11d2-8e3f-00a0c969723b 0x20",
    "reinstall 3 5b1b31a1-9562-11d2-8e3f-00a0c969723b 0x20 0x30",
    "notify 5b1b31a1-9562-11d2-8e3f-00a0c969723b 77",
    "locate 2 5b1b31a1-9562-11d2-8e3f-00a0c969723b 0 64",
    "locate-buffer 2 5b1b31a1-9562-11d2-8e3f-00a0c969723b 1",
    "locate-protocol 5b1b31a1-9562-11d2-8e3f-00a0c969723b 1",
    "protocols 18446744073709551615",
    "open 3 5b1b31a1-9562-11d2-8e3f-00a0c969723b 4 5 4294967295",
    "close 3 5b1b31a1-9562-11d2-8e3f-00a0c969723b 4 5",
    "information 3 5b1b31a1-9562-11d2-8e3f-00a0c969723b",
    "handle-protocol 3 5b1b31a1-9562-11d2-8e3f-00a0c969723b",
    "connect 3 1",
    "connect 3 0 8 9",
    "disconnect 3 8",
    "path 09576e91-6d3f-11d2-8e39-00a0c969723b 0x7ff008",
    "exit 12",
];

/// Whether a line is read as a call that is printed as this line.
fn is_printed_again(rt: &(impl AllocGlobal + Abort), line: &str) -> bool {
    let Ok(Some(TraceCall::Service(call))) = read_call(rt.alloc(), line.as_bytes()) else {
        return false;
    };
    let printed = line_for(rt.alloc(), &call).expect(rt, "memory");
    match printed {
        Some(text) => text.as_str().strip_suffix("\n") == Some(line),
        None => false,
    }
}

#[test]
fn each_line_is_printed_again(rt: HostRuntime) {
    for line in LINES {
        assert!(rt; is_printed_again(&rt, line));
    }
}

/// Whether no line asks for a call, and none is kept of those made with it.
fn has_no_line(rt: &(impl AllocGlobal + Abort), call: &Call) -> bool {
    let trace = CallTrace::Nothing.with_line(rt.alloc(), call);
    matches!(trace, CallTrace::NoLine)
}

#[test]
fn larger_numbers_than_a_line_may_have_are_not_printed(rt: HostRuntime) {
    let map = Call::GetMemoryMap { size: 16_777_217 };
    assert!(rt; has_no_line(&rt, &map));
    let read = Call::PoolRead {
        address: 0,
        size: 65_537,
    };
    assert!(rt; has_no_line(&rt, &read));
}

#[test]
fn lines_are_kept_in_order(rt: HostRuntime) {
    let exit = Call::ExitBootServices { key: 12 };
    let free = Call::FreePool { address: 4104 };
    let first = CallTrace::Nothing.with_line(rt.alloc(), &exit);
    let CallTrace::Lines(lines) = first.with_line(rt.alloc(), &free) else {
        panic!(rt; "memory");
    };
    assert!(rt; lines.as_str() == "exit 12\nfree-pool 0x1008\n");
}

/// The text of a fault that no trace is long enough for. Those of all other faults are in stored runs.
#[test]
fn no_calls_left(rt: HostRuntime) {
    let mut text = String::new(rt.alloc());
    let fault = RunFault::NoCallsLeft;
    assert!(rt; write!(text, "{fault}").is_ok());
    assert!(rt; text.as_str() == "trace: no calls left");
}
