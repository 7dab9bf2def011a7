//! The core after a run that ended by a read, a write or memory: in the state after the lines that were written.
use super::heaps::{core_on, printed};
use super::{NEVER, Source, sink_of};
use boot_core::Core;
use boot_trace::{RunFault, run};
use driver_connect::TableDriver;
use refusing_memory::Refusing;
use std::alloc::Global;
use std::process::Abort;

/// Lines whose calls change what the questions are answered. No line feed follows the last.
const LINES: &[u8] = b"pages 2 4 2 0x9e000
# a comment
pool 4 24
list
install 0 11111111-1111-1111-1111-111111111111 0 0x10
map 1
write 0x7ff008 a5
locate 9 11111111-1111-1111-1111-111111111111 0 0";

/// What is asked after a call: the map and its key, extents and bytes of the pool, handles, interfaces, open items and
/// registrations; then which pages, numbers and keys are given next, and which drivers are started and stopped.
const QUESTIONS: &str = "map 4096
locate 0 11111111-1111-1111-1111-111111111111 0 512
locate 2 11111111-1111-1111-1111-111111111111 0 512
locate 2 22222222-2222-2222-2222-222222222222 0 512
protocols 1
protocols 2
protocols 4
handle-protocol 1 11111111-1111-1111-1111-111111111111
handle-protocol 4 22222222-2222-2222-2222-222222222222
read 0x7ff008 24
read 0x7ff028 25
read 0x7fe008 24
locate 1 11111111-1111-1111-1111-111111111111 1 7
information 1 11111111-1111-1111-1111-111111111111
read 0x7ff008 24
read 0x7ff048 24
locate 1 11111111-1111-1111-1111-111111111111 1 8
locate 1 11111111-1111-1111-1111-111111111111 1 8
locate 1 22222222-2222-2222-2222-222222222222 2 8
pool 4 8
pages 0 4 1 0
list
install 0 11111111-1111-1111-1111-111111111111 0 0x77
install 0 22222222-2222-2222-2222-222222222222 0 0x77
notify 33333333-3333-3333-3333-333333333333 3
connect 1 1
locate 0 11111111-1111-1111-1111-111111111111 0 512
disconnect 1 0
locate 0 11111111-1111-1111-1111-111111111111 0 512
";

/// What the lines print.
const PRINTED: &[u8] = b"1 pages SUCCESS address=0x9e000
3 pool SUCCESS address=0x9d008
4 list descriptors=5
  7 0x0 157 0xf
  4 0x9d000 3 0xf
  7 0x100000 768 0xf
  6 0x400000 16 0x800000000000000f
  7 0x410000 1008 0xf
5 install SUCCESS handle=1 events=-
6 map BUFFER_TOO_SMALL size=240
7 write INVALID_PARAMETER
8 locate INVALID_PARAMETER
";

/// After how many reads, writes and flushes one fails, whether the write takes none instead, and from which allocation on
/// memory is refused to the lines; 0 for none.
#[derive(Clone, Copy)]
struct Failing {
    reads: u64,
    writes: u64,
    flushes: u64,
    takes_none: bool,
    memory: u64,
}

/// All goes well.
const NOTHING: Failing = Failing {
    reads: NEVER,
    writes: NEVER,
    flushes: NEVER,
    takes_none: false,
    memory: 0,
};

/// How a run ended, how many bytes it wrote, and the core that it left: how many calls are left, and what the questions are
/// answered.
#[derive(Clone, Copy)]
struct Left {
    end: Result<(), RunFault>,
    written: usize,
    calls: u64,
    answers: u64,
}

/// What a run leaves on a core.
fn left_on<'a>(
    rt: &(impl AllocGlobal + Abort),
    heap: &'a Refusing<Global>,
    lines_heap: &'a Refusing<Global>,
    core: &mut Core<TableDriver, &'a Refusing<Global>>,
    bytes: &[u8],
    failing: Failing,
) -> Left {
    let source = Source {
        bytes,
        reads: failing.reads,
    };
    let mut sink = sink_of(rt, failing.writes, failing.flushes, failing.takes_none);
    lines_heap.refuse_from(failing.memory);
    let end = run(lines_heap, core, source, &mut sink, false);
    assert!(rt; PRINTED.starts_with(sink.taken.as_slice()));
    Left {
        end,
        written: sink.taken.len(),
        calls: core.calls_left(),
        answers: printed(rt, heap, core, QUESTIONS),
    }
}

fn left_by(rt: &(impl AllocGlobal + Abort), bytes: &[u8], failing: Failing) -> Left {
    let heap = Refusing::new(rt.alloc());
    let lines_heap = Refusing::new(rt.alloc());
    let mut core = core_on(rt, &heap);
    left_on(rt, &heap, &lines_heap, &mut core, bytes, failing)
}

/// The whole lines among the first bytes.
fn front_of(count: usize) -> &'static [u8] {
    let front = LINES.get(..count).unwrap_or(LINES);
    let end = front.iter().rposition(|byte| *byte == b'\n');
    front
        .get(..end.map_or(0, |end| end.saturating_add(1)))
        .unwrap_or(b"")
}

/// What the first lines leave, the fewest that print at least this many bytes.
fn left_with(rt: &(impl AllocGlobal + Abort), least: usize) -> Left {
    for count in 0..=LINES.len() {
        let front = front_of(count);
        if front.len() == count {
            let left = left_by(rt, front, NOTHING);
            if left.written >= least {
                return left;
            }
        }
    }
    left_by(rt, LINES, NOTHING)
}

/// Whether both left the same state.
fn are_alike(left: Left, other: Left) -> bool {
    left.calls == other.calls && left.answers == other.answers
}

/// Each read: the calls of the whole lines before it were made, and no other.
#[test]
fn state_after_read_fails(rt: HostRuntime) {
    for reads in 0..=LINES.len() {
        let failing = Failing {
            reads: reads as u64,
            ..NOTHING
        };
        let left = left_by(&rt, LINES, failing);
        let whole = left_by(&rt, front_of(reads), NOTHING);
        assert!(rt; left.end == Err(RunFault::Read) && left.written == whole.written);
        assert!(rt; are_alike(left, whole));
    }
}

/// Asserts that a run reports that it cannot write, and that it made the calls of the lines that print the bytes that were
/// written and of a number of lines more. Returns whether it can write after all.
fn can_write(rt: &(impl AllocGlobal + Abort), failing: Failing, more: usize) -> bool {
    let left = left_by(rt, LINES, failing);
    if left.end.is_ok() {
        return true;
    }
    assert!(rt; left.end == Err(RunFault::Write));
    let least = left.written.saturating_add(more);
    assert!(rt; are_alike(left, left_with(rt, least)));
    false
}

/// More writes and allocations than a run makes.
const MAX_TRIES: u64 = 1000;

/// Tries each write, which fails or takes none.
fn try_writes(rt: &(impl AllocGlobal + Abort), takes_none: bool) {
    for writes in 0..MAX_TRIES {
        let failing = Failing {
            writes,
            takes_none,
            ..NOTHING
        };
        if can_write(rt, failing, 1) {
            assert!(rt; writes > 50);
            return;
        }
    }
    panic!(rt; "no end");
}

/// Each write: the calls were made of the lines written whole and of the next.
#[test]
fn state_after_write_fails(rt: HostRuntime) {
    try_writes(&rt, false);
    try_writes(&rt, true);
}

/// Each flush: no call was made of the lines behind the one that was written.
#[test]
fn state_after_flush_fails(rt: HostRuntime) {
    for flushes in 0..MAX_TRIES {
        if can_write(&rt, Failing { flushes, ..NOTHING }, 0) {
            assert!(rt; flushes == 7);
            return;
        }
    }
    panic!(rt; "no end");
}

/// Asserts that a run to whose lines memory is refused wrote whole lines, and leaves the state after these or after one
/// more. Returns whether it is refused none.
fn has_memory(rt: &(impl AllocGlobal + Abort), memory: u64) -> bool {
    let left = left_by(rt, LINES, Failing { memory, ..NOTHING });
    if left.end.is_ok() {
        return true;
    }
    assert!(rt; left.end == Err(RunFault::OutOfMemory));
    let returned = left_with(rt, left.written);
    let next = left_with(rt, left.written.saturating_add(1));
    assert!(rt; left.written == returned.written);
    assert!(rt; are_alike(left, returned) || are_alike(left, next));
    false
}

/// Each allocation that is made for the lines and their texts.
#[test]
fn state_after_memory_is_refused(rt: HostRuntime) {
    for memory in 1..MAX_TRIES {
        if has_memory(&rt, memory) {
            assert!(rt; memory > 8);
            return;
        }
    }
    panic!(rt; "no end");
}
