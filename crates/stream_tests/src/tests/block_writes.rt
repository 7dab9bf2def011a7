//! A read, a write or a flush of a check that fails is reported, and not tried again.
use super::{BLOCK, NEVER, Sink, Source, sink_of};
use boot_trace::{BlockFault, check_block};
use std::process::Abort;

/// What a check writes.
const VERDICT: &[u8] = b"accepted\n";

/// Checks the block over a source and a sink.
fn checked(rt: &impl AllocGlobal, reads: u64, sink: &mut Sink) -> Result<bool, BlockFault> {
    let source = Source {
        bytes: BLOCK,
        reads,
    };
    check_block(rt.alloc(), source, sink)
}

/// Each read of a block, the one that finds its end too: nothing is written.
#[test]
fn block_read_fails(rt: HostRuntime) {
    for reads in 0..=BLOCK.len() as u64 {
        let mut sink = sink_of(&rt, NEVER, NEVER, false);
        assert!(rt; checked(&rt, reads, &mut sink) == Err(BlockFault::Read));
        assert!(rt; sink.taken.is_empty());
    }
}

/// Asserts that a check stops after a number of writes or flushes, with these bytes written.
fn assert_stops(
    rt: &(impl AllocGlobal + Abort),
    writes: u64,
    flushes: u64,
    takes_none: bool,
    written: &[u8],
) {
    let mut sink = sink_of(rt, writes, flushes, takes_none);
    assert!(rt; checked(rt, NEVER, &mut sink) == Err(BlockFault::Write));
    assert!(rt; sink.taken.as_slice() == written);
}

/// The verdict takes two writes of five bytes at most, and a flush.
#[test]
fn block_write_fails(rt: HostRuntime) {
    let mut sink = sink_of(&rt, NEVER, NEVER, false);
    assert!(rt; checked(&rt, NEVER, &mut sink) == Ok(true));
    assert!(rt; sink.taken.as_slice() == VERDICT);
    assert!(rt; sink.writes == NEVER - 2 && sink.flushes == NEVER - 1);
    for takes_none in [false, true] {
        assert_stops(&rt, 0, NEVER, takes_none, b"");
        assert_stops(&rt, 1, NEVER, takes_none, b"accep");
    }
    assert_stops(&rt, NEVER, 0, false, VERDICT);
}
