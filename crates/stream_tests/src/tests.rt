//! Runs and checks over streams.
mod block_writes;
mod heaps;
mod last_calls;
mod left_states;
mod refused_blocks;
mod refused_inputs;
mod reserved_frees;
mod served_calls;

use std::io::{Error, ErrorKind, Read, Result, Write};

/// A block that is accepted.
pub const BLOCK: &[u8] = b"certificate
map 2
7 0 8 0xf
7 8 8 0x7
request 2 12 4503599627370496
bounds 2
0 8 3 4
8 8 none
answer 4
end
";

/// Never: no test makes this many reads, writes or flushes.
pub const NEVER: u64 = 0xffff_ffff;

/// A reader that gives a byte at a time. After the given number of reads one fails, and those after it go on.
#[derive(Drop)]
pub struct Source<'a> {
    pub bytes: &'a [u8],
    pub reads: u64,
}

impl Read for Source<'_> {
    fn read(&mut self, buf: &mut [u8]) -> Result<usize> {
        if is_time(&mut self.reads) {
            return Err(Error::from(ErrorKind::Interrupted));
        }
        let taken = self.bytes.len().min(buf.len()).min(1);
        buf[..taken].copy_from_slice(&self.bytes[..taken]);
        self.bytes = &self.bytes[taken..];
        Ok(taken)
    }
}

/// A writer that takes a few bytes at a time. After the given number of writes one fails, or takes none, and after a number of
/// flushes one fails; those after it go on.
#[derive(Drop)]
pub struct Sink {
    pub taken: Vec<u8>,
    pub writes: u64,
    pub flushes: u64,
    pub takes_none: bool,
}

impl Write for Sink {
    fn write(&mut self, buf: &[u8]) -> Result<usize> {
        if is_time(&mut self.writes) {
            return if self.takes_none {
                Ok(0)
            } else {
                Err(Error::from(ErrorKind::Interrupted))
            };
        }
        let taken = buf.len().min(5);
        self.taken.extend_from_slice(&buf[..taken])?;
        Ok(taken)
    }

    fn flush(&mut self) -> Result<()> {
        if is_time(&mut self.flushes) {
            Err(Error::from(ErrorKind::Interrupted))
        } else {
            Ok(())
        }
    }
}

/// Counts down, and returns whether the count was at 0. It stays away from 0 then.
fn is_time(left: &mut u64) -> bool {
    let is_time = *left == 0;
    *left = left.wrapping_sub(1);
    is_time
}

/// A writer that fails after the given number of writes or flushes.
pub fn sink_of(rt: &impl AllocGlobal, writes: u64, flushes: u64, takes_none: bool) -> Sink {
    Sink {
        taken: Vec::new(rt.alloc()),
        writes,
        flushes,
        takes_none,
    }
}
