//! Certificate blocks, read line by line.
ghost use Rattle.std.specs.Prelude.{◌≡◌, IfOk, IfErr, IfSome, map};
ghost use Rattle.certificate_blocks.specs.BlockLines.{name_alone, number_after, entry_of_words, request_of, bound_of};
ghost use Rattle.certificate_blocks.specs.Blocks.{next_line, line, times, no_line, block, words_in};
ghost use Rattle.certificate_blocks.specs.BlockReads.{ReadsAll, ReadsBlock, ReadsFrom, ReadsValue, said_by};

use crate::faults::BlockFault;
use crate::line_words::{bound_of, entry_of_words, name_alone, number_after, request_of};
use page_ranges::Descriptor;
use placement_certificate::{Bound, Certificate, Request};
use std::alloc::Allocator;
use text_lines::{
    ByteSource, LineFault, MAX_LINE_LENGTH, next_line, without_carriage_return, words_of,
};

/// The most lines of a block.
const MAX_BLOCK_LINES: u64 = 5_000_000;

/// A certificate block: the map before the call, the request and the certificate.
#[derive(Drop)]
pub struct Block<A: Allocator> {
    pub map: Vec<Descriptor, A>,
    pub request: Request,
    pub certificate: Certificate<A>,
}

/// A block that is being read: its source, its newest line, and the number of the next.
#[derive(Drop)]
pub struct BlockReader<S: Drop, A: Allocator> {
    source: S,
    line: Vec<u8, A>,
    number: u64,
    alloc: A,
}

impl<S: ByteSource + Drop, A: Allocator + Copy> BlockReader<S, A> {
    /// Takes the next line, and returns its number.
    fn next_line(&mut self) -> Result<u64, BlockFault>
        ensures { ReadsFrom S.can_fail S.left next_line
            (λ number. (number, self.new.line.items)) self.old result self.new }
    {
        let number = self.number;
        if number > MAX_BLOCK_LINES {
            return Err(BlockFault::Line { number });
        }
        match next_line(&mut self.source, &mut self.line) {
            Ok(true) => {}
            Ok(false) => return Err(BlockFault::Line { number }),
            Err(LineFault::Read) => return Err(BlockFault::Read),
            Err(LineFault::OutOfMemory) => return Err(BlockFault::OutOfMemory),
        }
        if self.line.len() > MAX_LINE_LENGTH {
            return Err(BlockFault::Line { number });
        }
        self.number = number + 1;
        Ok(number)
    }

    /// The words of the newest line.
    fn words(&self) -> Result<Vec<&[u8], A>, BlockFault>
        ensures ok { IfOk result
            (λ words. map (λ word. word.now) words.items ≡ words_in self.now.line.items) }
        ensures err { IfErr result (λ fault. fault ≡ BlockFault.OutOfMemory) }
    {
        Ok(words_of(self.alloc, without_carriage_return(self.line.as_slice()))?)
    }

    /// Reads `NAME`.
    fn name(&mut self, name: &[u8]) -> Result<(), BlockFault>
        ensures { ReadsValue
            S.can_fail S.left (line (name_alone name.now)) self.old result self.new }
    {
        let number = self.next_line()?;
        let words = self.words()?;
        name_alone(name, words.as_slice()).ok_or(BlockFault::Line { number })
    }

    /// Reads `NAME NUMBER`.
    fn number_after(&mut self, name: &[u8]) -> Result<u64, BlockFault>
        ensures { ReadsValue
            S.can_fail S.left (line (number_after name.now)) self.old result self.new }
    {
        let number = self.next_line()?;
        let words = self.words()?;
        number_after(name, words.as_slice()).ok_or(BlockFault::Line { number })
    }

    /// Reads a map entry.
    fn entry(&mut self) -> Result<Descriptor, BlockFault>
        ensures { ReadsValue S.can_fail S.left (line entry_of_words) self.old result self.new }
    {
        let number = self.next_line()?;
        let words = self.words()?;
        entry_of_words(words.as_slice()).ok_or(BlockFault::Line { number })
    }

    /// Reads the request.
    fn request(&mut self) -> Result<Request, BlockFault>
        ensures { ReadsValue S.can_fail S.left (line request_of) self.old result self.new }
    {
        let number = self.next_line()?;
        let words = self.words()?;
        request_of(words.as_slice()).ok_or(BlockFault::Line { number })
    }

    /// Reads a bound.
    fn bound(&mut self) -> Result<Bound, BlockFault>
        ensures { ReadsValue S.can_fail S.left (line bound_of) self.old result self.new }
    {
        let number = self.next_line()?;
        let words = self.words()?;
        bound_of(words.as_slice()).ok_or(BlockFault::Line { number })
    }

    /// Reads the given number of map entries.
    fn entries(&mut self, count: u64) -> Result<Vec<Descriptor, A>, BlockFault>
        ensures { ReadsAll
            S.can_fail S.left (times count (line entry_of_words)) self.old result self.new }
    {
        let mut entries = Vec::new(self.alloc);
        for _read in 0..count {
            entries.push(self.entry()?)?;
        }
        Ok(entries)
    }

    /// Reads the given number of bounds.
    fn bounds(&mut self, count: u64) -> Result<Vec<Bound, A>, BlockFault>
        ensures { ReadsAll
            S.can_fail S.left (times count (line bound_of)) self.old result self.new }
    {
        let mut bounds = Vec::new(self.alloc);
        for _read in 0..count {
            bounds.push(self.bound()?)?;
        }
        Ok(bounds)
    }

    /// Reads that no line is left.
    fn no_line(&mut self) -> Result<(), BlockFault>
        ensures { ReadsValue S.can_fail S.left no_line self.old result self.new }
    {
        let number = self.number;
        match self.source.take_byte() {
            Ok(None) => Ok(()),
            Ok(Some(_)) => Err(BlockFault::Line { number }),
            Err(_) => Err(BlockFault::Read),
        }
    }

    /// Reads a block.
    fn block(&mut self) -> Result<Block<A>, BlockFault>
        ensures { ReadsFrom S.can_fail S.left block said_by self.old result self.new }
    {
        self.name(b"certificate")?;
        let entry_count = self.number_after(b"map")?;
        let map = self.entries(entry_count)?;
        let request = self.request()?;
        let bound_count = self.number_after(b"bounds")?;
        let bounds = self.bounds(bound_count)?;
        let answer = self.number_after(b"answer")?;
        self.name(b"end")?;
        self.no_line()?;
        Ok(Block {
            map,
            request,
            certificate: Certificate { bounds, answer },
        })
    }
}

/// Reads one block, and that nothing follows it.
pub fn read_block<A: Allocator + Copy, S: ByteSource + Drop>(
    alloc: A,
    source: S,
) -> Result<Block<A>, BlockFault>
    ensures { IfSome (S.left source) (λ bytes. ReadsBlock S.can_fail bytes result) }
{
    let mut lines = BlockReader {
        source,
        line: Vec::new(alloc),
        number: 1,
        alloc,
    };
    lines.block()
}
