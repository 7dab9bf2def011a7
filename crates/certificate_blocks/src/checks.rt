//! The check of a certificate block.
ghost use Rattle.std.specs.Prelude.{true, IfErr, OnOk};
ghost use Rattle.certificate_blocks.specs.BlockChecks.{FailsToWrite, JudgesKnown, Writes, WritesVerdict};

use crate::faults::BlockFault;
use crate::reader::read_block;
use placement_certificate::check;
use std::alloc::Allocator;
use std::io::{BufReader, Read, Write};
use text_lines::{ByteSource, write_text};

/// Reads one certificate block, and writes `accepted` or `refused`: whether the certificate is true
/// for the map and the request. A block that is not well-formed is a fault with its first line that
/// is wrong or missing, unless memory runs out or a read fails. On a fault nothing is written, but
/// for a write that fails.
pub fn check_block<A: Allocator + Copy, R: Read + Drop, W: Write>(
    alloc: A,
    reader: R,
    writer: &mut W,
) -> Result<bool, BlockFault>
    ensures judged { JudgesKnown true (R.remaining reader) W.contents writer.old writer.new result }
    ensures written { Writes (W.contents writer.old) (W.contents writer.new) result }
{
    match BufReader::new(alloc, reader) {
        Ok(reader) => judge_block(alloc, reader, writer),
        Err(_) => Err(BlockFault::OutOfMemory),
    }
}

/// As [`check_block`], of a source of bytes. Where it cannot fail, there is no read fault.
pub fn judge_block<A: Allocator + Copy, S: ByteSource + Drop, W: Write>(
    alloc: A,
    source: S,
    writer: &mut W,
) -> Result<bool, BlockFault>
    ensures judged { JudgesKnown
        S.can_fail (S.left source) W.contents writer.old writer.new result }
    ensures written { Writes (W.contents writer.old) (W.contents writer.new) result }
{
    let block = match read_block(alloc, source) {
        Ok(block) => block,
        Err(fault) => return Err(fault),
    };
    let accepted = check(block.map.as_slice(), &block.request, &block.certificate);
    match write_verdict(writer, accepted) {
        Ok(()) => Ok(accepted),
        Err(fault) => Err(fault),
    }
}

/// Writes whether a certificate is accepted.
fn write_verdict<W: Write>(writer: &mut W, accepted: bool) -> Result<(), BlockFault>
    ensures ok { OnOk result (WritesVerdict W.contents accepted writer.old writer.new) }
    ensures err { IfErr result (FailsToWrite W.contents accepted writer.old writer.new) }
{
    let text = if accepted { "accepted\n" } else { "refused\n" };
    match write_text(writer, text.as_bytes()) {
        Ok(()) => Ok(()),
        Err(_) => Err(BlockFault::Write),
    }
}
