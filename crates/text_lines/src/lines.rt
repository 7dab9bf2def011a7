//! Lines, read one at a time.
ghost use Rattle.std.specs.Prelude.{◌≡◌, IfOk};
ghost use Rattle.std.specs.Io.BufRead.{strip_last};
ghost use Rattle.std.specs.Io.Buffered.{reader_remaining};
ghost use Rattle.text_lines.specs.Lines.{ReadsLine, TakesByte};

use crate::sources::ByteSource;
use std::alloc::Allocator;
use std::io::{self, BufRead, BufReader, Read};

/// The most bytes of a line, without its line feed.
pub const MAX_LINE_LENGTH: usize = 65_536;

/// The most bytes that are taken of a line that is too long.
const MAX_FRONT_LENGTH: usize = MAX_LINE_LENGTH + 1;

/// Why a line was not read.
#[derive(Clone, Copy, Debug, PartialEq, Eq)]
pub enum LineFault {
    Read,
    OutOfMemory,
}

/// The next byte, None at the end.
pub fn next_byte<R: Read, A: Allocator>(reader: &mut BufReader<R, A>) -> io::Result<Option<u8>>
    ensures { IfOk result
        (λ next. TakesByte (reader_remaining R.remaining reader.old) next
        (reader_remaining R.remaining reader.new)) }
{
    let next = reader.fill_buf()?.first().copied();
    if next.is_some() {
        reader.consume(1);
    }
    Ok(next)
}

/// Replaces `line` by the next line, without its line feed, and returns whether there was
/// one. Of a line that is longer than [`MAX_LINE_LENGTH`], reading stops one byte past that limit.
pub fn next_line<S: ByteSource, A: Allocator>(
    reader: &mut S,
    line: &mut Vec<u8, A>,
) -> Result<bool, LineFault>
    ensures { ReadsLine S.can_fail (S.left reader.old) result line.new.items (S.left reader.new) }
{
    line.clear();
    for _taken in 0..MAX_FRONT_LENGTH {
        match reader.take_byte() {
            Ok(None) => return Ok(!line.is_empty()),
            Ok(Some(b'\n')) => return Ok(true),
            Ok(Some(byte)) => {
                if line.push(byte).is_err() {
                    return Err(LineFault::OutOfMemory);
                }
            }
            Err(_) => return Err(LineFault::Read),
        }
    }
    Ok(true)
}

/// The line without one carriage return at its end.
pub fn without_carriage_return(line: &[u8]) -> &[u8]
    ensures { result.now ≡ strip_last 13 line.now }
{
    match line {
        [front @ .., b'\r'] => front,
        _ => line,
    }
}
