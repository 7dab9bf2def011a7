//! Text, written.
ghost use Rattle.std.specs.Prelude.{OnErr, OnOk};
ghost use Rattle.std.specs.Io.KnownBytes.{Appends};
ghost use Rattle.text_lines.specs.Printed.{WritesFront};

use std::io::{Error, ErrorKind, Result, Write};

/// Writes all the bytes and flushes them, if there are any.
///
/// An `Err` of the writer ends it, an interrupted write too, and so does a write that takes no byte;
/// some bytes from the front on have then been written. The contract states what is written; that a
/// failed write is not tried again, and that the text is flushed, is for tests to show.
pub fn write_text<W: Write>(writer: &mut W, bytes: &[u8]) -> Result<()>
    ensures ok { OnOk result (Appends (W.contents writer.old) (W.contents writer.new) bytes.now) }
    ensures err { OnErr result
        (WritesFront (W.contents writer.old) bytes.now (W.contents writer.new)) }
{
    let mut written = 0;
    while written < bytes.len() {
        match writer.write(&bytes[written..]) {
            Ok(0) => return Err(Error::from(ErrorKind::WriteZero)),
            Ok(taken) => written += taken,
            Err(error) => return Err(error),
        }
    }
    if written == 0 {
        return Ok(());
    }
    writer.flush()
}
