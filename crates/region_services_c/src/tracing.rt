//! The line of a trace that asks for a call, and what the program prints of calls whose reply the caller passes. No
//! service is called, and no call is used up.
ghost use Rattle.std.specs.Prelude.{◌≡◌};
ghost use Rattle.c_interface.specs.BufferReplies.{PrintsMap, PrintsRead};
ghost use Rattle.c_interface.specs.CallLines.{ReturnsLine};

use crate::handle::Rafkudin;
use c_interface::{CallFields, MapFields, ReadFields};

/// The line of a trace that asks for a call, with its line feed, in the front of `text`; the variable `size` receives
/// its number of bytes.
///
/// INVALID_PARAMETER: no service has the number. NOT_FOUND: no line can ask for the call. BUFFER_TOO_SMALL: the
/// variable receives the number of bytes needed. OUT_OF_RESOURCES: memory ran out.
#[unsafe(no_mangle)]
pub extern "C" fn RafkudinTraceLine(
    core: &mut Rafkudin,
    call: &CallFields<'_>,
    text: &mut [u8],
    size: &mut u64,
) -> u64
    ensures line { ReturnsLine core.old.core call.now text.old size.old result text.new size.new }
    ensures kept { core.new.core ≡ core.old.core }
{
    core.held().trace_line(call, text, size)
}

/// What the program `bootcore` prints of a GetMemoryMap that returned this, in the front of `text`; the variable `size`
/// receives its number of bytes.
///
/// INVALID_PARAMETER: no service returns the status. BUFFER_TOO_SMALL: the variable receives the number of bytes
/// needed. OUT_OF_RESOURCES: memory ran out.
#[unsafe(no_mangle)]
pub extern "C" fn RafkudinMapReplyLine(
    core: &mut Rafkudin,
    reply: &MapFields<'_>,
    text: &mut [u8],
    size: &mut u64,
) -> u64
    ensures line { PrintsMap core.old.core reply.now text.old size.old result text.new size.new }
    ensures kept { core.new.core ≡ core.old.core }
{
    core.held().map_reply_line(reply, text, size)
}

/// The same of a PoolRead.
#[unsafe(no_mangle)]
pub extern "C" fn RafkudinReadReplyLine(
    core: &mut Rafkudin,
    reply: &ReadFields<'_>,
    text: &mut [u8],
    size: &mut u64,
) -> u64
    ensures line { PrintsRead core.old.core reply.now text.old size.old result text.new size.new }
    ensures kept { core.new.core ≡ core.old.core }
{
    core.held().read_reply_line(reply, text, size)
}
