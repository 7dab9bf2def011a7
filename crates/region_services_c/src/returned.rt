//! What C asks of a core beside the services.
ghost use Rattle.std.specs.Prelude.{◌≡◌, length};
ghost use Rattle.page_ranges.specs.MemoryMap.{memory_map};
ghost use Rattle.c_interface.specs.Buffers.{front_filled};
ghost use Rattle.c_interface.specs.Checks.{ReturnsEntry};
ghost use Rattle.c_interface.specs.EfiCores.{certifying_core, recording_core};
ghost use Rattle.c_interface.specs.Items.{map_entry};
ghost use Rattle.c_interface.specs.ReplyLines.{ReturnsReply};
ghost use Rattle.c_interface.specs.Served.{ReturnsBlock};
ghost use Rattle.c_interface.specs.Versions.{version};

use crate::handle::Rafkudin;
use c_interface::{MapEntry, VERSION};

/// The version of the library: the major number in the bits from 16 on, the minor one in those from 8 on.
#[unsafe(no_mangle)]
pub extern "C" fn RafkudinVersion() -> u32
    ensures { result ≡ version }
{
    VERSION
}

/// Makes and keeps the certificates of placements from now on, or makes none.
#[unsafe(no_mangle)]
pub extern "C" fn RafkudinCertify(core: &mut Rafkudin, certify: bool)
    ensures { core.new.core ≡ certifying_core certify core.old.core }
{
    core.held().certify(certify);
}

/// Keeps the reply of each service from now on, for `RafkudinReplyLine`, or keeps none, as at first.
#[unsafe(no_mangle)]
pub extern "C" fn RafkudinRecord(core: &mut Rafkudin, keep: bool)
    ensures { core.new.core ≡ recording_core keep core.old.core }
{
    core.held().record(keep);
}

/// The block of the certificate of the last service that was called, in the front of `text`; the variable `length`
/// receives its number of bytes.
///
/// NOT_FOUND: there is none. BUFFER_TOO_SMALL: the variable receives the number of bytes needed. OUT_OF_RESOURCES:
/// memory ran out for it.
#[unsafe(no_mangle)]
pub extern "C" fn RafkudinCertificate(core: &mut Rafkudin, text: &mut [u8], length: &mut u64) -> u64
    ensures returned { ReturnsBlock core.old.core.block text.old length.old result text.new
        length.new }
    ensures kept { core.new.core ≡ core.old.core }
{
    core.held().block(text, length)
}

/// What the program `bootcore` prints of the last service that was called, where the service's line has this number, in
/// the front of `text`; the variable `length` receives its number of bytes.
///
/// NOT_FOUND: it left no reply, as none does where replies are not kept. BUFFER_TOO_SMALL: the variable receives the number of bytes needed. OUT_OF_RESOURCES:
/// memory ran out.
#[unsafe(no_mangle)]
pub extern "C" fn RafkudinReplyLine(
    core: &mut Rafkudin,
    number: u64,
    text: &mut [u8],
    length: &mut u64,
) -> u64
    ensures line { ReturnsReply core.old.core number text.old length.old result text.new
        length.new }
    ensures kept { core.new.core ≡ core.old.core }
{
    core.held().reply_line(number, text, length)
}

/// How many events the last service that was called signals; the first of them are copied into `events`, as many as it
/// has room for.
#[unsafe(no_mangle)]
pub extern "C" fn RafkudinEvents(core: &mut Rafkudin, events: &mut [u64]) -> usize
    ensures count { result ≡ length (core.old.core.last.events) }
    ensures events { events.new ≡ front_filled (core.old.core.last.events) events.old }
    ensures kept { core.new.core ≡ core.old.core }
{
    core.held().events(events)
}

/// How many entries the memory map has.
#[unsafe(no_mangle)]
pub extern "C" fn RafkudinDescriptors(core: &mut Rafkudin) -> usize
    ensures count { result ≡ length (memory_map core.old.core.core.state.parts.book.memory) }
    ensures kept { core.new.core ≡ core.old.core }
{
    core.held().descriptors()
}

/// The entry of the memory map at an index, by ascending address.
///
/// NOT_FOUND: there is none.
#[unsafe(no_mangle)]
pub extern "C" fn RafkudinDescriptor(core: &mut Rafkudin, index: usize, entry: &mut MapEntry) -> u64
    ensures returned { ReturnsEntry
        (map_entry core.old.core index) entry.old result
        entry.new }
    ensures kept { core.new.core ≡ core.old.core }
{
    core.held().descriptor(index, entry)
}

/// How many calls of services may still be made: 2^62 - 1 at first.
#[unsafe(no_mangle)]
pub extern "C" fn RafkudinCallsLeft(core: &mut Rafkudin) -> u64
    ensures count { result ≡ core.old.core.core.state.calls_left }
    ensures kept { core.new.core ≡ core.old.core }
{
    core.held().calls_left()
}
