//! A trace, run.
ghost use Rattle.std.specs.Prelude.{◌≡◌, [], OnOk, IfErr, string_bytes};
ghost use Rattle.trace_lines.specs.TraceLine.{line_of};
ghost use Rattle.boot_trace.specs.TraceRuns.{CoreEnds, CorePrints, CoreStopsAt, asking};

use crate::listings::print_list;
use boot_core::{Call, Core, Services, map_before};
use driver_connect::Driver;
use reply_texts::print_call;
use std::alloc::Allocator;
use std::io::{BufReader, Read, Write};
use text_lines::{LineFault, next_byte, next_line, write_text};
use trace_lines::{RunFault, TraceCall, TraceFault, read_call};

/// The most lines of a trace.
pub const MAX_LINES: u64 = 1_000_000;

/// Makes the calls of a trace, and writes the reply to each before the next line is read; with
/// `certify`, the block of a reply's certificate after it.
pub fn run<D: Driver, A: Allocator + Copy, R: Read + Drop, W: Write>(
    alloc: A,
    core: &mut Core<D, A>,
    reader: R,
    writer: &mut W,
    certify: bool,
) -> Result<(), RunFault>
    ensures ends { CoreEnds A D.meaning certify (R.remaining reader) core.old core.new
        (W.contents writer.old) (W.contents writer.new) result }
    ensures given { core.new.given ≡ core.old.given }
{
    run_services(alloc, &mut core.services, reader, writer, certify)
}

/// The same, of the core's services.
fn run_services<D: Driver, A: Allocator + Copy, R: Read + Drop, W: Write>(
    alloc: A,
    services: &mut Services<D, A>,
    reader: R,
    writer: &mut W,
    certify: bool,
) -> Result<(), RunFault>
    ensures ends { CoreEnds A D.meaning certify (R.remaining reader) services.old services.new
        (W.contents writer.old) (W.contents writer.new) result }
    ensures given { services.new.given ≡ services.old.given }
{
    let Ok(mut reader) = BufReader::new(alloc, reader) else {
        return Err(RunFault::OutOfMemory);
    };
    let mut line = Vec::new(alloc);
    let mut text = String::new(alloc);
    for done in 0..MAX_LINES {
        match next_line(&mut reader, &mut line) {
            Ok(true) => {}
            Ok(false) => return Ok(()),
            Err(LineFault::Read) => return Err(RunFault::Read),
            Err(LineFault::OutOfMemory) => return Err(RunFault::OutOfMemory),
        }
        text.clear();
        match run_line(
            alloc,
            services,
            done + 1,
            line.as_slice(),
            certify,
            &mut text,
        ) {
            Ok(()) => {}
            Err(fault) => return Err(fault),
        }
        match write_text(writer, text.as_bytes()) {
            Ok(()) => {}
            Err(_) => return Err(RunFault::Write),
        }
    }
    match next_byte(&mut reader) {
        Ok(None) => Ok(()),
        Ok(Some(_)) => Err(RunFault::TooManyLines),
        Err(_) => Err(RunFault::Read),
    }
}

/// Makes the call that a line asks for, if it asks for one, and appends what is printed of it.
pub fn run_line<D: Driver, A: Allocator + Copy>(
    alloc: A,
    services: &mut Services<D, A>,
    number: u64,
    line: &[u8],
    certify: bool,
    text: &mut String<A>,
) -> Result<(), RunFault>
    requires { string_bytes text.old ≡ [] }
    ensures ok { OnOk result
        (CorePrints A D.meaning certify number (line_of line.now) services.old
        (string_bytes text.new) services.new) }
    ensures given { services.new.given ≡ services.old.given }
    ensures err { IfErr result (λ fault.
        CoreStopsAt A D.meaning certify fault number (line_of line.now) services.old services.new) }
{
    match read_call(alloc, line) {
        Ok(None) => Ok(()),
        Ok(Some(TraceCall::List)) => match print_list(text, number, services) {
            Ok(()) => Ok(()),
            Err(_) => Err(RunFault::OutOfMemory),
        },
        Ok(Some(TraceCall::Service(call))) => make_call(
            alloc, services, number, &call, certify, text,
        ),
        Err(TraceFault::OutOfMemory) => Err(RunFault::OutOfMemory),
        Err(fault) => Err(RunFault::Line { number, fault }),
    }
}

/// Makes a call, and appends what is printed of it.
fn make_call<D: Driver, A: Allocator + Copy>(
    alloc: A,
    services: &mut Services<D, A>,
    number: u64,
    call: &Call<A>,
    certify: bool,
    text: &mut String<A>,
) -> Result<(), RunFault>
    requires { string_bytes text.old ≡ [] }
    ensures ok { OnOk result
        (CorePrints A D.meaning certify number (asking call.now) services.old
        (string_bytes text.new) services.new) }
    ensures given { services.new.given ≡ services.old.given }
    ensures err { IfErr result (λ fault.
        CoreStopsAt A D.meaning certify fault number (asking call.now) services.old services.new) }
{
    if services.calls_left() == 0 {
        return Err(RunFault::NoCallsLeft);
    }
    let granule = services.granule();
    let Ok(before) = map_before(alloc, services, call, certify) else {
        return Err(RunFault::OutOfMemory);
    };
    let reply = services.call(call);
    match print_call(alloc, text, number, granule, &before, call, &reply) {
        Ok(()) => Ok(()),
        Err(_) => Err(RunFault::OutOfMemory),
    }
}
