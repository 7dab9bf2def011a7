//! The lines of replies of the protocol services.
ghost use Rattle.std.specs.Prelude.{Ok};
ghost use Rattle.reply_texts.specs.PrintedText.{Prints, events_field, guids_field, handles_fields, installed_fields, interface_field, located_line, opened_line, path_fields, pool_list_fields, protocol_text, registration_field, returned_line};

use crate::list_texts::{print_events, print_guids, print_numbers};
use crate::replies::{print_result, print_size, print_status};
use boot_calls::{Installed, LocateReply};
use boot_replies::{PoolList, Reply};
use page_ranges::Status;
use std::alloc::{AllocError, Allocator};
use trace_verbs::Verb;
use uuid::Uuid;

/// Appends the line of a reply of the protocol services, and of another reply nothing.
pub(crate) fn print_protocols<A: Allocator>(
    text: &mut String<A>,
    number: u64,
    reply: &Reply<A>,
) -> Result<(), AllocError>
    ensures { Prints result text.old text.new (protocol_text number reply.now) }
{
    match reply {
        Reply::InstallProtocolInterface(result) => {
            print_installed(text, number, Verb::Install, result)
        }
        Reply::InstallMultipleProtocolInterfaces(result) => {
            print_installed(text, number, Verb::InstallMany, result)
        }
        Reply::UninstallProtocolInterface(result) => {
            print_result(text, number, Verb::Uninstall, *result)
        }
        Reply::ReinstallProtocolInterface(result) => {
            print_signaled(text, number, Verb::Reinstall, result)
        }
        Reply::RegisterProtocolNotify(result) => print_registration(text, number, *result),
        Reply::LocateHandle(returned) => print_located(text, number, returned),
        Reply::LocateHandleBuffer(result) => {
            print_pool_list(text, number, Verb::LocateBuffer, result)
        }
        Reply::LocateProtocol(result) => {
            print_interface(text, number, Verb::LocateProtocol, *result)
        }
        Reply::ProtocolsPerHandle(result) => print_protocols_on(text, number, result),
        Reply::OpenProtocol(result) => print_opened(text, number, *result),
        Reply::CloseProtocol(result) => print_result(text, number, Verb::Close, *result),
        Reply::OpenProtocolInformation(result) => {
            print_pool_list(text, number, Verb::Information, result)
        }
        Reply::HandleProtocol(result) => {
            print_interface(text, number, Verb::HandleProtocol, *result)
        }
        Reply::ConnectController(result) => { print_signaled(text, number, Verb::Connect, result) }
        Reply::DisconnectController(result) => {
            print_result(text, number, Verb::Disconnect, *result)
        }
        Reply::LocateDevicePath(result) => print_path(text, number, *result),
        _ => Ok(()),
    }
}

/// Appends the line of an installation.
fn print_installed<A: Allocator>(
    text: &mut String<A>,
    number: u64,
    verb: Verb,
    done: &Result<Installed<A>, Status>,
) -> Result<(), AllocError>
    ensures { Prints result text.old text.new
        (returned_line installed_fields number verb done.now) }
{
    match done {
        Ok(returned) => {
            let verb = verb.name();
            let handle = returned.handle;
            write!(text, "{number} {verb} SUCCESS handle={handle} events=")?;
            print_events(text, returned.events.as_slice())?;
            writeln!(text)
        }
        Err(status) => print_status(text, number, verb, *status),
    }
}

/// Appends the line of a call that returns the events that are signaled.
fn print_signaled<A: Allocator>(
    text: &mut String<A>,
    number: u64,
    verb: Verb,
    done: &Result<Vec<u64, A>, Status>,
) -> Result<(), AllocError>
    ensures { Prints result text.old text.new (returned_line events_field number verb done.now) }
{
    match done {
        Ok(events) => {
            let verb = verb.name();
            write!(text, "{number} {verb} SUCCESS events=")?;
            print_events(text, events.as_slice())?;
            writeln!(text)
        }
        Err(status) => print_status(text, number, verb, *status),
    }
}

/// Appends the line of a list in a pool block.
fn print_pool_list<A: Allocator>(
    text: &mut String<A>,
    number: u64,
    verb: Verb,
    done: &Result<PoolList<A>, Status>,
) -> Result<(), AllocError>
    ensures { Prints result text.old text.new
        (returned_line pool_list_fields number verb done.now) }
{
    match done {
        Ok(returned) => {
            let verb = verb.name();
            let count = returned.count;
            let address = returned.address;
            writeln!(
                text,
                "{number} {verb} SUCCESS count={count} address=0x{address:x}"
            )
        }
        Err(status) => print_status(text, number, verb, *status),
    }
}

/// Appends the line of a call that returns the value of an interface.
fn print_interface<A: Allocator>(
    text: &mut String<A>,
    number: u64,
    verb: Verb,
    done: Result<u64, Status>,
) -> Result<(), AllocError>
    ensures { Prints result text.old text.new (returned_line interface_field number verb done) }
{
    match done {
        Ok(value) => {
            let verb = verb.name();
            writeln!(text, "{number} {verb} SUCCESS interface=0x{value:x}")
        }
        Err(status) => print_status(text, number, verb, status),
    }
}

/// Appends the line of an open, which may have no interface.
fn print_opened<A: Allocator>(
    text: &mut String<A>,
    number: u64,
    done: Result<Option<u64>, Status>,
) -> Result<(), AllocError>
    ensures { Prints result text.old text.new (opened_line number done) }
{
    match done {
        Ok(Some(value)) => print_interface(text, number, Verb::Open, Ok(value)),
        Ok(None) => print_status(text, number, Verb::Open, Status::Success),
        Err(status) => print_status(text, number, Verb::Open, status),
    }
}

/// Appends the line of a registration.
fn print_registration<A: Allocator>(
    text: &mut String<A>,
    number: u64,
    done: Result<u64, Status>,
) -> Result<(), AllocError>
    ensures { Prints result text.old text.new
        (returned_line registration_field number Verb.Notify done) }
{
    match done {
        Ok(key) => {
            let verb = Verb::Notify.name();
            writeln!(text, "{number} {verb} SUCCESS registration={key}")
        }
        Err(status) => print_status(text, number, Verb::Notify, status),
    }
}

/// Appends the line of the GUIDs on a handle.
fn print_protocols_on<A: Allocator>(
    text: &mut String<A>,
    number: u64,
    done: &Result<Vec<Uuid, A>, Status>,
) -> Result<(), AllocError>
    ensures { Prints result text.old text.new
        (returned_line guids_field number Verb.Protocols done.now) }
{
    match done {
        Ok(guids) => {
            let verb = Verb::Protocols.name();
            write!(text, "{number} {verb} SUCCESS guids=")?;
            print_guids(text, guids.as_slice())?;
            writeln!(text)
        }
        Err(status) => print_status(text, number, Verb::Protocols, *status),
    }
}

/// Appends the line of a handle that a device path leads to.
fn print_path<A: Allocator>(
    text: &mut String<A>,
    number: u64,
    done: Result<(u64, u64), Status>,
) -> Result<(), AllocError>
    ensures { Prints result text.old text.new (returned_line path_fields number Verb.Path done) }
{
    match done {
        Ok((handle, address)) => {
            let verb = Verb::Path.name();
            writeln!(
                text,
                "{number} {verb} SUCCESS handle={handle} address=0x{address:x}"
            )
        }
        Err(status) => print_status(text, number, Verb::Path, status),
    }
}

/// Appends the line of a search that found handles.
fn print_handles<A: Allocator>(
    text: &mut String<A>,
    number: u64,
    verb: Verb,
    returned: &LocateReply<A>,
) -> Result<(), AllocError>
    ensures { Prints result text.old text.new
        (returned_line handles_fields number verb (Ok returned.now)) }
{
    let verb = verb.name();
    let size = returned.size;
    write!(text, "{number} {verb} SUCCESS size={size} handles=")?;
    print_numbers(text, returned.handles.as_slice())?;
    writeln!(text)
}

/// Appends the line of a search for handles.
fn print_located<A: Allocator>(
    text: &mut String<A>,
    number: u64,
    returned: &LocateReply<A>,
) -> Result<(), AllocError>
    ensures { Prints result text.old text.new
        (located_line number returned.now returned.now.status) }
{
    match returned.status {
        Status::Success => print_handles(text, number, Verb::Locate, returned),
        Status::BufferTooSmall => print_size(text, number, Verb::Locate, returned.size),
        status => print_status(text, number, Verb::Locate, status),
    }
}
