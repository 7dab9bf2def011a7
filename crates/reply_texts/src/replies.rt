//! The lines of replies.
ghost use Rattle.std.specs.Prelude.{◌<◌, IfOk, flat_map};
ghost use Rattle.page_ranges.specs.MemoryTypes.{page_count};
ghost use Rattle.std.specs.List.{AllByRecursion};
ghost use Rattle.reply_texts.specs.PrintedText.{Prints, bytes_line, descriptor_line, map_line, map_text, read_line, reply_text, result_line, size_line, status_line, value_line};
ghost use Rattle.reply_texts.specs.CallText.{CarriesEntries, HoldsEntries};
ghost use Rattle.map_keys.specs.Records.{IsRecordEntry};
ghost use Rattle.page_ranges.specs.Statuses.{name_of};

use crate::protocol_replies::print_protocols;
use boot_replies::Reply;
use map_keys::{MapReply, read_descriptors};
use page_ranges::{Descriptor, PAGE_SIZE, Status};
use std::alloc::{AllocError, Allocator};
use trace_verbs::Verb;

/// The entries whose records the bytes are; none where they are no records.
fn entries_in<A: Allocator + Copy>(alloc: A, bytes: &[u8]) -> Result<Vec<Descriptor, A>, AllocError>
    ensures holds { IfOk result (λ entries. HoldsEntries bytes.now entries.items) }
    ensures fit { IfOk result (λ entries. AllByRecursion IsRecordEntry entries.items) }
{
    match read_descriptors(alloc, bytes)? {
        Some(entries) => Ok(entries),
        None => Ok(Vec::new(alloc)),
    }
}

/// The entries of the memory map that a reply carries.
pub fn carried_entries<A: Allocator + Copy>(
    alloc: A,
    reply: &Reply<A>,
) -> Result<Vec<Descriptor, A>, AllocError>
    ensures carried { IfOk result (λ entries. CarriesEntries reply.now entries.items) }
    ensures fit { IfOk result (λ entries. AllByRecursion IsRecordEntry entries.items) }
{
    match reply {
        Reply::GetMemoryMap { bytes, .. } => entries_in(alloc, bytes.as_slice()),
        _ => Ok(Vec::new(alloc)),
    }
}

/// Appends the line of a reply, and of a reply with the memory map the lines of its entries.
pub fn print_reply<A: Allocator + Copy>(
    alloc: A,
    text: &mut String<A>,
    number: u64,
    entries: &[Descriptor],
    reply: &Reply<A>,
) -> Result<(), AllocError>
    requires { AllByRecursion IsRecordEntry entries.now }
    ensures { Prints result text.old text.new (reply_text number entries.now reply.now) }
{
    match reply {
        Reply::AllocatePages(Ok(placed)) => {
            print_value(text, number, Verb::Pages, "address", placed.address)
        }
        Reply::AllocatePages(Err(status)) => print_status(text, number, Verb::Pages, *status),
        Reply::FreePages(result) => print_result(text, number, Verb::FreePages, *result),
        Reply::GetMemoryMap { reply, .. } => print_map(text, number, entries, reply),
        Reply::AllocatePool(Ok((address, _))) => {
            print_value(text, number, Verb::Pool, "address", *address)
        }
        Reply::AllocatePool(Err(status)) => print_status(text, number, Verb::Pool, *status),
        Reply::FreePool(result) => print_result(text, number, Verb::FreePool, *result),
        Reply::PoolRead { status, bytes } => {
            print_read(alloc, text, number, *status, bytes.as_slice())
        }
        Reply::PoolWrite(result) => print_result(text, number, Verb::Write, *result),
        Reply::ExitBootServices(result) => print_result(text, number, Verb::Exit, *result),
        _ => print_protocols(text, number, reply),
    }
}

/// Appends the line of a reply that says how a call ended, and nothing else.
pub(crate) fn print_result<A: Allocator>(
    text: &mut String<A>,
    number: u64,
    verb: Verb,
    done: Result<(), Status>,
) -> Result<(), AllocError>
    ensures { Prints result text.old text.new (result_line number verb done) }
{
    match done {
        Ok(()) => print_status(text, number, verb, Status::Success),
        Err(status) => print_status(text, number, verb, status),
    }
}

/// Appends the line of a read of the pool's bytes.
fn print_read<A: Allocator + Copy>(
    alloc: A,
    text: &mut String<A>,
    number: u64,
    status: Status,
    bytes: &[u8],
) -> Result<(), AllocError>
    ensures { Prints result text.old text.new (read_line number bytes.now status) }
{
    match status {
        Status::Success => print_bytes(alloc, text, number, Verb::Read, bytes),
        status => print_status(text, number, Verb::Read, status),
    }
}

/// Appends the line of a call that succeeded with bytes.
fn print_bytes<A: Allocator + Copy>(
    alloc: A,
    text: &mut String<A>,
    number: u64,
    verb: Verb,
    bytes: &[u8],
) -> Result<(), AllocError>
    ensures { Prints result text.old text.new (bytes_line number verb bytes.now) }
{
    let verb = verb.name();
    let digits = hex::encode(alloc, bytes)?;
    writeln!(text, "{number} {verb} SUCCESS bytes={digits}")
}

/// Appends the line of a call that succeeded with a value.
fn print_value<A: Allocator>(
    text: &mut String<A>,
    number: u64,
    verb: Verb,
    name: &str,
    value: u64,
) -> Result<(), AllocError>
    ensures { Prints result text.old text.new (value_line number verb name.now value) }
{
    let verb = verb.name();
    writeln!(text, "{number} {verb} SUCCESS {name}=0x{value:x}")
}

/// Appends the line of a reply without fields.
pub(crate) fn print_status<A: Allocator>(
    text: &mut String<A>,
    number: u64,
    verb: Verb,
    status: Status,
) -> Result<(), AllocError>
    ensures { Prints result text.old text.new (status_line number verb (name_of status)) }
{
    let verb = verb.name();
    let status = status.name();
    writeln!(text, "{number} {verb} {status}")
}

/// Appends the lines of a reply of GetMemoryMap.
fn print_map<A: Allocator>(
    text: &mut String<A>,
    number: u64,
    entries: &[Descriptor],
    reply: &MapReply,
) -> Result<(), AllocError>
    requires { AllByRecursion IsRecordEntry entries.now }
    ensures { Prints result text.old text.new
        (map_text number entries.now reply.now reply.now.status) }
{
    match reply.status {
        Status::Success => {
            print_map_line(text, number, reply)?;
            print_entries(text, entries)
        }
        Status::BufferTooSmall => print_size(text, number, Verb::Map, reply.size),
        status => print_status(text, number, Verb::Map, status),
    }
}

/// Appends the line of a memory map that was written.
fn print_map_line<A: Allocator>(
    text: &mut String<A>,
    number: u64,
    reply: &MapReply,
) -> Result<(), AllocError>
    ensures { Prints result text.old text.new (map_line number reply.now) }
{
    let verb = Verb::Map.name();
    let size = reply.size;
    let key = reply.key;
    let record = reply.descriptor_size;
    let version = reply.version;
    writeln!(
        text,
        "{number} {verb} SUCCESS size={size} key={key} descriptor-size={record} version={version}"
    )
}

/// Appends the line of a call that was given too small a buffer.
pub(crate) fn print_size<A: Allocator>(
    text: &mut String<A>,
    number: u64,
    verb: Verb,
    size: u64,
) -> Result<(), AllocError>
    ensures { Prints result text.old text.new (size_line number verb size) }
{
    let verb = verb.name();
    writeln!(text, "{number} {verb} BUFFER_TOO_SMALL size={size}")
}

/// Appends the lines of entries of the memory map.
fn print_entries<A: Allocator>(
    text: &mut String<A>,
    entries: &[Descriptor],
) -> Result<(), AllocError>
    requires { AllByRecursion IsRecordEntry entries.now }
    ensures { Prints result text.old text.new (flat_map descriptor_line entries.now) }
{
    for entry in entries {
        print_descriptor(text, entry)?;
    }
    Ok(())
}

/// Appends the line of an entry of the memory map.
pub fn print_descriptor<A: Allocator>(
    text: &mut String<A>,
    entry: &Descriptor,
) -> Result<(), AllocError>
    requires { entry.now.first < page_count }
    ensures { Prints result text.old text.new (descriptor_line entry.now) }
{
    let mtype = entry.mtype.number();
    let address = entry.first * PAGE_SIZE;
    let pages = entry.pages;
    let attributes = entry.attributes;
    writeln!(text, "  {mtype} 0x{address:x} {pages} 0x{attributes:x}")
}
