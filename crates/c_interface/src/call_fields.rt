//! Calls as a caller in C describes them.
ghost use Rattle.std.specs.Prelude.{◌≡◌, IfOk, OnErr, Some, length, map, nat_lt, true};
ghost use Rattle.std.specs.List.{slice_get};
ghost use Rattle.boot_calls.specs.declared.calls.Call.TheVariants as call;
ghost use Rattle.c_machines.specs.Guids.{interface_in};
ghost use Rattle.c_interface.specs.CallFields.{MakesCall, call_by, call_of, services};

use boot_core::{Call, CallBytes, CallHandles, CallPairs};
use c_machines::{Guid, Interface};
use page_ranges::Status;
use std::alloc::{AllocError, Allocator};
use trace_verbs::Verb;
use uuid::Uuid;

/// A call: the number of its service, and its parameters by their names. A service reads those that it has, and ignores
/// the others.
#[repr(C)]
#[derive(Clone, Copy)]
pub struct CallFields<'a> {
    pub service: u32,
    /// The kind of AllocatePages, and that of an interface.
    pub kind: u32,
    pub mtype: u32,
    pub search: u32,
    pub attributes: u32,
    pub recursive: bool,
    pub guid: Guid,
    pub handle: u64,
    pub agent: u64,
    pub controller: u64,
    pub driver: u64,
    pub value: u64,
    /// The value that an interface is to have.
    pub new_value: u64,
    pub event: u64,
    pub key: u64,
    pub address: u64,
    pub pages: u64,
    pub size: u64,
    pub bytes: &'a [u8],
    pub interfaces: &'a [Interface],
    pub drivers: &'a [u64],
}

/// The verbs of services at the numbers that these have in C. The number 0 is of none.
const SERVICES: [Verb; 25] = [
    Verb::List,
    Verb::Pages,
    Verb::FreePages,
    Verb::Map,
    Verb::Pool,
    Verb::FreePool,
    Verb::Read,
    Verb::Write,
    Verb::Install,
    Verb::InstallMany,
    Verb::Uninstall,
    Verb::Reinstall,
    Verb::Notify,
    Verb::Locate,
    Verb::LocateBuffer,
    Verb::LocateProtocol,
    Verb::Protocols,
    Verb::Open,
    Verb::Close,
    Verb::Information,
    Verb::HandleProtocol,
    Verb::Connect,
    Verb::Disconnect,
    Verb::Path,
    Verb::Exit,
];

/// The call that fields describe.
///
/// INVALID_PARAMETER: no service has the number. OUT_OF_RESOURCES: memory ran out.
pub(crate) fn call_in<A: Allocator + Copy>(
    alloc: A,
    fields: &CallFields<'_>,
) -> Result<Call<A>, Status>
    ensures { MakesCall (call_of fields.now) result }
{
    match verb_at(fields.service as usize) {
        Some(verb) => call_by(alloc, verb, fields),
        None => Err(Status::InvalidParameter),
    }
}

/// The verb of the service with a number.
fn verb_at(number: usize) -> Option<Verb>
    ensures { result ≡ slice_get services number }
{
    verb_among(&SERVICES, number)
}

/// The verb at an index, if there is one.
fn verb_among(verbs: &[Verb], index: usize) -> Option<Verb>
    ensures { result ≡ slice_get verbs.now index }
{
    verbs.get(index).copied()
}

/// The call of the service with a verb.
fn call_by<A: Allocator + Copy>(
    alloc: A,
    verb: Verb,
    fields: &CallFields<'_>,
) -> Result<Call<A>, Status>
    ensures { MakesCall (call_by verb fields.now) result }
{
    let guid = fields.guid.uuid();
    match verb {
        Verb::Pages => Ok(Call::AllocatePages {
            kind: fields.kind,
            mtype: fields.mtype,
            pages: fields.pages,
            memory: fields.address,
        }),
        Verb::FreePages => Ok(Call::FreePages {
            memory: fields.address,
            pages: fields.pages,
        }),
        Verb::Map => Ok(Call::GetMemoryMap { size: fields.size }),
        Verb::Pool => Ok(Call::AllocatePool {
            mtype: fields.mtype,
            size: fields.size,
        }),
        Verb::FreePool => Ok(Call::FreePool {
            address: fields.address,
        }),
        Verb::Read => Ok(Call::PoolRead {
            address: fields.address,
            size: fields.size,
        }),
        Verb::Write => write_call(alloc, fields.address, fields.bytes),
        Verb::Install => Ok(Call::InstallProtocolInterface {
            handle: fields.handle,
            guid,
            kind: fields.kind,
            value: fields.value,
        }),
        Verb::InstallMany => install_many_call(alloc, fields.handle, fields.interfaces),
        Verb::Uninstall => Ok(Call::UninstallProtocolInterface {
            handle: fields.handle,
            guid,
            value: fields.value,
        }),
        Verb::Reinstall => Ok(Call::ReinstallProtocolInterface {
            handle: fields.handle,
            guid,
            old_value: fields.value,
            new_value: fields.new_value,
        }),
        Verb::Notify => Ok(Call::RegisterProtocolNotify {
            guid,
            event: fields.event,
        }),
        Verb::Locate => Ok(Call::LocateHandle {
            search: fields.search,
            guid,
            key: fields.key,
            size: fields.size,
        }),
        Verb::LocateBuffer => Ok(Call::LocateHandleBuffer {
            search: fields.search,
            guid,
            key: fields.key,
        }),
        Verb::LocateProtocol => Ok(Call::LocateProtocol {
            guid,
            key: fields.key,
        }),
        Verb::Protocols => Ok(Call::ProtocolsPerHandle {
            handle: fields.handle,
        }),
        Verb::Open => Ok(Call::OpenProtocol {
            handle: fields.handle,
            guid,
            agent: fields.agent,
            controller: fields.controller,
            attributes: fields.attributes,
        }),
        Verb::Close => Ok(Call::CloseProtocol {
            handle: fields.handle,
            guid,
            agent: fields.agent,
            controller: fields.controller,
        }),
        Verb::Information => Ok(Call::OpenProtocolInformation {
            handle: fields.handle,
            guid,
        }),
        Verb::HandleProtocol => Ok(Call::HandleProtocol {
            handle: fields.handle,
            guid,
        }),
        Verb::Connect => { connect_call(alloc, fields.handle, fields.drivers, fields.recursive) }
        Verb::Disconnect => Ok(Call::DisconnectController {
            handle: fields.handle,
            driver: fields.driver,
        }),
        Verb::Path => Ok(Call::LocateDevicePath {
            guid,
            address: fields.address,
        }),
        Verb::Exit => Ok(Call::ExitBootServices { key: fields.key }),
        Verb::List => Err(Status::InvalidParameter),
    }
}

/// A write of bytes to the pool.
fn write_call<A: Allocator + Copy>(alloc: A, address: u64, bytes: &[u8]) -> Result<Call<A>, Status>
    ensures { MakesCall (Some (call.PoolWrite address bytes.now)) result }
{
    match Vec::from_slice(alloc, bytes) {
        Ok(bytes) => Ok(Call::PoolWrite {
            address,
            bytes: CallBytes::new(bytes),
        }),
        Err(_) => Err(Status::OutOfResources),
    }
}

/// An installation of several interfaces.
fn install_many_call<A: Allocator + Copy>(
    alloc: A,
    handle: u64,
    interfaces: &[Interface],
) -> Result<Call<A>, Status>
    ensures { MakesCall
        (Some (call.InstallMultipleProtocolInterfaces handle (map interface_in interfaces.now)))
        result }
{
    match pairs_of(alloc, interfaces) {
        Ok(pairs) => Ok(Call::InstallMultipleProtocolInterfaces {
            handle,
            pairs: CallPairs::new(pairs),
        }),
        Err(_) => Err(Status::OutOfResources),
    }
}

/// A connection with the drivers that are tried first.
fn connect_call<A: Allocator + Copy>(
    alloc: A,
    handle: u64,
    drivers: &[u64],
    recursive: bool,
) -> Result<Call<A>, Status>
    ensures { MakesCall (Some (call.ConnectController handle drivers.now recursive)) result }
{
    match Vec::from_slice(alloc, drivers) {
        Ok(drivers) => Ok(Call::ConnectController {
            handle,
            drivers: CallHandles::new(drivers),
            recursive,
        }),
        Err(_) => Err(Status::OutOfResources),
    }
}

/// Interfaces as pairs of GUID and value. No pairs take no memory.
fn pairs_of<A: Allocator + Copy>(
    alloc: A,
    interfaces: &[Interface],
) -> Result<Vec<(Uuid, u64), A>, AllocError>
    ensures pairs { IfOk result (λ pairs. pairs.items ≡ map interface_in interfaces.now) }
    ensures some { OnErr result (nat_lt 0 (length (map interface_in interfaces.now)) ≡ true) }
{
    if interfaces.is_empty() {
        return Ok(Vec::new(alloc));
    }
    let mut pairs = Vec::with_capacity(alloc, interfaces.len())?;
    for interface in interfaces {
        pairs.push((interface.guid.uuid(), interface.value))?;
    }
    Ok(pairs)
}
