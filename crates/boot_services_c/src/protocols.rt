//! The protocol services (UEFI Specification 2.10, section 7.3).
//!
//! Of each: ABORTED, after 2^62 - 1 calls, UNSUPPORTED, once the boot services have exited, and OUT_OF_RESOURCES,
//! where memory runs out, are not named again. A refusal leaves the caller's variables.
ghost use Rattle.std.specs.Prelude.{◌≡◌};
ghost use Rattle.c_interface.specs.Opening.{HandlesGiving, OpensGiving};
ghost use Rattle.c_interface.specs.Removals.{UninstallsAll};
ghost use Rattle.c_interface.specs.Services.{Installs, InstallsAll, Uninstalls, Reinstalls, Registers, LocatesHandles, LocatesBuffer, LocatesProtocol, LocatesPath, Closes, ListsOpens, ListsGuids, Connects, Disconnects};

use crate::handle::Rafkudin;
use c_machines::{Guid, Interface};

/// InstallProtocolInterface, 7.3.2. The variable `handle` has the handle, 0 for a new one, and receives it.
///
/// INVALID_PARAMETER: another kind than 0, a handle that is not live, or the GUID is on it already.
/// OUT_OF_RESOURCES: 4,096 handles are live.
#[unsafe(no_mangle)]
pub extern "C" fn RafkudinInstallProtocolInterface(
    core: &mut Rafkudin,
    handle: &mut u64,
    guid: &Guid,
    kind: u32,
    value: u64,
) -> u64
    ensures { Installs core.old.core handle.old guid.now kind value result handle.new
        core.new.core }
{
    core.held()
        .install_protocol_interface(handle, guid, kind, value)
}

/// UninstallProtocolInterface, 7.3.3.
///
/// INVALID_PARAMETER: the handle is not live. NOT_FOUND: the GUID is not on it with this value.
/// ACCESS_DENIED: it is open in a way that can't be ended.
#[unsafe(no_mangle)]
pub extern "C" fn RafkudinUninstallProtocolInterface(
    core: &mut Rafkudin,
    handle: u64,
    guid: &Guid,
    value: u64,
) -> u64
    ensures { Uninstalls core.old.core handle guid.now value result core.new.core }
{
    core.held()
        .uninstall_protocol_interface(handle, guid, value)
}

/// ReinstallProtocolInterface, 7.3.4.
///
/// INVALID_PARAMETER: the handle is not live. NOT_FOUND: the GUID is not on it with the old value.
/// ACCESS_DENIED: it is open in a way that can't be ended.
#[unsafe(no_mangle)]
pub extern "C" fn RafkudinReinstallProtocolInterface(
    core: &mut Rafkudin,
    handle: u64,
    guid: &Guid,
    old_value: u64,
    new_value: u64,
) -> u64
    ensures { Reinstalls core.old.core handle guid.now old_value new_value result core.new.core }
{
    core.held()
        .reinstall_protocol_interface(handle, guid, old_value, new_value)
}

/// RegisterProtocolNotify, 7.3.5. The variable `key` receives the registration's key.
#[unsafe(no_mangle)]
pub extern "C" fn RafkudinRegisterProtocolNotify(
    core: &mut Rafkudin,
    guid: &Guid,
    event: u64,
    key: &mut u64,
) -> u64
    ensures { Registers core.old.core guid.now event key.old result key.new core.new.core }
{
    core.held().register_protocol_notify(guid, event, key)
}

/// LocateHandle, 7.3.6, with a buffer for handles. The variable `needed` receives the bytes that all that match take.
///
/// INVALID_PARAMETER: another search, or a key of no registration. NOT_FOUND: nothing matches. BUFFER_TOO_SMALL: the
/// variable receives them too.
#[unsafe(no_mangle)]
pub extern "C" fn RafkudinLocateHandleInto(
    core: &mut Rafkudin,
    search: u32,
    guid: &Guid,
    key: u64,
    needed: &mut u64,
    buffer: &mut [u64],
) -> u64
    ensures { LocatesHandles core.old.core search guid.now key needed.old buffer.old result
        needed.new buffer.new core.new.core }
{
    core.held().locate_handle(search, guid, key, needed, buffer)
}

/// HandleProtocol, 7.3.7. The variable `value` receives the interface's value, and 0 with UNSUPPORTED.
///
/// INVALID_PARAMETER: the handle is not live. UNSUPPORTED: the GUID is not on it.
#[unsafe(no_mangle)]
pub extern "C" fn RafkudinHandleProtocol(
    core: &mut Rafkudin,
    handle: u64,
    guid: &Guid,
    value: &mut u64,
) -> u64
    ensures { HandlesGiving core.old.core handle guid.now value.old result value.new
        core.new.core }
{
    core.held().handle_giving(handle, guid, value)
}

/// LocateDevicePath, 7.3.8. The variable `path` has the path's address in the pool, and receives the address behind the
/// nodes that matched; the variable `device` receives the handle.
///
/// INVALID_PARAMETER: no device path is at the address. NOT_FOUND: no handle matches.
#[unsafe(no_mangle)]
pub extern "C" fn RafkudinLocateDevicePath(
    core: &mut Rafkudin,
    guid: &Guid,
    path: &mut u64,
    device: &mut u64,
) -> u64
    ensures { LocatesPath core.old.core guid.now (device.old, path.old) result
        (device.new, path.new)
        core.new.core }
{
    core.held().locate_device_path(guid, path, device)
}

/// OpenProtocol, 7.3.9. The variable `value` receives the interface's value, also with ALREADY_STARTED, and 0 with
/// UNSUPPORTED; TEST_PROTOCOL leaves it.
///
/// INVALID_PARAMETER: a handle that is not live, or other attributes. UNSUPPORTED: the GUID is not on the
/// handle. ALREADY_STARTED: the agent has it open by driver. ACCESS_DENIED: it is open in a
/// way that can't be ended.
#[unsafe(no_mangle)]
pub extern "C" fn RafkudinOpenProtocol(
    core: &mut Rafkudin,
    handle: u64,
    guid: &Guid,
    value: &mut u64,
    agent: u64,
    controller: u64,
    attributes: u32,
) -> u64
    ensures { OpensGiving core.old.core handle guid.now agent controller attributes value.old
        result value.new core.new.core }
{
    core.held()
        .open_giving(handle, guid, value, agent, controller, attributes)
}

/// CloseProtocol, 7.3.10.
///
/// INVALID_PARAMETER: a handle that is not live. NOT_FOUND: the GUID is not on the handle, or nothing is
/// open so.
#[unsafe(no_mangle)]
pub extern "C" fn RafkudinCloseProtocol(
    core: &mut Rafkudin,
    handle: u64,
    guid: &Guid,
    agent: u64,
    controller: u64,
) -> u64
    ensures { Closes core.old.core handle guid.now agent controller result core.new.core }
{
    core.held().close_protocol(handle, guid, agent, controller)
}

/// OpenProtocolInformation, 7.3.11. The variables receive the address of the block of the pool that has the open items,
/// and how many they are.
///
/// NOT_FOUND: the handle is not live, or the GUID is not on it. OUT_OF_RESOURCES: there is no place.
#[unsafe(no_mangle)]
pub extern "C" fn RafkudinOpenProtocolInformation(
    core: &mut Rafkudin,
    handle: u64,
    guid: &Guid,
    entries: &mut u64,
    count: &mut u64,
) -> u64
    ensures { ListsOpens core.old.core handle guid.now (count.old, entries.old) result
        (count.new, entries.new) core.new.core }
{
    core.held()
        .open_protocol_information(handle, guid, count, entries)
}

/// ConnectController, 7.3.12, with the drivers that are tried first.
///
/// INVALID_PARAMETER: the handle is not live, or more than 16 drivers. NOT_FOUND: no driver was started.
#[unsafe(no_mangle)]
pub extern "C" fn RafkudinConnectDrivers(
    core: &mut Rafkudin,
    handle: u64,
    drivers: &[u64],
    recursive: bool,
) -> u64
    ensures { Connects core.old.core handle drivers.now recursive result core.new.core }
{
    core.held().connect_controller(handle, drivers, recursive)
}

/// DisconnectController, 7.3.13, of one driver, or with 0 of all.
///
/// INVALID_PARAMETER: the handle is not live, or the driver is none. DEVICE_ERROR: they can't be stopped.
#[unsafe(no_mangle)]
pub extern "C" fn RafkudinDisconnectDrivers(core: &mut Rafkudin, handle: u64, driver: u64) -> u64
    ensures { Disconnects core.old.core handle driver result core.new.core }
{
    core.held().disconnect_controller(handle, driver)
}

/// ProtocolsPerHandle, 7.3.14, with a buffer for the GUIDs. The variable `count` receives how many there are.
///
/// INVALID_PARAMETER: the handle is not live. BUFFER_TOO_SMALL: there are more than the buffer has room for; the
/// variable receives how many, and the buffer is left.
#[unsafe(no_mangle)]
pub extern "C" fn RafkudinProtocolsPerHandle(
    core: &mut Rafkudin,
    handle: u64,
    buffer: &mut [Guid],
    count: &mut u64,
) -> u64
    ensures { ListsGuids core.old.core handle count.old buffer.old result count.new buffer.new
        core.new.core }
{
    core.held().protocols_per_handle(handle, buffer, count)
}

/// LocateHandleBuffer, 7.3.15. The variables receive how many handles there are, and the address of their block of the
/// pool.
///
/// As LocateHandle, without BUFFER_TOO_SMALL. OUT_OF_RESOURCES: there is no place.
#[unsafe(no_mangle)]
pub extern "C" fn RafkudinLocateHandleBuffer(
    core: &mut Rafkudin,
    search: u32,
    guid: &Guid,
    key: u64,
    count: &mut u64,
    buffer: &mut u64,
) -> u64
    ensures { LocatesBuffer core.old.core search guid.now key (count.old, buffer.old) result
        (count.new, buffer.new) core.new.core }
{
    core.held()
        .locate_handle_buffer(search, guid, key, count, buffer)
}

/// LocateProtocol, 7.3.16. The variable `value` receives the interface's value.
///
/// INVALID_PARAMETER: a key of no registration, or for another GUID. NOT_FOUND: nothing matches.
#[unsafe(no_mangle)]
pub extern "C" fn RafkudinLocateProtocol(
    core: &mut Rafkudin,
    guid: &Guid,
    key: u64,
    value: &mut u64,
) -> u64
    ensures { LocatesProtocol core.old.core guid.now key value.old result value.new core.new.core }
{
    core.held().locate_protocol(guid, key, value)
}

/// InstallMultipleProtocolInterfaces, 7.3.17. The variable `handle` has the handle, 0 for a new one, and receives it.
///
/// INVALID_PARAMETER: no interfaces or more than 16, a handle that is not live, or a GUID that is on it
/// already or is there twice. ALREADY_STARTED: a live handle has this device path. OUT_OF_RESOURCES: 4,096
/// handles are live.
#[unsafe(no_mangle)]
pub extern "C" fn RafkudinInstallMultipleProtocolInterfaces(
    core: &mut Rafkudin,
    handle: &mut u64,
    interfaces: &[Interface],
) -> u64
    ensures { InstallsAll core.old.core handle.old interfaces.now result handle.new core.new.core }
{
    core.held().install_multiple(handle, interfaces)
}

/// UninstallMultipleProtocolInterfaces, 7.3.18: uninstalls interfaces of a handle one after the other: all of them, or
/// none.
///
/// INVALID_PARAMETER: there are more than 16, or UninstallProtocolInterface would refuse one of them at its turn.
#[unsafe(no_mangle)]
pub extern "C" fn RafkudinUninstallMultipleProtocolInterfaces(
    core: &mut Rafkudin,
    handle: u64,
    interfaces: &[Interface],
) -> u64
    ensures { UninstallsAll core.old.core handle interfaces.now result core.new.core }
{
    core.held().uninstall_multiple(handle, interfaces)
}
