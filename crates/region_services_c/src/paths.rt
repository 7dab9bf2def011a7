//! Device paths in the caller's memory.
ghost use Rattle.std.specs.Prelude.{◌≡◌};
ghost use Rattle.c_interface.specs.Paths.{AnswersPath, InstallsPath};
ghost use Rattle.c_machines.specs.Guids.{guid_in};

use crate::handle::Rafkudin;
use c_machines::Guid;

/// LocateDevicePath, 7.3.8, with a path in the caller's memory. The variable `matched` receives how many bytes of the
/// path's nodes match, the variable `device` the handle.
///
/// INVALID_PARAMETER: the bytes begin with no device path. NOT_FOUND: no handle matches.
#[unsafe(no_mangle)]
pub extern "C" fn RafkudinLocatePath(
    core: &mut Rafkudin,
    guid: &Guid,
    path: &[u8],
    matched: &mut u64,
    device: &mut u64,
) -> u64
    ensures { AnswersPath core.old.core (guid_in guid.now) path.now (device.old, matched.old)
        result (device.new, matched.new) core.new.core }
{
    core.held().locate_path(guid, path, device, matched)
}

/// Copies a device path that is in the caller's memory to a block of the pool, and installs the block's address by
/// InstallMultipleProtocolInterfaces, 7.3.17. The variable `handle` has the handle, 0 for a new one, and receives it;
/// the variable `address` receives the block's address.
///
/// INVALID_PARAMETER: the bytes begin with no device path. Otherwise as AllocatePool and
/// InstallMultipleProtocolInterfaces; where that is refused the block is given back.
#[unsafe(no_mangle)]
pub extern "C" fn RafkudinInstallPath(
    core: &mut Rafkudin,
    handle: &mut u64,
    path: &[u8],
    address: &mut u64,
) -> u64
    ensures { InstallsPath core.old.core path.now (handle.old, address.old) result
        (handle.new, address.new) core.new.core }
{
    core.held().install_path(handle, path, address)
}
