//! Device paths in the caller's memory.
ghost use Rattle.std.specs.Prelude.{◌≡◌, ◌+◌, ◌≤◌};
ghost use Rattle.c_machines.specs.Guids.{guid_in};
ghost use Rattle.c_interface.specs.EfiCores.{with_core};
ghost use Rattle.c_interface.specs.Paths.{AnswersPath, InstallsBlock, InstallsPath, WritesPath};

use crate::efi_core::{ABORTED, EfiCore};
use crate::replies::{number_in, status_in};
use boot_core::{Call, Reply};
use boot_replies::BOOT_SERVICES_DATA;
use c_machines::Guid;
use device_path_locate::{device_path_guid, read_path};
use page_ranges::Status;
use std::alloc::Allocator;

/// How many calls an installation makes at most.
const MAX_PATH_CALLS: u64 = 4;

impl<A: Allocator + Copy> EfiCore<A> {
    /// LocateDevicePath with a path in the caller's memory. The variable `matched` receives how many bytes of the
    /// path's nodes match, the variable `device` the handle.
    ///
    /// INVALID_PARAMETER: the bytes begin with no path. NOT_FOUND: no handle matches.
    pub fn locate_path(
        &mut self,
        guid: &Guid,
        path: &[u8],
        device: &mut u64,
        matched: &mut u64,
    ) -> u64
        ensures { AnswersPath self.old (guid_in guid.now) path.now (device.old, matched.old) result
            (device.new, matched.new) self.new }
    {
        if !self.begin() {
            return ABORTED;
        }
        match self.core.locate_path(guid.uuid(), path) {
            Ok((handle, size)) => {
                *device = handle;
                *matched = size as u64;
                Status::Success.number()
            }
            Err(status) => status.number(),
        }
    }

    /// Installs a device path that is in the caller's memory: copies it to a block of the pool, and installs the
    /// block's address by InstallMultipleProtocolInterfaces. The variable `handle` has the handle, 0 for a new one, and
    /// receives it, the variable `address` the block's address. Where that is refused the block is given back. These
    /// are three or four calls.
    ///
    /// INVALID_PARAMETER: the bytes begin with no path; then no call is made.
    pub fn install_path(&mut self, handle: &mut u64, path: &[u8], address: &mut u64) -> u64
        ensures { InstallsPath self.old path.now (handle.old, address.old) result
            (handle.new, address.new) self.new }
    {
        if read_path(path).is_none() {
            self.forget();
            return Status::InvalidParameter.number();
        }
        if self.core.calls_left() < MAX_PATH_CALLS {
            self.forget();
            return ABORTED;
        }
        let Some(placed) = self.make_call(&Call::AllocatePool {
            mtype: BOOT_SERVICES_DATA,
            size: path.len() as u64,
        }) else {
            return ABORTED;
        };
        let block = number_in(&placed);
        let status = self.return_status(placed);
        match block {
            Some(block) => self.install_at(handle, path, block, address),
            None => status,
        }
    }

    // What follows the block of a path.
    fn install_at(&mut self, handle: &mut u64, path: &[u8], block: u64, address: &mut u64) -> u64
        requires { 3 ≤ self.old.core.state.calls_left }
        ensures { InstallsBlock self.old path.now block (handle.old, address.old) result
            (handle.new, address.new) self.new }
    {
        let reply = self.write_path(*handle, path, block);
        if status_in(&reply) != Status::Success {
            let _freed = self.core.free_pool(block);
            return self.return_status(reply);
        }
        *handle = number_in(&reply).unwrap_or(*handle);
        *address = block;
        self.return_status(reply)
    }

    // Writes a path to its block, and installs the block's address.
    fn write_path(&mut self, handle: u64, path: &[u8], block: u64) -> Reply<A>
        requires { 2 ≤ self.old.core.state.calls_left }
        ensures run { WritesPath self.old handle path.now block result self.new }
        ensures counted { self.old.core.state.calls_left ≤ self.new.core.state.calls_left + 2 }
        ensures given { self.new.core.given ≡ self.old.core.given }
        ensures others { self.new ≡ with_core self.old self.new.core }
    {
        let pair = [(device_path_guid(), block)];
        match self.core.pool_write(block, path) {
            Ok(()) => {
                let installed = self.core.install_multiple(handle, &pair);
                Reply::InstallMultipleProtocolInterfaces(installed)
            }
            Err(status) => Reply::PoolWrite(Err(status)),
        }
    }
}
