//! The services on handles, interfaces and drivers.
ghost use Rattle.std.specs.Prelude.{◌≡◌};
ghost use Rattle.c_interface.specs.Services.{Installs, Uninstalls, Reinstalls, Registers, LocatesBuffer, LocatesProtocol, LocatesPath, HandlesProtocol, Opens, Closes, ListsOpens, Disconnects};

use crate::efi_core::{ABORTED, EfiCore};
use crate::replies::{return_opened, return_value, returned_status};
use boot_core::{Call, Reply};
use c_machines::Guid;
use std::alloc::Allocator;

impl<A: Allocator + Copy> EfiCore<A> {
    /// InstallProtocolInterface. The variable `handle` has the handle, 0 for a new one, and receives it.
    pub fn install_protocol_interface(
        &mut self,
        handle: &mut u64,
        guid: &Guid,
        kind: u32,
        value: u64,
    ) -> u64
        ensures { Installs self.old handle.old guid.now kind value result handle.new self.new }
    {
        if !self.begin() {
            return ABORTED;
        }
        let installed = self
            .core
            .install_protocol_interface(*handle, guid.uuid(), kind, value);
        self.return_number(Reply::InstallProtocolInterface(installed), handle)
    }

    /// UninstallProtocolInterface.
    pub fn uninstall_protocol_interface(&mut self, handle: u64, guid: &Guid, value: u64) -> u64
        ensures { Uninstalls self.old handle guid.now value result self.new }
    {
        if !self.begin() {
            return ABORTED;
        }
        let uninstalled = self.core.uninstall(handle, guid.uuid(), value);
        self.return_status(Reply::UninstallProtocolInterface(uninstalled))
    }

    /// ReinstallProtocolInterface.
    pub fn reinstall_protocol_interface(
        &mut self,
        handle: u64,
        guid: &Guid,
        old_value: u64,
        new_value: u64,
    ) -> u64
        ensures { Reinstalls self.old handle guid.now old_value new_value result self.new }
    {
        if !self.begin() {
            return ABORTED;
        }
        let reinstalled = self
            .core
            .reinstall(handle, guid.uuid(), old_value, new_value);
        self.return_status(Reply::ReinstallProtocolInterface(reinstalled))
    }

    /// RegisterProtocolNotify. The variable `key` receives the registration's key.
    pub fn register_protocol_notify(&mut self, guid: &Guid, event: u64, key: &mut u64) -> u64
        ensures { Registers self.old guid.now event key.old result key.new self.new }
    {
        let guid = guid.uuid();
        self.answer_number(&Call::RegisterProtocolNotify { guid, event }, key)
    }

    /// LocateHandleBuffer. The variables receive how many handles there are, and the address of their block of the
    /// pool.
    pub fn locate_handle_buffer(
        &mut self,
        search: u32,
        guid: &Guid,
        key: u64,
        count: &mut u64,
        buffer: &mut u64,
    ) -> u64
        ensures { LocatesBuffer self.old search guid.now key (count.old, buffer.old) result
            (count.new, buffer.new) self.new }
    {
        let guid = guid.uuid();
        self.answer_numbers(
            &Call::LocateHandleBuffer { search, guid, key },
            count,
            buffer,
        )
    }

    /// LocateProtocol. The variable `value` receives the interface's value.
    pub fn locate_protocol(&mut self, guid: &Guid, key: u64, value: &mut u64) -> u64
        ensures { LocatesProtocol self.old guid.now key value.old result value.new self.new }
    {
        let guid = guid.uuid();
        if self.keeps_replies {
            return self.answer_number(&Call::LocateProtocol { guid, key }, value);
        }
        if !self.begin() {
            return ABORTED;
        }
        return_value(self.core.locate_protocol(guid, key), value)
    }

    /// OpenProtocol. The variable `value` receives the interface's value, but by TEST_PROTOCOL.
    pub fn open_protocol(
        &mut self,
        handle: u64,
        guid: &Guid,
        value: &mut u64,
        agent: u64,
        controller: u64,
        attributes: u32,
    ) -> u64
        ensures { Opens self.old handle guid.now agent controller attributes value.old result
            value.new self.new }
    {
        let guid = guid.uuid();
        if self.keeps_replies {
            let call = Call::OpenProtocol {
                handle,
                guid,
                agent,
                controller,
                attributes,
            };
            return self.answer_number(&call, value);
        }
        if !self.begin() {
            return ABORTED;
        }
        let opened = self
            .core
            .open_protocol(handle, guid, agent, controller, attributes);
        return_opened(opened, value)
    }

    /// CloseProtocol.
    pub fn close_protocol(&mut self, handle: u64, guid: &Guid, agent: u64, controller: u64) -> u64
        ensures { Closes self.old handle guid.now agent controller result self.new }
    {
        let guid = guid.uuid();
        if self.keeps_replies {
            return self.answer_status(&Call::CloseProtocol {
                handle,
                guid,
                agent,
                controller,
            });
        }
        if !self.begin() {
            return ABORTED;
        }
        let closed = self.core.close_protocol(handle, guid, agent, controller);
        returned_status(&closed).number()
    }

    /// OpenProtocolInformation. The variables receive how many open items there are, and the address of their block of
    /// the pool.
    pub fn open_protocol_information(
        &mut self,
        handle: u64,
        guid: &Guid,
        count: &mut u64,
        entries: &mut u64,
    ) -> u64
        ensures { ListsOpens self.old handle guid.now (count.old, entries.old) result
            (count.new, entries.new) self.new }
    {
        let guid = guid.uuid();
        self.answer_numbers(
            &Call::OpenProtocolInformation { handle, guid },
            count,
            entries,
        )
    }

    /// HandleProtocol. The variable `value` receives the interface's value.
    pub fn handle_protocol(&mut self, handle: u64, guid: &Guid, value: &mut u64) -> u64
        ensures { HandlesProtocol self.old handle guid.now value.old result value.new self.new }
    {
        let guid = guid.uuid();
        if self.keeps_replies {
            return self.answer_number(&Call::HandleProtocol { handle, guid }, value);
        }
        if !self.begin() {
            return ABORTED;
        }
        return_value(self.core.handle_protocol(handle, guid), value)
    }

    /// DisconnectController.
    pub fn disconnect_controller(&mut self, handle: u64, driver: u64) -> u64
        ensures { Disconnects self.old handle driver result self.new }
    {
        if !self.begin() {
            return ABORTED;
        }
        let disconnected = self.core.disconnect_controller(handle, driver);
        self.return_status(Reply::DisconnectController(disconnected))
    }

    /// LocateDevicePath. The variable `path` has the path's address in the pool, and receives the address behind the
    /// nodes that matched; the variable `device` receives the handle.
    pub fn locate_device_path(&mut self, guid: &Guid, path: &mut u64, device: &mut u64) -> u64
        ensures { LocatesPath self.old guid.now (device.old, path.old) result (device.new, path.new)
            self.new }
    {
        let guid = guid.uuid();
        let call = Call::LocateDevicePath {
            guid,
            address: *path,
        };
        self.answer_numbers(&call, device, path)
    }
}
