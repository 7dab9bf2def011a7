//! The core: the boot services with their replies, as a trace names and prints them.
ghost use Rattle.std.specs.Prelude.{◌≡◌, ◌<◌, ◌≤◌, length, map, IfOk, None, OnErr, slice_get};
ghost use Rattle.page_ranges.specs.Memory.{IsProperMemory};
ghost use Rattle.page_ranges.specs.MemoryMap.{memory_map};
ghost use Rattle.boot_core.specs.Machines.{new_core};
ghost use Rattle.boot_core.specs.Steps.{MapStep, ReadStep, Calls, CallRun};

use crate::services::Services;
use boot_calls::Call;
use boot_machines::Machine;
use boot_replies::Reply;
use driver_connect::Driver;
use map_keys::MapReply;
use page_ranges::{Descriptor, Status};
use std::alloc::{AllocError, Allocator, Global};
use std::marker::Model;
use uuid::Uuid;

/// The boot services of a machine, each of which returns its reply. [`Services`] has the rules.
#[derive(Drop)]
pub struct Core<D = Box<dyn Driver>, A: Allocator = Global> {
    pub services: Services<D, A>,
}

impl<D, A: Allocator> Model for Core<D, A> {
    ghost use Rattle.boot_core.specs.Machines.{CoreValue};

    ghost Value = { CoreValue D };

    ghost view = { λ c. c.services };
}

impl<D: Driver, A: Allocator + Copy> Core<D, A> {
    /// The core of a machine, before any call; it returns certificates. The value of a driver binding
    /// interface is the index of its driver.
    pub fn new(alloc: A, machine: Machine<A>, drivers: Vec<D, A>) -> Result<Core<D, A>, AllocError>
        ensures { IfOk result (λ c. c ≡ new_core machine drivers.items None) }
    {
        let services = Services::new(alloc, machine, drivers)?;
        Ok(Core { services })
    }

    /// AllocatePages.
    pub fn allocate_pages(&mut self, kind: u32, mtype: u32, pages: u64, memory: u64) -> Reply<A>
        requires { 0 < self.old.state.calls_left }
        ensures step { Calls D.meaning self.old
            (Call.AllocatePages kind mtype pages memory) result self.new }
        ensures given { self.new.given ≡ self.old.given }
    {
        Reply::AllocatePages(self.services.allocate_pages(kind, mtype, pages, memory))
    }

    /// FreePages.
    pub fn free_pages(&mut self, memory: u64, pages: u64) -> Reply<A>
        requires { 0 < self.old.state.calls_left }
        ensures step { Calls D.meaning self.old
            (Call.FreePages memory pages) result self.new }
        ensures given { self.new.given ≡ self.old.given }
    {
        Reply::FreePages(self.services.free_pages(memory, pages))
    }

    /// GetMemoryMap, in the front of a buffer.
    pub fn get_memory_map(&mut self, buffer: &mut [u8]) -> MapReply
        requires { 0 < self.old.state.calls_left }
        ensures step { MapStep self.old.state buffer.old result buffer.new self.new.state }
        ensures given { self.new.given ≡ self.old.given }
    {
        self.services.get_memory_map(buffer)
    }

    /// AllocatePool.
    pub fn allocate_pool(&mut self, mtype: u32, size: u64) -> Reply<A>
        requires { 0 < self.old.state.calls_left }
        ensures step { Calls D.meaning self.old
            (Call.AllocatePool mtype size) result self.new }
        ensures given { self.new.given ≡ self.old.given }
    {
        Reply::AllocatePool(self.services.allocate_pool(mtype, size))
    }

    /// FreePool.
    pub fn free_pool(&mut self, address: u64) -> Reply<A>
        requires { 0 < self.old.state.calls_left }
        ensures step { Calls D.meaning self.old
            (Call.FreePool address) result self.new }
        ensures given { self.new.given ≡ self.old.given }
    {
        Reply::FreePool(self.services.free_pool(address))
    }

    /// Reads bytes of one pool block into a buffer.
    pub fn pool_read(&mut self, address: u64, buffer: &mut [u8]) -> Status
        requires { 0 < self.old.state.calls_left }
        ensures step { ReadStep self.old.state address buffer.old result buffer.new self.new.state }
        ensures given { self.new.given ≡ self.old.given }
    {
        self.services.pool_read(address, buffer)
    }

    /// Writes bytes into one pool block.
    pub fn pool_write(&mut self, address: u64, bytes: &[u8]) -> Reply<A>
        requires { 0 < self.old.state.calls_left }
        ensures step { Calls D.meaning self.old
            (Call.PoolWrite address bytes.now) result self.new }
        ensures given { self.new.given ≡ self.old.given }
    {
        Reply::PoolWrite(self.services.pool_write(address, bytes))
    }

    /// InstallProtocolInterface.
    pub fn install_protocol_interface(
        &mut self,
        handle: u64,
        guid: Uuid,
        kind: u32,
        value: u64,
    ) -> Reply<A>
        requires { 0 < self.old.state.calls_left }
        ensures step { Calls D.meaning self.old
            (Call.InstallProtocolInterface handle guid kind value) result self.new }
        ensures given { self.new.given ≡ self.old.given }
    {
        Reply::InstallProtocolInterface(
            self.services
                .install_protocol_interface(handle, guid, kind, value),
        )
    }

    /// InstallMultipleProtocolInterfaces.
    pub fn install_multiple(&mut self, handle: u64, pairs: &[(Uuid, u64)]) -> Reply<A>
        requires { 0 < self.old.state.calls_left }
        ensures step { Calls D.meaning self.old
            (Call.InstallMultipleProtocolInterfaces handle pairs.now) result self.new }
        ensures given { self.new.given ≡ self.old.given }
    {
        Reply::InstallMultipleProtocolInterfaces(self.services.install_multiple(handle, pairs))
    }

    /// UninstallProtocolInterface.
    pub fn uninstall(&mut self, handle: u64, guid: Uuid, value: u64) -> Reply<A>
        requires { 0 < self.old.state.calls_left }
        ensures step { Calls D.meaning self.old
            (Call.UninstallProtocolInterface handle guid value) result self.new }
        ensures given { self.new.given ≡ self.old.given }
    {
        Reply::UninstallProtocolInterface(self.services.uninstall(handle, guid, value))
    }

    /// ReinstallProtocolInterface.
    pub fn reinstall(&mut self, handle: u64, guid: Uuid, old_value: u64, new_value: u64) -> Reply<A>
        requires { 0 < self.old.state.calls_left }
        ensures step { Calls D.meaning self.old
            (Call.ReinstallProtocolInterface handle guid old_value new_value) result self.new }
        ensures given { self.new.given ≡ self.old.given }
    {
        Reply::ReinstallProtocolInterface(
            self.services.reinstall(handle, guid, old_value, new_value),
        )
    }

    /// RegisterProtocolNotify.
    pub fn register_protocol_notify(&mut self, guid: Uuid, event: u64) -> Reply<A>
        requires { 0 < self.old.state.calls_left }
        ensures step { Calls D.meaning self.old
            (Call.RegisterProtocolNotify guid event) result self.new }
        ensures given { self.new.given ≡ self.old.given }
    {
        Reply::RegisterProtocolNotify(self.services.register_protocol_notify(guid, event))
    }

    /// LocateHandle.
    pub fn locate_handle(&mut self, search: u32, guid: Uuid, key: u64, size: u64) -> Reply<A>
        requires { 0 < self.old.state.calls_left }
        ensures step { Calls D.meaning self.old
            (Call.LocateHandle search guid key size) result self.new }
        ensures given { self.new.given ≡ self.old.given }
    {
        Reply::LocateHandle(self.services.locate_handle(search, guid, key, size))
    }

    /// LocateHandleBuffer.
    pub fn locate_handle_buffer(&mut self, search: u32, guid: Uuid, key: u64) -> Reply<A>
        requires { 0 < self.old.state.calls_left }
        ensures step { Calls D.meaning self.old
            (Call.LocateHandleBuffer search guid key) result self.new }
        ensures given { self.new.given ≡ self.old.given }
    {
        Reply::LocateHandleBuffer(self.services.locate_handle_buffer(search, guid, key))
    }

    /// LocateProtocol.
    pub fn locate_protocol(&mut self, guid: Uuid, key: u64) -> Reply<A>
        requires { 0 < self.old.state.calls_left }
        ensures step { Calls D.meaning self.old (Call.LocateProtocol guid key) result self.new }
        ensures given { self.new.given ≡ self.old.given }
    {
        Reply::LocateProtocol(self.services.locate_protocol(guid, key))
    }

    /// ProtocolsPerHandle.
    pub fn protocols_per_handle(&mut self, handle: u64) -> Reply<A>
        requires { 0 < self.old.state.calls_left }
        ensures step { Calls D.meaning self.old
            (Call.ProtocolsPerHandle handle) result self.new }
        ensures given { self.new.given ≡ self.old.given }
    {
        Reply::ProtocolsPerHandle(self.services.protocols_per_handle(handle))
    }

    /// OpenProtocol.
    pub fn open_protocol(
        &mut self,
        handle: u64,
        guid: Uuid,
        agent: u64,
        controller: u64,
        attributes: u32,
    ) -> Reply<A>
        requires { 0 < self.old.state.calls_left }
        ensures step { Calls D.meaning self.old
            (Call.OpenProtocol handle guid agent controller attributes) result self.new }
        ensures given { self.new.given ≡ self.old.given }
    {
        Reply::OpenProtocol(
            self.services
                .open_protocol(handle, guid, agent, controller, attributes),
        )
    }

    /// CloseProtocol.
    pub fn close_protocol(
        &mut self,
        handle: u64,
        guid: Uuid,
        agent: u64,
        controller: u64,
    ) -> Reply<A>
        requires { 0 < self.old.state.calls_left }
        ensures step { Calls D.meaning self.old
            (Call.CloseProtocol handle guid agent controller) result self.new }
        ensures given { self.new.given ≡ self.old.given }
    {
        Reply::CloseProtocol(
            self.services
                .close_protocol(handle, guid, agent, controller),
        )
    }

    /// OpenProtocolInformation.
    pub fn open_protocol_information(&mut self, handle: u64, guid: Uuid) -> Reply<A>
        requires { 0 < self.old.state.calls_left }
        ensures step { Calls D.meaning self.old
            (Call.OpenProtocolInformation handle guid) result self.new }
        ensures given { self.new.given ≡ self.old.given }
    {
        Reply::OpenProtocolInformation(self.services.open_protocol_information(handle, guid))
    }

    /// HandleProtocol.
    pub fn handle_protocol(&mut self, handle: u64, guid: Uuid) -> Reply<A>
        requires { 0 < self.old.state.calls_left }
        ensures step { Calls D.meaning self.old
            (Call.HandleProtocol handle guid) result self.new }
        ensures given { self.new.given ≡ self.old.given }
    {
        Reply::HandleProtocol(self.services.handle_protocol(handle, guid))
    }

    /// ConnectController.
    pub fn connect_controller(&mut self, handle: u64, named: &[u64], recursive: bool) -> Reply<A>
        requires { 0 < self.old.state.calls_left }
        ensures step { Calls D.meaning self.old
            (Call.ConnectController handle named.now recursive) result self.new }
        ensures given { self.new.given ≡ self.old.given }
    {
        Reply::ConnectController(self.services.connect_controller(handle, named, recursive))
    }

    /// DisconnectController.
    pub fn disconnect_controller(&mut self, handle: u64, driver: u64) -> Reply<A>
        requires { 0 < self.old.state.calls_left }
        ensures step { Calls D.meaning self.old
            (Call.DisconnectController handle driver) result self.new }
        ensures given { self.new.given ≡ self.old.given }
    {
        Reply::DisconnectController(self.services.disconnect_controller(handle, driver))
    }

    /// LocateDevicePath with a path in the pool.
    pub fn locate_device_path(&mut self, guid: Uuid, address: u64) -> Reply<A>
        requires { 0 < self.old.state.calls_left }
        ensures step { Calls D.meaning self.old
            (Call.LocateDevicePath guid address) result self.new }
        ensures given { self.new.given ≡ self.old.given }
    {
        Reply::LocateDevicePath(self.services.locate_device_path(guid, address))
    }

    /// ExitBootServices.
    pub fn exit_boot_services(&mut self, key: u64) -> Reply<A>
        requires { 0 < self.old.state.calls_left }
        ensures step { Calls D.meaning self.old (Call.ExitBootServices key) result self.new }
        ensures given { self.new.given ≡ self.old.given }
    {
        Reply::ExitBootServices(self.services.exit_boot_services(key))
    }

    /// The service that a call names.
    pub fn call(&mut self, call: &Call<A>) -> Reply<A>
        requires { 0 < self.old.state.calls_left }
        ensures step { Calls D.meaning self.old call.now result self.new }
        ensures given { self.new.given ≡ self.old.given }
    {
        self.services.call(call)
    }

    /// Makes the calls in order, and returns the reply to each.
    ///
    /// An `Err` means that there was no memory for the replies; then no call was made.
    pub fn run(&mut self, calls: &[Call<A>]) -> Result<Vec<Reply<A>, A>, AllocError>
        requires { length calls.now ≤ self.old.state.calls_left }
        ensures runs { IfOk result (λ replies.
            CallRun (map D.meaning self.old.given.drivers) self.old.state calls.now replies.items
            self.new.state) }
        ensures given { self.new.given ≡ self.old.given }
        ensures refused { OnErr result (self.new ≡ self.old) }
    {
        let mut replies = Vec::with_capacity(self.services.allocator(), calls.len())?;
        for call in calls {
            let reply = self.call(call);
            match replies.push(reply) {
                Ok(()) => {}
                Err(_) => unreachable!(),
            }
        }
        Ok(replies)
    }

    /// How many calls may still be made: 2^31 at first, one less after each call.
    pub fn calls_left(&self) -> u64
        ensures { result ≡ self.now.state.calls_left }
    {
        self.services.calls_left()
    }

    /// How many entries the memory map has.
    pub fn descriptors(&self) -> usize
        ensures count { result ≡ length (memory_map self.now.state.parts.book.memory) }
        ensures proper { IsProperMemory self.now.state.parts.book.memory }
    {
        self.services.descriptors()
    }

    /// The entry of the memory map at an index, by ascending page.
    pub fn descriptor(&self, index: usize) -> Option<Descriptor>
        ensures { result ≡ slice_get (memory_map self.now.state.parts.book.memory) index }
    {
        self.services.descriptor(index)
    }
}
