//! The boot services, with their state.
ghost use Rattle.std.specs.Prelude.{◌≡◌, ◌+◌, ◌<◌, ◌≤◌, ◌^◌, [], length, IfOk, None, OnErr, OnOk, Some, slice_get, if◌then◌else◌};
ghost use Rattle.page_ranges.specs.Memory.{IsProperMemory};
ghost use Rattle.page_ranges.specs.MemoryMap.{memory_map};
ghost use Rattle.boot_core.specs.Machines.{certifying_state, leaving, most_calls, new_core, prepared, FollowsCalls, IsUnused};
ghost use Rattle.boot_core.specs.Steps.{IsCounted, MapStep, ReadStep, Calls};

use crate::map_buffers::{map_in_buffer, refused_map};
use crate::pool_buffers::{read_bytes, returned_status};
use crate::pool_lists::{list_opens, locate_buffer};
use boot_calls::{Call, Installed, LocateReply};
use boot_machines::Machine;
use boot_replies::{PoolList, Reply};
use descriptor_table::{MapEntries, RunTable};
use device_path_locate::has_path_installed;
use driver_connect::Driver;
use map_keys::{MapReply, get_memory_map};
use open_agents::OpenRequest;
use page_ranges::{Descriptor, Status};
use page_services::{PageBook, Placed};
use placement_certificate::Certificate;
use pool_services::{PoolMemory, Pools};
use protocol_services::Protocols;
use std::alloc::{AllocError, Allocator, Global};
use std::marker::Model;
use uuid::Uuid;

/// How many calls a new core serves.
const MAX_CALLS: u64 = 0x8000_0000;

/// The most calls that a core can be left.
const MOST_CALLS: u64 = 0x3fff_ffff_ffff_ffff;

/// For how many placements a core on a heap has memory reserved ahead before its first call.
pub const PREPARED_PLACEMENTS: usize = 64;

/// The boot services of a machine, with its drivers.
#[derive(Drop)]
pub struct Services<D = Box<dyn Driver>, A: Allocator = Global> {
    pub(crate) book: PageBook<A>,
    pub(crate) pools: Pools<A>,
    pub(crate) protocols: Protocols<A>,
    pub(crate) drivers: Vec<D, A>,
    exited: bool,
    calls_left: u64,
}

impl<D, A: Allocator> Model for Services<D, A> {
    ghost use Rattle.boot_core.specs.Machines.{CoreValue, KeepsSound, core_of, given_of, parts_in};

    ghost Value = { CoreValue D };

    ghost view = { λ c.
        core_of (parts_in c.book c.pools c.protocols) c.exited c.calls_left
        (given_of c.drivers.items c.pools.memory) };

    ghost invariant = { λ c. KeepsSound (parts_in c.book c.pools c.protocols) c.calls_left };
}

impl<D: Driver, A: Allocator + Copy> Services<D, A> {
    /// The core of a machine, before any call; it returns certificates. The value of a driver binding interface is the
    /// index of its driver.
    pub fn new(
        alloc: A,
        machine: Machine<A>,
        drivers: Vec<D, A>,
    ) -> Result<Services<D, A>, AllocError>
        ensures { IfOk result (λ c. c ≡ new_core machine drivers.items None) }
    {
        Services::with_pools(alloc, machine, drivers, Pools::new(alloc))
    }

    /// The same, whose pool lies in memory that the machine's pages are, so that the bytes of a block are those at its
    /// address.
    pub fn over(
        alloc: A,
        machine: Machine<A>,
        drivers: Vec<D, A>,
        memory: PoolMemory,
    ) -> Result<Services<D, A>, AllocError>
        ensures { IfOk result (λ c. c ≡ new_core machine drivers.items (Some memory)) }
    {
        Services::with_pools(alloc, machine, drivers, Pools::over(alloc, memory))
    }

    // The core of a machine with a pool that has no blocks.
    fn with_pools(
        alloc: A,
        machine: Machine<A>,
        drivers: Vec<D, A>,
        pools: Pools<A>,
    ) -> Result<Services<D, A>, AllocError>
        requires { pools.extents ≡ [] }
        ensures { IfOk result (λ c. c ≡ new_core machine drivers.items pools.memory) }
    {
        let table = RunTable::from_runs(alloc, machine.runs())?;
        Ok(Services {
            book: PageBook::new(table, machine.granule()),
            pools,
            protocols: Protocols::new(alloc),
            drivers,
            exited: false,
            calls_left: MAX_CALLS,
        })
    }

    /// Returns a certificate with each place that it chooses from now on, or returns none. The places are the same
    /// either way, and only a certificate takes memory.
    pub fn certify(&mut self, certifies: bool)
        ensures { self.new
            ≡ record self.old { state = certifying_state certifies self.old.state } }
    {
        self.book.certify(certifies);
    }

    /// Reserves memory for a number of placements of pages and for the frees of what they place: these succeed where
    /// the host refuses all memory, except that of certificates. On an `Err` none is reserved.
    pub fn prepare(&mut self, placements: usize) -> Result<(), AllocError>
        ensures ok { OnOk result (self.new ≡ prepared placements self.old) }
        ensures err { OnErr result (self.new ≡ self.old) }
    {
        self.book.prepare(placements)
    }

    /// Leaves a number of calls and no more. It is for tests alone, of what comes after the last call.
    pub fn leave_calls(&mut self, calls: u64)
        requires { calls ≤ self.old.state.calls_left }
        ensures parts { self.new.state.parts ≡ self.old.state.parts }
        ensures exited { self.new.state.exited ≡ self.old.state.exited }
        ensures calls_left { self.new.state.calls_left ≡ calls }
        ensures given { self.new.given ≡ self.old.given }
    {
        self.calls_left = calls;
    }

    /// Leaves the most calls that a core can be left, where the map key is 1 and nothing is registered, as before the
    /// first call.
    pub fn leave_most_calls(&mut self)
        requires { IsUnused self.old.state.parts }
        ensures { self.new
            ≡ record self.old { state = leaving most_calls self.old.state } }
    {
        self.calls_left = MOST_CALLS;
    }

    // Counts a call; an `Err` is the refusal of all services once the boot services have ended.
    pub(crate) fn begin(&mut self) -> Result<(), Status>
        requires { 0 < self.old.state.calls_left }
        ensures answer { result
            ≡ (if self.old.state.exited then Err Status.Unsupported else Ok tt) }
        ensures parts { self.new.state.parts ≡ self.old.state.parts }
        ensures exited { self.new.state.exited ≡ self.old.state.exited }
        ensures counted { IsCounted self.old.state self.new.state }
        ensures room { self.new.state.parts.book.key + self.new.state.calls_left ≤ most_calls }
        ensures follows { FollowsCalls self.new.state.parts (self.new.state.calls_left + 1) }
        ensures registrations { length self.new.state.parts.lists.registrations < 2 ^ 62 }
        ensures given { self.new.given ≡ self.old.given }
    {
        self.calls_left -= 1;
        if self.exited {
            Err(Status::Unsupported)
        } else {
            Ok(())
        }
    }

    /// AllocatePages: `pages` pages of the type `mtype`, anywhere (kind 0), up to the byte at the address `memory` (1),
    /// or at that address (2). For a type that fills granules they begin at a granule and are rounded up to whole ones.
    /// Returns their address, and for kinds 0 and 1 the certificate of their place, where the core returns
    /// certificates.
    ///
    /// INVALID_PARAMETER: another kind, a type that no request may name, or no pages. NOT_FOUND: the pages cannot be
    /// had at the address. OUT_OF_RESOURCES: kinds 0 and 1 have no permitted place, or memory ran out.
    pub fn allocate_pages(
        &mut self,
        kind: u32,
        mtype: u32,
        pages: u64,
        memory: u64,
    ) -> Result<Placed<A>, Status>
        requires { 0 < self.old.state.calls_left }
        ensures step { Calls D.meaning self.old
            (Call.AllocatePages kind mtype pages memory) (Reply.AllocatePages result) self.new }
        ensures given { self.new.given ≡ self.old.given }
    {
        match self.begin() {
            Ok(()) => self.book.allocate(kind, mtype, pages, memory),
            Err(status) => Err(status),
        }
    }

    /// FreePages: `pages` pages from the address `memory` on are conventional again, and at each end so is the rest of
    /// the granule that the page there lies in, if its type fills granules.
    ///
    /// INVALID_PARAMETER: an unaligned address, no pages, or a range past the last page. NOT_FOUND: one of the pages
    /// was not placed by AllocatePages. OUT_OF_RESOURCES: memory ran out, where none is reserved; each AllocatePages
    /// that succeeds reserves it for one call.
    pub fn free_pages(&mut self, memory: u64, pages: u64) -> Result<(), Status>
        requires { 0 < self.old.state.calls_left }
        ensures step { Calls {A = A} D.meaning self.old
            (Call.FreePages memory pages) (Reply.FreePages result) self.new }
        ensures given { self.new.given ≡ self.old.given }
    {
        match self.begin() {
            Ok(()) => self.book.free(memory, pages),
            Err(status) => Err(status),
        }
    }

    /// GetMemoryMap: the memory map, in the front of the buffer.
    ///
    /// BUFFER_TOO_SMALL: the buffer has fewer bytes than the map takes, which the reply has.
    pub fn get_memory_map(&mut self, buffer: &mut [u8]) -> MapReply
        requires { 0 < self.old.state.calls_left }
        ensures step { MapStep self.old.state buffer.old result buffer.new self.new.state }
        ensures given { self.new.given ≡ self.old.given }
    {
        match self.begin() {
            Ok(()) => get_memory_map(&self.book, buffer),
            Err(status) => refused_map(status),
        }
    }

    // GetMemoryMap with a buffer of its own in place of one of a given size.
    fn get_map_bytes(&mut self, size: u64) -> Reply<A>
        requires { 0 < self.old.state.calls_left }
        ensures step { Calls D.meaning self.old (Call.GetMemoryMap size) result self.new }
        ensures given { self.new.given ≡ self.old.given }
    {
        match self.begin() {
            Ok(()) => {
                let (reply, bytes) = map_in_buffer(&self.book, size);
                Reply::GetMemoryMap { reply, bytes }
            }
            Err(status) => Reply::GetMemoryMap {
                reply: refused_map(status),
                bytes: Vec::new(self.book.table().allocator()),
            },
        }
    }

    /// AllocatePool: a block of a number of bytes, all 0, of the type `mtype`. Returns its address, and where new pages
    /// were placed for it the certificate of their place, where the core returns certificates.
    pub fn allocate_pool(
        &mut self,
        mtype: u32,
        size: u64,
    ) -> Result<(u64, Option<Certificate<A>>), Status>
        requires { 0 < self.old.state.calls_left }
        ensures step { Calls {A = A} D.meaning self.old
            (Call.AllocatePool mtype size) (Reply.AllocatePool result) self.new }
        ensures given { self.new.given ≡ self.old.given }
    {
        match self.begin() {
            Ok(()) => self.pools.allocate(&mut self.book, mtype, size),
            Err(status) => Err(status),
        }
    }

    /// FreePool: gives the block at an address back. This takes no memory.
    pub fn free_pool(&mut self, address: u64) -> Result<(), Status>
        requires { 0 < self.old.state.calls_left }
        ensures step { Calls {A = A} D.meaning self.old
            (Call.FreePool address) (Reply.FreePool result) self.new }
        ensures given { self.new.given ≡ self.old.given }
    {
        match self.begin() {
            Ok(()) => self.pools.free(&mut self.book, address),
            Err(status) => Err(status),
        }
    }

    /// Reads bytes of one pool block, from an address on, into a buffer.
    ///
    /// INVALID_PARAMETER: they do not lie in one block. The buffer is then as it was.
    pub fn pool_read(&mut self, address: u64, buffer: &mut [u8]) -> Status
        requires { 0 < self.old.state.calls_left }
        ensures step { ReadStep self.old.state address buffer.old result buffer.new self.new.state }
        ensures given { self.new.given ≡ self.old.given }
    {
        match self.begin() {
            Ok(()) => returned_status(self.pools.read(address, buffer)),
            Err(status) => status,
        }
    }

    // The same with a buffer of its own in place of one of a given size.
    fn get_pool_bytes(&mut self, address: u64, size: u64) -> Reply<A>
        requires { 0 < self.old.state.calls_left }
        ensures step { Calls D.meaning self.old (Call.PoolRead address size) result self.new }
        ensures given { self.new.given ≡ self.old.given }
    {
        let alloc = self.book.table().allocator();
        match self.begin() {
            Ok(()) => {
                let (status, bytes) = read_bytes(alloc, &self.pools, address, size);
                Reply::PoolRead { status, bytes }
            }
            Err(status) => Reply::PoolRead {
                status,
                bytes: Vec::new(alloc),
            },
        }
    }

    /// Writes bytes into one pool block, from an address on.
    ///
    /// INVALID_PARAMETER: they do not lie in one block.
    pub fn pool_write(&mut self, address: u64, bytes: &[u8]) -> Result<(), Status>
        requires { 0 < self.old.state.calls_left }
        ensures step { Calls {A = A} D.meaning self.old
            (Call.PoolWrite address bytes.now) (Reply.PoolWrite result) self.new }
        ensures given { self.new.given ≡ self.old.given }
    {
        match self.begin() {
            Ok(()) => self.pools.write(address, bytes),
            Err(status) => Err(status),
        }
    }

    /// InstallProtocolInterface: installs an interface, a GUID with a value, on a handle, or for handle 0 on a new one.
    /// The reply has the handle, and the events of the registrations for the GUID.
    pub fn install_protocol_interface(
        &mut self,
        handle: u64,
        guid: Uuid,
        kind: u32,
        value: u64,
    ) -> Result<Installed<A>, Status>
        requires { 0 < self.old.state.calls_left }
        ensures step { Calls D.meaning self.old
            (Call.InstallProtocolInterface handle guid kind value)
            (Reply.InstallProtocolInterface result) self.new }
        ensures given { self.new.given ≡ self.old.given }
    {
        match self.begin() {
            Ok(()) => self.protocols.install(handle, guid, kind, value),
            Err(status) => Err(status),
        }
    }

    /// InstallMultipleProtocolInterfaces: installs interfaces on a handle, pairs of GUID and value: all of them, or
    /// none. ALREADY_STARTED: one is a device path that a live handle has already.
    pub fn install_multiple(
        &mut self,
        handle: u64,
        pairs: &[(Uuid, u64)],
    ) -> Result<Installed<A>, Status>
        requires { 0 < self.old.state.calls_left }
        ensures step { Calls D.meaning self.old
            (Call.InstallMultipleProtocolInterfaces handle pairs.now)
            (Reply.InstallMultipleProtocolInterfaces result) self.new }
        ensures given { self.new.given ≡ self.old.given }
    {
        match self.begin() {
            Ok(()) => {
                let has_path = has_path_installed(self.protocols.handles(), &self.pools, pairs);
                self.protocols.install_many(handle, pairs, has_path)
            }
            Err(status) => Err(status),
        }
    }

    /// UninstallProtocolInterface: uninstalls the interface of a GUID with a value, after the drivers that have it open
    /// are stopped. A handle goes with its last interface.
    pub fn uninstall(&mut self, handle: u64, guid: Uuid, value: u64) -> Result<(), Status>
        requires { 0 < self.old.state.calls_left }
        ensures step { Calls {A = A} D.meaning self.old
            (Call.UninstallProtocolInterface handle guid value)
            (Reply.UninstallProtocolInterface result) self.new }
        ensures given { self.new.given ≡ self.old.given }
    {
        match self.begin() {
            Ok(()) => self
                .protocols
                .uninstall(self.drivers.as_slice(), handle, guid, value),
            Err(status) => Err(status),
        }
    }

    /// ReinstallProtocolInterface: stops the drivers that have the interface of a GUID open, gives it another value,
    /// and connects the handle. The reply has the events.
    pub fn reinstall(
        &mut self,
        handle: u64,
        guid: Uuid,
        old_value: u64,
        new_value: u64,
    ) -> Result<Vec<u64, A>, Status>
        requires { 0 < self.old.state.calls_left }
        ensures step { Calls D.meaning self.old
            (Call.ReinstallProtocolInterface handle guid old_value new_value)
            (Reply.ReinstallProtocolInterface result) self.new }
        ensures given { self.new.given ≡ self.old.given }
    {
        match self.begin() {
            Ok(()) => self.protocols.reinstall(
                self.drivers.as_slice(),
                handle,
                guid,
                old_value,
                new_value,
            ),
            Err(status) => Err(status),
        }
    }

    /// RegisterProtocolNotify: registers an event, which each installation of an interface of a GUID signals from now
    /// on. The reply has the key of the registration.
    pub fn register_protocol_notify(&mut self, guid: Uuid, event: u64) -> Result<u64, Status>
        requires { 0 < self.old.state.calls_left }
        ensures step { Calls {A = A} D.meaning self.old
            (Call.RegisterProtocolNotify guid event)
            (Reply.RegisterProtocolNotify result) self.new }
        ensures given { self.new.given ≡ self.old.given }
    {
        match self.begin() {
            Ok(()) => self.protocols.register(guid, event),
            Err(status) => Err(status),
        }
    }

    /// LocateHandle: all handles (search 0), the handle that is next for a registration's key, which is taken (1), or
    /// those that carry a GUID (2), where a buffer of this size has room for them, 8 bytes each.
    pub fn locate_handle(&mut self, search: u32, guid: Uuid, key: u64, size: u64) -> LocateReply<A>
        requires { 0 < self.old.state.calls_left }
        ensures step { Calls D.meaning self.old
            (Call.LocateHandle search guid key size) (Reply.LocateHandle result) self.new }
        ensures given { self.new.given ≡ self.old.given }
    {
        match self.begin() {
            Ok(()) => self.protocols.locate(search, guid, key, size),
            Err(status) => LocateReply {
                status,
                size: 0,
                handles: Vec::new(self.book.table().allocator()),
            },
        }
    }

    /// LocateHandleBuffer: the handles of such a search in a pool block, which the caller frees.
    pub fn locate_handle_buffer(
        &mut self,
        search: u32,
        guid: Uuid,
        key: u64,
    ) -> Result<PoolList<A>, Status>
        requires { 0 < self.old.state.calls_left }
        ensures step { Calls D.meaning self.old
            (Call.LocateHandleBuffer search guid key) (Reply.LocateHandleBuffer result) self.new }
        ensures given { self.new.given ≡ self.old.given }
    {
        match self.begin() {
            Ok(()) => locate_buffer(
                &mut self.book,
                &mut self.pools,
                &mut self.protocols,
                search,
                guid,
                key,
            ),
            Err(status) => Err(status),
        }
    }

    /// LocateProtocol: the value of the interface of a GUID, for key 0 on the lowest handle that carries it, else on
    /// the handle that is next for the key, which is taken.
    pub fn locate_protocol(&mut self, guid: Uuid, key: u64) -> Result<u64, Status>
        requires { 0 < self.old.state.calls_left }
        ensures step { Calls {A = A} D.meaning self.old (Call.LocateProtocol guid key)
            (Reply.LocateProtocol result) self.new }
        ensures given { self.new.given ≡ self.old.given }
    {
        match self.begin() {
            Ok(()) => self.protocols.locate_protocol(guid, key),
            Err(status) => Err(status),
        }
    }

    /// ProtocolsPerHandle: the GUIDs on a handle, in order of installation.
    pub fn protocols_per_handle(&mut self, handle: u64) -> Result<Vec<Uuid, A>, Status>
        requires { 0 < self.old.state.calls_left }
        ensures step { Calls D.meaning self.old
            (Call.ProtocolsPerHandle handle) (Reply.ProtocolsPerHandle result) self.new }
        ensures given { self.new.given ≡ self.old.given }
    {
        match self.begin() {
            Ok(()) => self.protocols.protocols_of(handle),
            Err(status) => Err(status),
        }
    }

    /// OpenProtocol: the value of an interface, and which agent has it open for which controller, and how.
    pub fn open_protocol(
        &mut self,
        handle: u64,
        guid: Uuid,
        agent: u64,
        controller: u64,
        attributes: u32,
    ) -> Result<Option<u64>, Status>
        requires { 0 < self.old.state.calls_left }
        ensures step { Calls {A = A} D.meaning self.old
            (Call.OpenProtocol handle guid agent controller attributes)
            (Reply.OpenProtocol result) self.new }
        ensures given { self.new.given ≡ self.old.given }
    {
        match self.begin() {
            Ok(()) => self.protocols.open(
                self.drivers.as_slice(),
                &OpenRequest {
                    handle,
                    guid,
                    agent,
                    controller,
                    attributes,
                },
            ),
            Err(status) => Err(status),
        }
    }

    /// CloseProtocol: removes all open items of an agent and a controller on an interface.
    pub fn close_protocol(
        &mut self,
        handle: u64,
        guid: Uuid,
        agent: u64,
        controller: u64,
    ) -> Result<(), Status>
        requires { 0 < self.old.state.calls_left }
        ensures step { Calls {A = A} D.meaning self.old
            (Call.CloseProtocol handle guid agent controller)
            (Reply.CloseProtocol result) self.new }
        ensures given { self.new.given ≡ self.old.given }
    {
        match self.begin() {
            Ok(()) => self.protocols.close(handle, guid, agent, controller),
            Err(status) => Err(status),
        }
    }

    /// OpenProtocolInformation: the open items of an interface in a pool block, which the caller frees.
    pub fn open_protocol_information(
        &mut self,
        handle: u64,
        guid: Uuid,
    ) -> Result<PoolList<A>, Status>
        requires { 0 < self.old.state.calls_left }
        ensures step { Calls D.meaning self.old
            (Call.OpenProtocolInformation handle guid)
            (Reply.OpenProtocolInformation result) self.new }
        ensures given { self.new.given ≡ self.old.given }
    {
        match self.begin() {
            Ok(()) => list_opens(
                &mut self.book,
                &mut self.pools,
                &self.protocols,
                handle,
                guid,
            ),
            Err(status) => Err(status),
        }
    }

    /// HandleProtocol: the value of the interface of a GUID on a handle.
    pub fn handle_protocol(&mut self, handle: u64, guid: Uuid) -> Result<u64, Status>
        requires { 0 < self.old.state.calls_left }
        ensures step { Calls {A = A} D.meaning self.old
            (Call.HandleProtocol handle guid) (Reply.HandleProtocol result) self.new }
        ensures given { self.new.given ≡ self.old.given }
    {
        match self.begin() {
            Ok(()) => self.protocols.handle_protocol(handle, guid),
            Err(status) => Err(status),
        }
    }

    /// ConnectController: starts drivers on a handle, those first that are named, and where `recursive` is set on the
    /// handles that this makes. The reply has the events.
    pub fn connect_controller(
        &mut self,
        handle: u64,
        named: &[u64],
        recursive: bool,
    ) -> Result<Vec<u64, A>, Status>
        requires { 0 < self.old.state.calls_left }
        ensures step { Calls D.meaning self.old
            (Call.ConnectController handle named.now recursive)
            (Reply.ConnectController result) self.new }
        ensures given { self.new.given ≡ self.old.given }
    {
        match self.begin() {
            Ok(()) => self
                .protocols
                .connect(self.drivers.as_slice(), handle, named, recursive),
            Err(status) => Err(status),
        }
    }

    /// DisconnectController: stops the drivers that manage a handle, or one of them if `driver` is not 0.
    pub fn disconnect_controller(&mut self, handle: u64, driver: u64) -> Result<(), Status>
        requires { 0 < self.old.state.calls_left }
        ensures step { Calls {A = A} D.meaning self.old
            (Call.DisconnectController handle driver) (Reply.DisconnectController result) self.new }
        ensures given { self.new.given ≡ self.old.given }
    {
        match self.begin() {
            Ok(()) => self
                .protocols
                .disconnect(self.drivers.as_slice(), handle, driver),
            Err(status) => Err(status),
        }
    }

    /// ExitBootServices: with the current map key, after which all services return UNSUPPORTED.
    ///
    /// INVALID_PARAMETER: another key.
    pub fn exit_boot_services(&mut self, key: u64) -> Result<(), Status>
        requires { 0 < self.old.state.calls_left }
        ensures step { Calls {A = A} D.meaning self.old (Call.ExitBootServices key)
            (Reply.ExitBootServices result) self.new }
        ensures given { self.new.given ≡ self.old.given }
    {
        match self.begin() {
            Ok(()) if key != self.book.key() => Err(Status::InvalidParameter),
            Ok(()) => {
                self.exited = true;
                Ok(())
            }
            Err(status) => Err(status),
        }
    }

    /// The service that a call names.
    pub fn call(&mut self, call: &Call<A>) -> Reply<A>
        requires { 0 < self.old.state.calls_left }
        ensures step { Calls D.meaning self.old call.now result self.new }
        ensures given { self.new.given ≡ self.old.given }
    {
        match call {
            Call::AllocatePages {
                kind,
                mtype,
                pages,
                memory,
            } => Reply::AllocatePages(self.allocate_pages(*kind, *mtype, *pages, *memory)),
            Call::FreePages { memory, pages } => Reply::FreePages(self.free_pages(*memory, *pages)),
            Call::GetMemoryMap { size } => self.get_map_bytes(*size),
            Call::AllocatePool { mtype, size } => {
                Reply::AllocatePool(self.allocate_pool(*mtype, *size))
            }
            Call::FreePool { address } => Reply::FreePool(self.free_pool(*address)),
            Call::PoolRead { address, size } => self.get_pool_bytes(*address, *size),
            Call::PoolWrite { address, bytes } => {
                Reply::PoolWrite(self.pool_write(*address, bytes.as_slice()))
            }
            Call::InstallProtocolInterface {
                handle,
                guid,
                kind,
                value,
            } => Reply::InstallProtocolInterface(self.install_protocol_interface(
                *handle, *guid, *kind, *value,
            )),
            Call::InstallMultipleProtocolInterfaces { handle, pairs } => {
                Reply::InstallMultipleProtocolInterfaces(self.install_multiple(
                    *handle,
                    pairs.as_slice(),
                ))
            }
            Call::UninstallProtocolInterface {
                handle,
                guid,
                value,
            } => Reply::UninstallProtocolInterface(self.uninstall(*handle, *guid, *value)),
            Call::ReinstallProtocolInterface {
                handle,
                guid,
                old_value,
                new_value,
            } => Reply::ReinstallProtocolInterface(self.reinstall(
                *handle, *guid, *old_value, *new_value,
            )),
            Call::RegisterProtocolNotify { guid, event } => {
                Reply::RegisterProtocolNotify(self.register_protocol_notify(*guid, *event))
            }
            Call::LocateHandle {
                search,
                guid,
                key,
                size,
            } => Reply::LocateHandle(self.locate_handle(*search, *guid, *key, *size)),
            Call::LocateHandleBuffer { search, guid, key } => {
                Reply::LocateHandleBuffer(self.locate_handle_buffer(*search, *guid, *key))
            }
            Call::LocateProtocol { guid, key } => Reply::LocateProtocol(self.locate_protocol(
                *guid, *key,
            )),
            Call::ProtocolsPerHandle { handle } => Reply::ProtocolsPerHandle(
                self.protocols_per_handle(*handle),
            ),
            Call::OpenProtocol {
                handle,
                guid,
                agent,
                controller,
                attributes,
            } => Reply::OpenProtocol(self.open_protocol(
                *handle,
                *guid,
                *agent,
                *controller,
                *attributes,
            )),
            Call::CloseProtocol {
                handle,
                guid,
                agent,
                controller,
            } => Reply::CloseProtocol(self.close_protocol(*handle, *guid, *agent, *controller)),
            Call::OpenProtocolInformation { handle, guid } => {
                Reply::OpenProtocolInformation(self.open_protocol_information(*handle, *guid))
            }
            Call::HandleProtocol { handle, guid } => Reply::HandleProtocol(self.handle_protocol(
                *handle, *guid,
            )),
            Call::ConnectController {
                handle,
                drivers,
                recursive,
            } => Reply::ConnectController(self.connect_controller(
                *handle,
                drivers.as_slice(),
                *recursive,
            )),
            Call::DisconnectController { handle, driver } => {
                Reply::DisconnectController(self.disconnect_controller(*handle, *driver))
            }
            Call::LocateDevicePath { guid, address } => Reply::LocateDevicePath(
                self.locate_device_path(*guid, *address),
            ),
            Call::ExitBootServices { key } => Reply::ExitBootServices(self.exit_boot_services(
                *key,
            )),
        }
    }

    /// How many calls may still be made: 2^31 at first, one less after each call.
    pub fn calls_left(&self) -> u64
        ensures { result ≡ self.now.state.calls_left }
    {
        self.calls_left
    }

    /// The machine's granule in pages: 1 or 16.
    pub fn granule(&self) -> u64
        ensures { result ≡ self.now.state.parts.book.granule }
    {
        self.book.granule()
    }

    /// How many entries the memory map has.
    pub fn descriptors(&self) -> usize
        ensures count { result ≡ length (memory_map self.now.state.parts.book.memory) }
        ensures proper { IsProperMemory self.now.state.parts.book.memory }
    {
        self.book.table().descriptors()
    }

    /// The entry of the memory map at an index, by ascending page.
    pub fn descriptor(&self, index: usize) -> Option<Descriptor>
        ensures { result ≡ slice_get (memory_map self.now.state.parts.book.memory) index }
    {
        self.book.table().descriptor(index)
    }

    /// The allocator that the services take memory from.
    pub(crate) fn allocator(&self) -> A {
        self.book.table().allocator()
    }

    /// The entries of the memory map, by ascending page.
    pub fn map_entries(&self) -> MapEntries<'_, A>
        ensures entries { result ≡ memory_map self.now.state.parts.book.memory }
        ensures proper { IsProperMemory self.now.state.parts.book.memory }
    {
        // This contract says that the memory is proper.
        let _count = self.descriptors();
        self.book.table().map_entries()
    }
}
