//! The searches for handles, and for what is on a handle.
ghost use Rattle.std.specs.Prelude.{◌≡◌, ◌≢◌, true, [], Some, IsSome, IfOk, vec_len};
ghost use Rattle.guid_handles.specs.HandleTables.{carries, value_at};
ghost use Rattle.protocol_notify.specs.Registrations.{next_handle};
ghost use Rattle.protocol_services.specs.Lists.{IsRaised};
ghost use Rattle.protocol_services.specs.Searches.{FindsHandles, LocatesHandles, LocatesProtocol, ReturnsHandles, ReturnsProtocols, by_register_notify, next_listed, next_of_guid, once_found};

use crate::protocols::Protocols;
use boot_calls::{HANDLE_SIZE, LocateReply};
use guid_handles::is_same_guid;
use page_ranges::Status;
use std::alloc::{AllocError, Allocator};
use uuid::Uuid;

/// The search for all handles (AllHandles).
const ALL_HANDLES: u32 = 0;

/// The search for the handle that is next for a registration (ByRegisterNotify).
const BY_REGISTER_NOTIFY: u32 = 1;

/// The search for the handles that carry a GUID (ByProtocol).
const BY_PROTOCOL: u32 = 2;

impl<A: Allocator + Copy> Protocols<A> {
    /// The handles that a search is for, ascending, where they fit into `size` bytes, 8 each. All
    /// stays as it was.
    ///
    /// INVALID_PARAMETER: another search, or a key of no registration. NOT_FOUND: there are none.
    /// BUFFER_TOO_SMALL: they do not fit; the size is returned. OUT_OF_RESOURCES: memory ran out.
    pub fn find(&self, search: u32, guid: Uuid, key: u64, room: u64) -> LocateReply<A>
        ensures { FindsHandles self.now search guid key room result }
    {
        match search {
            ALL_HANDLES => returned(self.alloc, self.handles.all(), room),
            BY_REGISTER_NOTIFY => self.find_next(key, room),
            BY_PROTOCOL => returned(self.alloc, self.handles.by_protocol(guid), room),
            _ => refused(self.alloc, Status::InvalidParameter, 0),
        }
    }

    /// The handle that is next for a key, as a search returns it.
    fn find_next(&self, key: u64, room: u64) -> LocateReply<A>
        ensures { ReturnsHandles
            (next_listed self.now key) room result.status result.size result.handles.items }
    {
        if self.registrations.guid_of(key).is_none() {
            return refused(self.alloc, Status::InvalidParameter, 0);
        }
        match self.registrations.next(&self.handles, key) {
            Some(handle) => returned(self.alloc, &[handle], room),
            None => refused(self.alloc, Status::NotFound, 0),
        }
    }

    /// Takes the handle of a search by a key; after another search all stays as it was.
    pub fn take_found(&mut self, search: u32, key: u64)
        requires { search ≡ by_register_notify
            → IsSome (next_handle self.old.handles self.old.registrations key) }
        ensures taken { self.new ≡ once_found search key self.old }
        ensures raised { IsRaised self.old self.new }
    {
        if search == BY_REGISTER_NOTIFY {
            self.registrations.take(&self.handles, key);
        }
    }

    /// LocateHandle: the handles that a search is for, as `find` returns them. A search by a key takes its
    /// handle, but where it is refused.
    pub fn locate(&mut self, search: u32, guid: Uuid, key: u64, room: u64) -> LocateReply<A>
        ensures locates { LocatesHandles self.old search guid key room result self.new }
        ensures raised { IsRaised self.old self.new }
    {
        let reply = self.find(search, guid, key, room);
        if reply.status == Status::Success {
            self.take_found(search, key);
        }
        reply
    }

    /// LocateProtocol: the value of the interface of a GUID, for key 0 on the lowest handle that carries
    /// it, else on the handle that is next for the key, which is taken. This takes no memory.
    ///
    /// INVALID_PARAMETER: a key of no registration for the GUID. NOT_FOUND: there is no such handle.
    pub fn locate_protocol(&mut self, guid: Uuid, key: u64) -> Result<u64, Status>
        ensures locates { LocatesProtocol self.old guid key result self.new }
        ensures raised { IsRaised self.old self.new }
    {
        if key == 0 {
            return self.lowest_value(guid);
        }
        match self.registrations.guid_of(key) {
            Some(given) if is_same_guid(&given, &guid) => self.next_value(guid, key),
            _ => Err(Status::InvalidParameter),
        }
    }

    /// The value of the interface of a GUID on the lowest handle that carries it.
    fn lowest_value(&self, guid: Uuid) -> Result<u64, Status>
        ensures { LocatesProtocol self.now guid 0 result self.now }
    {
        match self.handles.by_protocol(guid).first() {
            Some(handle) => Ok(self.value_on(*handle, guid)),
            None => Err(Status::NotFound),
        }
    }

    /// The value of the interface of a GUID on the handle that is next for a key of the GUID, which is
    /// taken.
    fn next_value(&mut self, guid: Uuid, key: u64) -> Result<u64, Status>
        requires given { next_of_guid self.old guid key
            ≡ Some (next_handle self.old.handles self.old.registrations key) }
        requires key { key ≢ 0 }
        ensures { LocatesProtocol self.old guid key result self.new }
    {
        match self.registrations.next(&self.handles, key) {
            Some(handle) => {
                let value = self.value_on(handle, guid);
                self.registrations.take(&self.handles, key);
                Ok(value)
            }
            None => Err(Status::NotFound),
        }
    }

    /// The value of the interface of a GUID on a handle that carries it.
    fn value_on(&self, handle: u64, guid: Uuid) -> u64
        requires { carries self.now.handles guid handle ≡ true }
        ensures { Some result ≡ value_at self.now.handles handle guid }
    {
        match self.handles.interface(handle, guid) {
            Some(value) => value,
            None => unreachable!(),
        }
    }

    /// ProtocolsPerHandle: the GUIDs on a handle, in order of installation.
    ///
    /// INVALID_PARAMETER: the handle is not live. OUT_OF_RESOURCES: memory ran out.
    pub fn protocols_of(&self, handle: u64) -> Result<Vec<Uuid, A>, Status>
        ensures { ReturnsProtocols self.now handle result }
    {
        let Some(count) = self.handles.protocols_of(handle, &mut []) else {
            return Err(Status::InvalidParameter);
        };
        let mut guids = match no_guids(self.alloc, count) {
            Ok(guids) => guids,
            Err(_) => return Err(Status::OutOfResources),
        };
        self.handles.protocols_of(handle, guids.as_mut_slice());
        Ok(guids)
    }
}

/// The given number of GUIDs, to be written over.
fn no_guids<A: Allocator>(alloc: A, count: usize) -> Result<Vec<Uuid, A>, AllocError>
    ensures { IfOk result (λ guids. vec_len guids ≡ count) }
{
    vec![in alloc; Uuid::nil(); count]
}

/// The handles that a search is for, as it returns them.
fn returned<A: Allocator + Copy>(alloc: A, handles: &[u64], room: u64) -> LocateReply<A>
    ensures { ReturnsHandles
        (Some handles.now) room result.status result.size result.handles.items }
{
    let size = handles.len() as u64 * HANDLE_SIZE as u64;
    if handles.is_empty() {
        return refused(alloc, Status::NotFound, 0);
    }
    if room < size {
        return refused(alloc, Status::BufferTooSmall, size);
    }
    match handles.to_vec(alloc) {
        Ok(handles) => LocateReply {
            status: Status::Success,
            size,
            handles,
        },
        Err(_) => refused(alloc, Status::OutOfResources, 0),
    }
}

/// A reply without handles.
fn refused<A: Allocator>(alloc: A, status: Status, size: u64) -> LocateReply<A>
    ensures status { result.status ≡ status }
    ensures size { result.size ≡ size }
    ensures none { result.handles.items ≡ [] }
{
    LocateReply {
        status,
        size,
        handles: Vec::new(alloc),
    }
}
