//! The services that take or return a list.
ghost use Rattle.std.specs.Prelude.{◌≡◌, map, take};
ghost use Rattle.boot_replies.specs.declared.replies.Reply.TheVariants as reply;
ghost use Rattle.c_interface.specs.Buffers.{front_filled};
ghost use Rattle.c_interface.specs.Served.{ReturnsGuids, handle_bytes, returned_size, too_many};
ghost use Rattle.c_interface.specs.Services.{InstallsAll, InstallsPairs, LocatesHandles, ListsGuids, Connects};
ghost use Rattle.c_machines.specs.Guids.{interface_in, standard_guid};

use crate::buffers::copy_to_front;
use crate::efi_core::{ABORTED, EfiCore};
use arrayvec::ArrayVec;
use boot_calls::HANDLE_SIZE;
use boot_core::Reply;
use c_machines::{Guid, Interface};
use guid_handles::{MAX_HANDLES, MAX_INSTALLED};
use page_ranges::Status;
use std::alloc::Allocator;
use uuid::Uuid;

/// The fewest interfaces that are too many for one installation, whatever they are.
const TOO_MANY: usize = MAX_INSTALLED + 1;

impl<A: Allocator + Copy> EfiCore<A> {
    /// LocateHandle with a buffer for handles. The variable `needed` receives the bytes that all that match take, on
    /// SUCCESS and on BUFFER_TOO_SMALL.
    pub fn locate_handle(
        &mut self,
        search: u32,
        guid: &Guid,
        key: u64,
        needed: &mut u64,
        buffer: &mut [u64],
    ) -> u64
        ensures { LocatesHandles self.old search guid.now key needed.old buffer.old result
            needed.new buffer.new self.new }
    {
        if !self.begin() {
            return ABORTED;
        }
        let size = handle_bytes(buffer.len());
        let located = self.core.locate_handle(search, guid.uuid(), key, size);
        copy_to_front(buffer, located.handles.as_slice());
        if let Some(size) = returned_size(located.status, located.size) {
            *needed = size;
        }
        self.return_status(Reply::LocateHandle(located))
    }

    /// ProtocolsPerHandle. The variable `count` receives how many GUIDs there are; they are copied into the buffer.
    ///
    /// BUFFER_TOO_SMALL: it has no room for all of them, and is left; the variable receives how many there are.
    pub fn protocols_per_handle(&mut self, handle: u64, buffer: &mut [Guid], count: &mut u64) -> u64
        ensures { ListsGuids self.old handle count.old buffer.old result count.new buffer.new
            self.new }
    {
        if !self.begin() {
            return ABORTED;
        }
        let listed = self.core.protocols_per_handle(handle);
        let status = return_guids(buffer, count, &listed);
        self.return_status(Reply::ProtocolsPerHandle(listed));
        status
    }

    /// InstallMultipleProtocolInterfaces. The variable `handle` has the handle, 0 for a new one, and receives it. This
    /// takes no memory but the core's: a list that is too long is refused by its first interfaces.
    pub fn install_multiple(&mut self, handle: &mut u64, interfaces: &[Interface]) -> u64
        ensures { InstallsAll self.old handle.old interfaces.now result handle.new self.new }
    {
        let pairs = first_pairs(interfaces);
        self.install_pairs(handle, pairs.as_slice())
    }

    // InstallMultipleProtocolInterfaces of pairs of GUID and value.
    fn install_pairs(&mut self, handle: &mut u64, pairs: &[(Uuid, u64)]) -> u64
        ensures { InstallsPairs self.old handle.old pairs.now result handle.new self.new }
    {
        if !self.begin() {
            return ABORTED;
        }
        let installed = self.core.install_multiple(*handle, pairs);
        self.return_number(Reply::InstallMultipleProtocolInterfaces(installed), handle)
    }

    /// ConnectController, with the drivers that are tried first.
    pub fn connect_controller(&mut self, handle: u64, drivers: &[u64], recursive: bool) -> u64
        ensures { Connects self.old handle drivers.now recursive result self.new }
    {
        if !self.begin() {
            return ABORTED;
        }
        let connected = self.core.connect_controller(handle, drivers, recursive);
        self.return_status(Reply::ConnectController(connected))
    }
}

/// The bytes of a buffer for a number of handles, as far as that many can be live.
fn handle_bytes(room: usize) -> u64
    ensures { result ≡ handle_bytes room }
{
    room.min(MAX_HANDLES) as u64 * HANDLE_SIZE as u64
}

/// The bytes that a status says a list takes.
fn returned_size(status: Status, size: u64) -> Option<u64>
    ensures { result ≡ returned_size status size }
{
    match status {
        Status::Success | Status::BufferTooSmall => Some(size),
        _ => None,
    }
}

/// The first interfaces as pairs of GUID and value, at most one more than may be installed at once.
pub(crate) fn first_pairs(interfaces: &[Interface]) -> ArrayVec<(Uuid, u64), TOO_MANY>
    ensures { result.items ≡ map interface_in (take too_many interfaces.now) }
{
    let count = interfaces.len().min(TOO_MANY);
    let mut pairs = ArrayVec::new();
    for interface in &interfaces[..count] {
        pairs.push((interface.guid.uuid(), interface.value));
    }
    pairs
}

/// How many GUIDs are listed in the caller's variable, and the GUIDs in the caller's buffer, where it has room for all.
/// Returns the status.
fn return_guids<A: Allocator>(
    buffer: &mut [Guid],
    count: &mut u64,
    listed: &Result<Vec<Uuid, A>, Status>,
) -> u64
    ensures { ReturnsGuids count.old buffer.old result count.new buffer.new
        (reply.ProtocolsPerHandle listed.now) }
{
    let guids = match listed {
        Ok(guids) => guids,
        Err(status) => return status.number(),
    };
    *count = guids.len() as u64;
    if buffer.len() < guids.len() {
        return Status::BufferTooSmall.number();
    }
    copy_guids(buffer, guids.as_slice());
    Status::Success.number()
}

/// Copies GUIDs into the front of a buffer, as many as it has room for.
fn copy_guids(buffer: &mut [Guid], guids: &[Uuid])
    ensures { buffer.new ≡ front_filled (map standard_guid guids.now) buffer.old }
{
    let count = guids.len().min(buffer.len());
    for index in 0..count {
        buffer[index] = Guid::new(&guids[index]);
    }
}
