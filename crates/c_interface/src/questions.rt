//! Questions: what the core has, one item after the other. None is a call of a service.
ghost use Rattle.std.specs.Prelude.{◌≡◌, length};
ghost use Rattle.c_interface.specs.Items.{ListsItems, open_item_at};
ghost use Rattle.c_interface.specs.Questions.{FillsWith, ReturnsFound, agent_item_at, block_from, handle_at, holder_at, holders, interface_at, live_handles, page_run, page_runs};

use crate::buffers::copy_to_front;
use crate::efi_core::EfiCore;
use crate::entries::{
    BlockEntry, OpenEntry, RunEntry, block_in_c, interface_in_c, open_in_c, run_in_c,
};
use boot_core::OpenItem;
use c_machines::{Guid, Interface};
use page_ranges::Status;
use std::alloc::Allocator;

impl<A: Allocator + Copy> EfiCore<A> {
    /// The live block of the pool with the lowest address at or above one.
    ///
    /// NOT_FOUND: there is none.
    pub fn block_from(&self, address: u64, block: &mut BlockEntry) -> u64
        ensures { ReturnsFound (block_from self.now address) block.old result block.new }
    {
        put_found(self.core.block_from(address).map(block_in_c), block)
    }

    /// How many runs of pages there are, of one type, one set of attributes and one owner each.
    pub fn page_runs(&self) -> usize
        ensures { result ≡ length (page_runs self.now) }
    {
        self.core.page_runs()
    }

    /// The run of pages at an index, by ascending page.
    ///
    /// NOT_FOUND: there is none.
    pub fn page_run(&self, index: usize, entry: &mut RunEntry) -> u64
        ensures { ReturnsFound (page_run self.now index) entry.old result entry.new }
    {
        // This contract says that the memory is proper, and so that a run's address is one of 64 bits.
        let _count = self.core.page_runs();
        match self.core.page_run(index) {
            Some(found) => put_found(Some(run_in_c(&found)), entry),
            None => put_found(None, entry),
        }
    }

    /// The handle at an index among the live ones, by ascending number.
    ///
    /// NOT_FOUND: there is none.
    pub fn handle(&self, index: usize, handle: &mut u64) -> u64
        ensures { ReturnsFound (handle_at self.now index) handle.old result handle.new }
    {
        put_found(self.core.handle(index), handle)
    }

    /// The handle at an index among those that carry a GUID, by ascending number.
    ///
    /// NOT_FOUND: there is none.
    pub fn holder(&self, guid: &Guid, index: usize, handle: &mut u64) -> u64
        ensures { ReturnsFound (holder_at self.now guid.now index) handle.old result handle.new }
    {
        put_found(self.core.holder(guid.uuid(), index), handle)
    }

    /// All live handles, by ascending number, in the front of a buffer. The variable `count` receives how many there
    /// are.
    ///
    /// BUFFER_TOO_SMALL: the buffer has no room for all of them, and is left.
    pub fn handles(&self, buffer: &mut [u64], count: &mut u64) -> u64
        ensures { FillsWith (live_handles self.now) result buffer.old count.new buffer.new }
    {
        fill(self.core.handle_list(), buffer, count)
    }

    /// All handles that carry a GUID, by ascending number, in the same way.
    pub fn holders(&self, guid: &Guid, buffer: &mut [u64], count: &mut u64) -> u64
        ensures { FillsWith (holders self.now guid.now) result buffer.old count.new buffer.new }
    {
        fill(self.core.holder_list(guid.uuid()), buffer, count)
    }

    /// The interface at an index among those on a handle, in order of installation.
    ///
    /// NOT_FOUND: there is none.
    pub fn interface(&self, handle: u64, index: usize, interface: &mut Interface) -> u64
        ensures { ReturnsFound
            (interface_at self.now handle index) interface.old result interface.new }
    {
        let found = self.core.interface(handle, index);
        put_found(found.map(interface_in_c), interface)
    }

    /// The item at an index among those open on an interface, in the order in which they were made.
    ///
    /// NOT_FOUND: there is none.
    pub fn open_item(&self, handle: u64, guid: &Guid, index: usize, item: &mut OpenItem) -> u64
        ensures { ReturnsFound
            (open_item_at self.now handle guid.now index) item.old result item.new }
    {
        put_found(self.core.open_item(handle, guid.uuid(), index), item)
    }

    /// The item at an index among the open ones of an agent, in the order in which they were made.
    ///
    /// NOT_FOUND: there is none.
    pub fn agent_item(&self, agent: u64, index: usize, item: &mut OpenEntry) -> u64
        ensures { ReturnsFound (agent_item_at self.now agent index) item.old result item.new }
    {
        let found = self.core.agent_item(agent, index);
        put_found(found.map(open_in_c), item)
    }

    /// The items open on an interface, in the order in which they were made, in the front of a buffer. The variable
    /// `count` receives how many there are.
    ///
    /// NOT_FOUND: the handle is not live, or lacks the GUID. BUFFER_TOO_SMALL: the buffer has no room for all of them,
    /// and is left; the variable receives how many there are.
    pub fn open_items(
        &self,
        handle: u64,
        guid: &Guid,
        buffer: &mut [OpenItem],
        count: &mut u64,
    ) -> u64
        ensures { ListsItems
            self.now handle guid.now count.old buffer.old result count.new buffer.new }
    {
        let guid = guid.uuid();
        let Some(needed) = self.core.write_open_items(handle, guid, &mut []) else {
            return Status::NotFound.number();
        };
        *count = needed as u64;
        if buffer.len() < needed {
            return Status::BufferTooSmall.number();
        }
        self.core.write_open_items(handle, guid, buffer);
        Status::Success.number()
    }
}

/// Puts what is found into a variable of the caller's.
fn put_found<T: Copy>(found: Option<T>, place: &mut T) -> u64
    ensures { ReturnsFound found place.old result place.new }
{
    match found {
        Some(value) => {
            *place = value;
            Status::Success.number()
        }
        None => Status::NotFound.number(),
    }
}

/// Copies all of a list into the front of a buffer that has room for them, and puts into a variable how many they are.
pub(crate) fn fill<T: Copy>(items: &[T], buffer: &mut [T], count: &mut u64) -> u64
    ensures { FillsWith items.now result buffer.old count.new buffer.new }
{
    *count = items.len() as u64;
    if buffer.len() < items.len() {
        return Status::BufferTooSmall.number();
    }
    copy_to_front(buffer, items);
    Status::Success.number()
}
