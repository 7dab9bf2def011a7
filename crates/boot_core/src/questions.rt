//! Questions: what the core has, one item after the other. None is a call, and none takes memory.
ghost use Rattle.std.specs.Prelude.{◌≡◌, length, slice_get};
ghost use Rattle.std.specs.List.{find};
ghost use Rattle.page_ranges.specs.Memory.{IsProperMemory};
ghost use Rattle.page_ranges.specs.Runs.{runs_of};
ghost use Rattle.pool_services.specs.Listed.{blocks_of, is_from};
ghost use Rattle.guid_handles.specs.HandleTables.{carries, holders_of, interfaces_on, numbers, value_at};
ghost use Rattle.open_agents.specs.Listed.{items_of};
ghost use Rattle.open_agents.specs.OpenItems.{items_on};
ghost use Rattle.boot_core.specs.Questions.{WritesItems};

use crate::services::Services;
use driver_connect::Driver;
use guid_handles::Interface;
use open_agents::{OpenItem, OpenRecord};
use page_ranges::Run;
use pool_services::PoolBlock;
use std::alloc::Allocator;
use uuid::Uuid;

impl<D: Driver, A: Allocator + Copy> Services<D, A> {
    /// How many runs of pages there are, of one type, one set of attributes and one owner each.
    pub fn page_runs(&self) -> usize
        ensures count { result ≡ length (runs_of self.now.state.parts.book.memory) }
        ensures proper { IsProperMemory self.now.state.parts.book.memory }
    {
        self.book.table().len()
    }

    /// The run of pages at an index, by ascending page.
    pub fn page_run(&self, index: usize) -> Option<Run>
        ensures { result ≡ slice_get (runs_of self.now.state.parts.book.memory) index }
    {
        self.book.table().run(index)
    }

    /// The live block of the pool with the lowest address at or above one.
    pub fn block_from(&self, address: u64) -> Option<PoolBlock>
        ensures { result ≡ find (is_from address) (blocks_of self.now.state.parts.pools) }
    {
        self.pools.block_from(address)
    }

    /// The handle at an index among the live ones, by ascending number.
    pub fn handle(&self, index: usize) -> Option<u64>
        ensures { result ≡ slice_get (numbers self.now.state.parts.lists.handles) index }
    {
        self.protocols.handles().all().get(index).copied()
    }

    /// The handle at an index among those that carry a GUID, by ascending number.
    pub fn holder(&self, guid: Uuid, index: usize) -> Option<u64>
        ensures { result ≡ slice_get (holders_of self.now.state.parts.lists.handles guid) index }
    {
        self.protocols
            .handles()
            .by_protocol(guid)
            .get(index)
            .copied()
    }

    /// All live handles, by ascending number.
    pub fn handle_list(&self) -> &[u64]
        ensures { result.now ≡ numbers self.now.state.parts.lists.handles }
    {
        self.protocols.handles().all()
    }

    /// All handles that carry a GUID, by ascending number.
    pub fn holder_list(&self, guid: Uuid) -> &[u64]
        ensures { result.now ≡ holders_of self.now.state.parts.lists.handles guid }
    {
        self.protocols.handles().by_protocol(guid)
    }

    /// The interface at an index among those on a handle, in order of installation.
    pub fn interface(&self, handle: u64, index: usize) -> Option<Interface>
        ensures { result
            ≡ slice_get (interfaces_on self.now.state.parts.lists.handles handle) index }
    {
        self.protocols.handles().nth_interface(handle, index)
    }

    /// The value of the interface of a GUID on a handle.
    pub fn interface_value(&self, handle: u64, guid: Uuid) -> Option<u64>
        ensures { result ≡ value_at self.now.state.parts.lists.handles handle guid }
    {
        let handles = self.protocols.handles();
        handles.interface(handle, guid)
    }

    /// The item at an index among those open on an interface, in the order in which they were made.
    pub fn open_item(&self, handle: u64, guid: Uuid, index: usize) -> Option<OpenItem>
        ensures { result ≡ slice_get (items_on self.now.state.parts.lists.opens handle guid) index }
    {
        self.protocols.opens().nth_on(handle, guid, index)
    }

    /// The item at an index among the open ones of an agent, in the order in which they were made.
    pub fn agent_item(&self, agent: u64, index: usize) -> Option<OpenRecord>
        ensures { result ≡ slice_get (items_of self.now.state.parts.lists.opens agent) index }
    {
        self.protocols.opens().nth_of(agent, index)
    }

    /// Writes the items open on an interface, in the order in which they were made, as many as fit, and
    /// returns how many there are. `None`: the handle is not live, or does not carry the GUID.
    pub fn write_open_items(&self, handle: u64, guid: Uuid, out: &mut [OpenItem]) -> Option<usize>
        ensures { WritesItems self.now.state.parts.lists handle guid out.old result out.new }
    {
        self.protocols.handles().interface(handle, guid)?;
        Some(self.protocols.opens().write_on(handle, guid, out))
    }
}
