//! What C asks of a core one item after the other. None of these is a service or takes memory of the machine.
ghost use Rattle.std.specs.Prelude.{◌≡◌, length};
ghost use Rattle.c_interface.specs.Items.{ListsItems, open_item_at};
ghost use Rattle.c_interface.specs.Questions.{FillsWith, ReturnsFound, agent_item_at, block_from, handle_at, holder_at, holders, interface_at, live_handles, page_run, page_runs};

use crate::handle::Rafkudin;
use c_interface::{BlockEntry, OpenEntry, OpenItem, RunEntry};
use c_machines::{Guid, Interface};

/// The live block of the pool with the lowest address at or above one.
///
/// NOT_FOUND: there is none.
#[unsafe(no_mangle)]
pub extern "C" fn RafkudinBlockFrom(
    core: &mut Rafkudin,
    address: u64,
    block: &mut BlockEntry,
) -> u64
    ensures returned { ReturnsFound (block_from core.old.core address) block.old result block.new }
    ensures kept { core.new.core ≡ core.old.core }
{
    core.held().block_from(address, block)
}

/// How many runs of pages there are, of one type, one set of attributes and one owner each.
#[unsafe(no_mangle)]
pub extern "C" fn RafkudinRuns(core: &mut Rafkudin) -> usize
    ensures count { result ≡ length (page_runs core.old.core) }
    ensures kept { core.new.core ≡ core.old.core }
{
    core.held().page_runs()
}

/// The run of pages at an index, by ascending address.
///
/// NOT_FOUND: there is none.
#[unsafe(no_mangle)]
pub extern "C" fn RafkudinRun(core: &mut Rafkudin, index: usize, entry: &mut RunEntry) -> u64
    ensures returned { ReturnsFound (page_run core.old.core index) entry.old result entry.new }
    ensures kept { core.new.core ≡ core.old.core }
{
    core.held().page_run(index, entry)
}

/// The handle at an index among the live ones, by ascending number.
///
/// NOT_FOUND: there is none.
#[unsafe(no_mangle)]
pub extern "C" fn RafkudinHandle(core: &mut Rafkudin, index: usize, handle: &mut u64) -> u64
    ensures returned { ReturnsFound (handle_at core.old.core index) handle.old result handle.new }
    ensures kept { core.new.core ≡ core.old.core }
{
    core.held().handle(index, handle)
}

/// The handle at an index among those that carry a GUID, by ascending number.
///
/// NOT_FOUND: there is none.
#[unsafe(no_mangle)]
pub extern "C" fn RafkudinHolder(
    core: &mut Rafkudin,
    guid: &Guid,
    index: usize,
    handle: &mut u64,
) -> u64
    ensures returned { ReturnsFound
        (holder_at core.old.core guid.now index) handle.old result handle.new }
    ensures kept { core.new.core ≡ core.old.core }
{
    core.held().holder(guid, index, handle)
}

/// All live handles, by ascending number, in the front of a buffer. The variable `count` receives how many there are.
///
/// BUFFER_TOO_SMALL: the buffer has no room for all of them, and is left.
#[unsafe(no_mangle)]
pub extern "C" fn RafkudinHandlesInto(
    core: &mut Rafkudin,
    buffer: &mut [u64],
    count: &mut u64,
) -> u64
    ensures returned { FillsWith
        (live_handles core.old.core) result buffer.old count.new buffer.new }
    ensures kept { core.new.core ≡ core.old.core }
{
    core.held().handles(buffer, count)
}

/// All handles that carry a GUID, by ascending number, in the same way.
#[unsafe(no_mangle)]
pub extern "C" fn RafkudinHoldersInto(
    core: &mut Rafkudin,
    guid: &Guid,
    buffer: &mut [u64],
    count: &mut u64,
) -> u64
    ensures returned { FillsWith
        (holders core.old.core guid.now) result buffer.old count.new buffer.new }
    ensures kept { core.new.core ≡ core.old.core }
{
    core.held().holders(guid, buffer, count)
}

/// The interface at an index among those on a handle, in order of installation.
///
/// NOT_FOUND: there is none.
#[unsafe(no_mangle)]
pub extern "C" fn RafkudinInterface(
    core: &mut Rafkudin,
    handle: u64,
    index: usize,
    interface: &mut Interface,
) -> u64
    ensures returned { ReturnsFound
        (interface_at core.old.core handle index) interface.old result interface.new }
    ensures kept { core.new.core ≡ core.old.core }
{
    core.held().interface(handle, index, interface)
}

/// The item at an index among those open on an interface, oldest first.
///
/// NOT_FOUND: there is none.
#[unsafe(no_mangle)]
pub extern "C" fn RafkudinOpenItem(
    core: &mut Rafkudin,
    handle: u64,
    guid: &Guid,
    index: usize,
    item: &mut OpenItem,
) -> u64
    ensures returned { ReturnsFound
        (open_item_at core.old.core handle guid.now index) item.old result item.new }
    ensures kept { core.new.core ≡ core.old.core }
{
    core.held().open_item(handle, guid, index, item)
}

/// The item at an index among those that an agent has open, oldest first.
///
/// NOT_FOUND: there is none.
#[unsafe(no_mangle)]
pub extern "C" fn RafkudinAgentItem(
    core: &mut Rafkudin,
    agent: u64,
    index: usize,
    item: &mut OpenEntry,
) -> u64
    ensures returned { ReturnsFound
        (agent_item_at core.old.core agent index) item.old result item.new }
    ensures kept { core.new.core ≡ core.old.core }
{
    core.held().agent_item(agent, index, item)
}

/// What OpenProtocolInformation lists, in a buffer of the caller's. The variable `count` receives how many items there
/// are.
///
/// NOT_FOUND: the handle is not live, or lacks the GUID. BUFFER_TOO_SMALL: the buffer has no room for all of them, and
/// is left; the variable receives how many there are.
#[unsafe(no_mangle)]
pub extern "C" fn RafkudinOpenProtocolInformationInto(
    core: &mut Rafkudin,
    handle: u64,
    guid: &Guid,
    buffer: &mut [OpenItem],
    count: &mut u64,
) -> u64
    ensures returned { ListsItems
        core.old.core handle guid.now count.old buffer.old result count.new buffer.new }
    ensures kept { core.new.core ≡ core.old.core }
{
    core.held().open_items(handle, guid, buffer, count)
}
