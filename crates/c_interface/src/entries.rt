//! What questions return, as C has it.
ghost use Rattle.std.specs.Prelude.{◌≡◌, ◌<◌};
ghost use Rattle.page_ranges.specs.MemoryTypes.{page_count};
ghost use Rattle.c_interface.specs.Questions.{block_in_c, interface_in_c, open_in_c, owner_number, run_in_c};

use boot_core::{OpenRecord, PoolBlock};
use c_machines::{Guid, Interface};
use page_ranges::{Owner, PAGE_SIZE, Run};

/// A live block of the pool.
#[repr(C)]
#[derive(Clone, Copy, Debug, PartialEq, Eq)]
pub struct BlockEntry {
    pub address: u64,
    pub size: u64,
    pub mtype: u32,
}

/// Pages in a row of one type, one set of attributes and one owner.
#[repr(C)]
#[derive(Clone, Copy, Debug, PartialEq, Eq)]
pub struct RunEntry {
    pub mtype: u32,
    pub owner: u32,
    /// The address of the first byte.
    pub physical_start: u64,
    pub number_of_pages: u64,
    pub attribute: u64,
}

/// An open item: which agent has which interface open for which controller, how, and how often.
#[repr(C)]
#[derive(Clone, Copy, Debug, PartialEq, Eq)]
pub struct OpenEntry {
    pub handle: u64,
    pub guid: Guid,
    pub agent: u64,
    pub controller: u64,
    pub attributes: u32,
    pub count: u32,
}

/// A live block as C has it.
pub(crate) fn block_in_c(block: PoolBlock) -> BlockEntry
    ensures { result ≡ block_in_c block }
{
    BlockEntry {
        address: block.address,
        size: block.size,
        mtype: block.mtype.number(),
    }
}

/// The number of an owner.
fn owner_number(owner: Owner) -> u32
    ensures { result ≡ owner_number owner }
{
    match owner {
        Owner::Given => 0,
        Owner::Pages => 1,
        Owner::Pool => 2,
    }
}

/// A run of pages as C has it.
pub(crate) fn run_in_c(run: &Run) -> RunEntry
    requires { run.now.range.first < page_count }
    ensures { result ≡ run_in_c run.now }
{
    RunEntry {
        mtype: run.mtype.number(),
        owner: owner_number(run.owner),
        physical_start: run.range.first * PAGE_SIZE,
        number_of_pages: run.range.pages,
        attribute: run.attributes,
    }
}

/// An interface as C has it.
pub(crate) fn interface_in_c(interface: boot_core::Interface) -> Interface
    ensures { result ≡ interface_in_c interface }
{
    Interface {
        guid: Guid::new(&interface.guid),
        value: interface.value,
    }
}

/// An open item as C has it.
pub(crate) fn open_in_c(item: OpenRecord) -> OpenEntry
    ensures { result ≡ open_in_c item }
{
    OpenEntry {
        handle: item.handle,
        guid: Guid::new(&item.guid),
        agent: item.agent,
        controller: item.controller,
        attributes: item.attributes,
        count: item.count,
    }
}
