//! Placing pages on a memory map that a caller in C passes.
ghost use Rattle.map_placement.specs.Places.{FindsPlace, PlacesPages};

use boot_machines::Machine;
use c_machines::{MachineFault, machine_of};
use descriptor_table::RunTable;
use page_ranges::{PAGE_SIZE, Status, type_for_alloc};
use page_services::{ALLOCATE_MAX_ADDRESS, placement_request};
use placement_chooser::best_start;
use std::alloc::Allocator;

/// Finds the best place for `pages` pages of the type `mtype` on the memory that records
/// (EFI_MEMORY_DESCRIPTOR) of `descriptor_size` bytes each state, with a granule of 1 or 16 pages: the highest
/// of those after which the memory map has the fewest entries. The byte at the address `limit` is the last
/// that may belong to them. The address of the first page is put into the variable `address`, which a refusal
/// leaves as it is.
///
/// The status is a number of EFI_STATUS. INVALID_PARAMETER: the records describe no machine, or a type that no request
/// may name, or no pages. OUT_OF_RESOURCES: no place is permitted, or memory ran out.
pub fn place<A: Allocator + Copy>(
    alloc: A,
    records: &[u8],
    descriptor_size: usize,
    granule: u64,
    mtype: u32,
    pages: u64,
    limit: u64,
    address: &mut u64,
) -> u64
    ensures { PlacesPages descriptor_size records.now granule mtype pages limit address.old result
        address.new }
{
    let machine = match machine_of(alloc, records, descriptor_size, granule) {
        Ok(machine) => machine,
        Err(MachineFault::Invalid) => return Status::InvalidParameter.number(),
        Err(MachineFault::OutOfMemory) => return Status::OutOfResources.number(),
    };
    match best_address(alloc, &machine, mtype, pages, limit) {
        Ok(found) => {
            *address = found;
            Status::Success.number()
        }
        Err(status) => status.number(),
    }
}

/// The address of the best place on a machine.
fn best_address<A: Allocator + Copy>(
    alloc: A,
    machine: &Machine<A>,
    mtype: u32,
    pages: u64,
    limit: u64,
) -> Result<u64, Status>
    ensures { FindsPlace machine.now mtype pages limit result }
{
    let named = type_for_alloc(mtype)?;
    if pages == 0 {
        return Err(Status::InvalidParameter);
    }
    let granule = machine.granule();
    let Ok(table) = RunTable::from_runs(alloc, machine.runs()) else {
        return Err(Status::OutOfResources);
    };
    let Some(request) = placement_request(granule, ALLOCATE_MAX_ADDRESS, named, pages, limit) else {
        return Err(Status::OutOfResources);
    };
    match best_start(&table, &request) {
        Some(first) => Ok(first * PAGE_SIZE),
        None => Err(Status::OutOfResources),
    }
}
