//! Making and freeing cores.
ghost use Rattle.std.specs.Prelude.{◌≡◌, ◌<◌, IfOk, IfSome, MatchOption};
ghost use Rattle.std.specs.Borrow.{sem};
ghost use Rattle.boot_core.specs.Machines.{prepared_placements};
ghost use Rattle.c_interface.specs.EfiCores.{preparing_core};
ghost use Rattle.boot_services_c.specs.MadeCores.{Holds, HoldsOver, MakesPlace, Refuses};
ghost use Rattle.boot_services_c.specs.Places.{freed_at};

use crate::blocks::Block;
use crate::handle::Rafkudin;
use crate::place::Place;
use boot_core::PREPARED_PLACEMENTS;
use c_interface::EfiCore;
use c_machines::{DriverTable, are_tables};
use page_ranges::Status;
use pool_services::PoolMemory;
use raw_pool::{PageHeap, PageRun};
use std::alloc::Global;

/// Makes a core of EFI_MEMORY_DESCRIPTORs, a granule of 1 or 16 pages and up to 64 drivers, and puts its
/// pointer into the variable `core`, which a refusal leaves as it is. The core has memory reserved ahead for 64
/// placements of pages.
///
/// INVALID_PARAMETER: the records describe no machine, or the tables describe no drivers. OUT_OF_RESOURCES: memory ran
/// out.
#[unsafe(no_mangle)]
pub extern "C" fn RafkudinMake(
    alloc: Global,
    records: &[u8],
    descriptor_size: usize,
    granule: u64,
    drivers: &[DriverTable],
    core: &mut Place,
) -> u64
    ensures made { result ≡ 0
        → Holds descriptor_size records.now granule drivers.now core.new.held }
    ensures refused { 0 < result
        → Refuses descriptor_size records.now granule drivers.now result }
    ensures kept { 0 < result → core.new ≡ core.old }
{
    match made(alloc, records, descriptor_size, granule, drivers) {
        Ok(place) => {
            *core = place;
            Status::Success.number()
        }
        Err(status) => status,
    }
}

/// The same, whose pool lies in pages of memory that are those of the machine from its page `first` on: the bytes of a
/// block are those at its address. What is kept of each page stays allocated, also where no core is made.
///
/// INVALID_PARAMETER, OUT_OF_RESOURCES: as of `RafkudinMake`.
#[unsafe(no_mangle)]
pub extern "C" fn RafkudinMakeOver(
    alloc: Global,
    run: PageRun,
    first: u64,
    records: &[u8],
    descriptor_size: usize,
    granule: u64,
    drivers: &[DriverTable],
    core: &mut Place,
) -> u64
    ensures made { result ≡ 0
        → Holds descriptor_size records.now granule drivers.now core.new.held }
    ensures refused { 0 < result
        → Refuses descriptor_size records.now granule drivers.now result }
    ensures kept { 0 < result → core.new ≡ core.old }
    ensures over { result ≡ 0 → HoldsOver first core.new.held }
{
    match made_over(
        alloc,
        run,
        first,
        records,
        descriptor_size,
        granule,
        drivers,
    ) {
        Ok(made) => {
            *core = made;
            Status::Success.number()
        }
        Err(refusal) => refusal,
    }
}

/// Frees all memory of a core. A null pointer is allowed, and does nothing.
#[unsafe(no_mangle)]
pub unsafe extern "C" fn RafkudinFree(alloc: Global, core: *mut Rafkudin)
    requires* { sem 𝓛 (freed_at alloc core) }
{
    if !core.is_null() {
        free(Block {
            start: core,
            heap: alloc,
        });
    }
}

/// The pointer to a core that is made.
fn made(
    alloc: Global,
    records: &[u8],
    descriptor_size: usize,
    granule: u64,
    drivers: &[DriverTable],
) -> Result<Place, u64>
    ensures { MakesPlace descriptor_size records.now granule drivers.now result }
{
    let core = EfiCore::make(alloc, records, descriptor_size, granule, drivers)?;
    pointer_to(alloc, core).ok_or(Status::OutOfResources.number())
}

/// The pointer to a core that is made over pages.
fn made_over(
    alloc: Global,
    run: PageRun,
    first: u64,
    records: &[u8],
    descriptor_size: usize,
    granule: u64,
    drivers: &[DriverTable],
) -> Result<Place, u64>
    ensures makes { MakesPlace descriptor_size records.now granule drivers.now result }
    ensures over { IfOk result (λ place. HoldsOver first place.held) }
{
    if !are_tables(drivers) {
        return Err(Status::InvalidParameter.number());
    }
    let Ok(heap) = PageHeap::lasting(alloc, run) else {
        return Err(Status::OutOfResources.number());
    };
    let memory = PoolMemory { heap, first };
    let core = EfiCore::make_over(alloc, records, descriptor_size, granule, drivers, memory)?;
    pointer_to(alloc, core).ok_or(Status::OutOfResources.number())
}

/// The pointer to a core that is moved to the heap, with memory for its first placements; none where memory runs out.
fn pointer_to(alloc: Global, core: EfiCore) -> Option<Place>
    ensures { IfSome result (λ place. MatchOption place.held ⊥ (λ handle.
        handle.core ≡ preparing_core prepared_placements core)) }
{
    let mut core = core;
    core.prepare(PREPARED_PLACEMENTS).ok()?;
    let core = Box::new(alloc, core).ok()?;
    let handle = Box::new(alloc, Rafkudin::new(Block::new(core))).ok()?;
    Some(Place::new(Block::new(handle)))
}

/// Frees what the core in a block takes.
fn free(core: Block<Rafkudin, Global>) {
    drop(core.boxed());
}
