//! Making cores.
ghost use Rattle.std.specs.Prelude.{◌≡◌, IfOk, IfSome, MatchOption};
ghost use Rattle.region_cores.specs.MadeCores.{HoldsOver, MakesPlace};

use crate::handle::Rafkudin;
use crate::lasting::Lasting;
use crate::place::Place;
use c_interface::EfiCore;
use c_machines::{DriverTable, are_tables};
use page_ranges::Status;
use pool_services::PoolMemory;
use raw_pool::{PageHeap, PageRun};
use region_heap::{Region, RegionHeap};

/// The pointer to a core that is made of EFI_MEMORY_DESCRIPTORs, a granule of 1 or 16 pages and up to 64 drivers. All
/// that it allocates, now and in its calls, lies in the region.
///
/// The error is a number of EFI_STATUS. INVALID_PARAMETER: the records describe no machine, or the tables describe no
/// drivers. OUT_OF_RESOURCES: the region is too small.
pub fn make_in(
    region: Region,
    records: &[u8],
    descriptor_size: usize,
    granule: u64,
    drivers: &[DriverTable],
) -> Result<Place, u64>
    ensures { MakesPlace descriptor_size records.now granule drivers.now result }
{
    make(region, None, records, descriptor_size, granule, drivers)
}

/// The same, whose pool lies in pages of memory that are those of the machine from its page `first` on: the bytes of a
/// block are those at its address. What is kept of each page lies in the region.
pub fn make_over(
    region: Region,
    run: PageRun,
    first: u64,
    records: &[u8],
    descriptor_size: usize,
    granule: u64,
    drivers: &[DriverTable],
) -> Result<Place, u64>
    ensures makes { MakesPlace descriptor_size records.now granule drivers.now result }
    ensures over { IfOk result (λ place. HoldsOver first place.held) }
{
    let pages = Some((run, first));
    make(region, pages, records, descriptor_size, granule, drivers)
}

/// The pointer to a core in a region, whose pool lies in a run of pages, if there is one, from a page of the machine
/// on.
fn make(
    region: Region,
    pages: Option<(PageRun, u64)>,
    records: &[u8],
    descriptor_size: usize,
    granule: u64,
    drivers: &[DriverTable],
) -> Result<Place, u64>
    ensures makes { MakesPlace descriptor_size records.now granule drivers.now result }
    ensures over { IfOk result (λ place. IfSome pages (λ p. HoldsOver p.1 place.held)) }
{
    if !are_tables(drivers) {
        return Err(Status::InvalidParameter.number());
    }
    let Some(heap) = RegionHeap::lasting(region) else {
        return Err(Status::OutOfResources.number());
    };
    let core = match pages {
        None => EfiCore::make(heap, records, descriptor_size, granule, drivers)?,
        Some((run, first)) => {
            let Ok(pages) = PageHeap::lasting(heap, run) else {
                return Err(Status::OutOfResources.number());
            };
            let memory = PoolMemory { heap: pages, first };
            EfiCore::make_over(heap, records, descriptor_size, granule, drivers, memory)?
        }
    };
    pointer_to(heap, core).ok_or(Status::OutOfResources.number())
}

/// The pointer to a core that is moved to its heap; none where memory runs out.
fn pointer_to(heap: &'static RegionHeap, core: EfiCore<&'static RegionHeap>) -> Option<Place>
    ensures { IfSome result
        (λ place. MatchOption place.held ⊥ (λ handle. handle.core ≡ core.entry)) }
{
    let core = Box::new(heap, core).ok()?;
    let handle = Box::new(heap, Rafkudin::new(Lasting::new(core))).ok()?;
    Some(Place::new(Lasting::new(handle)))
}
