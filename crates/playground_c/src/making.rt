//! Making cores.
ghost use Rattle.std.specs.Prelude.{◌≡◌, ◌<◌, ◌⊎◌, Ok, Err, MatchOption};
ghost use Rattle.page_ranges.specs.Statuses.{status_number};
ghost use Rattle.page_ranges.specs.declared.statuses.Status.TheVariants.{Success, OutOfResources};
ghost use Rattle.c_interface.specs.EfiCores.{certifying_core};
ghost use Rattle.c_interface.specs.Making.{MakesCore};
ghost use Rattle.region_cores.specs.Cores.{CoreHeap};

use c_machines::DriverTable;
use page_ranges::Status;
use region_cores::{Place, Rafkudin, make_in};
use region_heap::{Region, RegionHeap};

/// Makes a core of EFI_MEMORY_DESCRIPTORs, a granule of 1 or 16 pages and up to 64 drivers, and puts its
/// pointer into the variable `core`, which a refusal leaves as it is. All that the core allocates lies in the region.
///
/// INVALID_PARAMETER: the records describe no machine, or the tables describe no drivers. OUT_OF_RESOURCES: the region
/// is too small.
#[unsafe(no_mangle)]
pub extern "C" fn PlaygroundMake(
    region: Region,
    records: &[u8],
    descriptor_size: usize,
    granule: u64,
    drivers: &[DriverTable],
    core: &mut Place,
) -> u64
    ensures made { result ≡ 0
        → MatchOption core.new.held ⊥
        (λ handle. MakesCore {A = CoreHeap} descriptor_size records.now granule drivers.now
        (Ok handle.core)) }
    ensures refused { 0 < result
        → MakesCore {A = CoreHeap} descriptor_size records.now granule drivers.now (Err result)
        × (core.new ≡ core.old) }
{
    match make_in(region, records, descriptor_size, granule, drivers) {
        Ok(place) => {
            *core = place;
            Status::Success.number()
        }
        Err(status) => status,
    }
}

/// From now on the core's lines are read, and their texts printed, in a region of their own, so that the core's region
/// has what stays alone.
///
/// OUT_OF_RESOURCES: the region is too small, and nothing changes.
#[unsafe(no_mangle)]
pub extern "C" fn PlaygroundReadIn(core: &mut Rafkudin, region: Region) -> u64
    ensures status { (result ≡ status_number Success) ⊎ (result ≡ status_number OutOfResources) }
    ensures kept { core.new.core ≡ core.old.core }
{
    let Some(heap) = RegionHeap::lasting(region) else {
        return Status::OutOfResources.number();
    };
    core.held().leave_in(heap);
    Status::Success.number()
}

/// Makes the certificates of placements from now on, or makes none.
#[unsafe(no_mangle)]
pub extern "C" fn PlaygroundCertify(core: &mut Rafkudin, certify: bool)
    ensures { core.new.core ≡ certifying_core certify core.old.core }
{
    core.held().certify(certify);
}
