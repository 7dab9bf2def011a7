//! Making cores.
ghost use Rattle.std.specs.Prelude.{◌≡◌, ◌<◌};
ghost use Rattle.region_cores.specs.MadeCores.{Holds, HoldsOver, Refuses};
ghost use Rattle.region_services_c.specs.Rooms.{room_for};

use c_machines::DriverTable;
use page_ranges::Status;
use raw_pool::PageRun;
use region_cores::{Place, Rafkudin, make_in, make_over};
use region_heap::Region;

/// What a core takes of its region: always, for an entry of the memory map, for a handle with 8 interfaces, and
/// for a page of the pool.
const BYTES_ALWAYS: u64 = 16384;

const BYTES_FOR_ENTRY: u64 = 512;

const BYTES_FOR_HANDLE: u64 = 4096;

const BYTES_FOR_PAGE: u64 = 8192;

/// The most that a number counts of each.
const MAX_COUNTED: u64 = 0xffff_ffff;

/// Makes a core of EFI_MEMORY_DESCRIPTORs, a granule of 1 or 16 pages and up to 64 drivers, and puts its
/// pointer into the variable `core`, which a refusal leaves as it is. All that the core allocates, now and in its
/// calls, lies in the region.
///
/// INVALID_PARAMETER: the records describe no machine, or the tables describe no drivers. OUT_OF_RESOURCES: the region
/// is too small.
#[unsafe(no_mangle)]
pub extern "C" fn RafkudinMakeInRegion(
    region: Region,
    records: &[u8],
    descriptor_size: usize,
    granule: u64,
    drivers: &[DriverTable],
    core: &mut Place,
) -> u64
    ensures made { result ≡ 0
        → Holds descriptor_size records.now granule drivers.now core.new.held }
    ensures refused { 0 < result
        → Refuses descriptor_size records.now granule drivers.now result }
    ensures kept { 0 < result → core.new ≡ core.old }
{
    match make_in(region, records, descriptor_size, granule, drivers) {
        Ok(place) => {
            *core = place;
            Status::Success.number()
        }
        Err(status) => status,
    }
}

/// The same, whose pool lies in pages of memory that are those of the machine from its page `first` on: the bytes of a
/// block are those at its address. What is kept of each page lies in the region.
///
/// INVALID_PARAMETER, OUT_OF_RESOURCES: as of `RafkudinMakeInRegion`.
#[unsafe(no_mangle)]
pub extern "C" fn RafkudinMakeOverInRegion(
    region: Region,
    run: PageRun,
    first: u64,
    records: &[u8],
    descriptor_size: usize,
    granule: u64,
    drivers: &[DriverTable],
    core: &mut Place,
) -> u64
    ensures made { result ≡ 0
        → Holds descriptor_size records.now granule drivers.now core.new.held }
    ensures refused { 0 < result
        → Refuses descriptor_size records.now granule drivers.now result }
    ensures kept { 0 < result → core.new ≡ core.old }
    ensures over { result ≡ 0 → HoldsOver first core.new.held }
{
    match make_over(
        region,
        run,
        first,
        records,
        descriptor_size,
        granule,
        drivers,
    ) {
        Ok(made) => {
            *core = made;
            Status::Success.number()
        }
        Err(refusal) => refusal,
    }
}

/// How many bytes of a region serve a core whose memory map has this many entries at most, on which as many allocations
/// of pages and this many handles with 8 interfaces each are live at most, and whose pool has this many pages at most.
/// A number above 2^32 - 1 counts as that.
#[unsafe(no_mangle)]
pub extern "C" fn RafkudinRoom(entries: u64, handles: u64, pool_pages: u64) -> u64
    ensures { result ≡ room_for entries handles pool_pages }
{
    BYTES_ALWAYS
        + BYTES_FOR_ENTRY * entries.min(MAX_COUNTED)
        + BYTES_FOR_HANDLE * handles.min(MAX_COUNTED)
        + BYTES_FOR_PAGE * pool_pages.min(MAX_COUNTED)
}

/// Ends a core. It frees nothing: the region is its caller's again.
#[unsafe(no_mangle)]
pub extern "C" fn RafkudinFree(_core: *mut Rafkudin) {}
