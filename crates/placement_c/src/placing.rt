//! Placing pages with no core.
ghost use Rattle.map_placement.specs.Places.{PlacesPages};

use map_placement::place;
use region_heap::{Region, RegionHeap};

/// Finds the best place for pages of a type on the memory that EFI_MEMORY_DESCRIPTORs describe, up to the byte at the
/// address `limit`. The variable `address` receives the address of the first page; a refusal leaves it. The region is
/// the caller's again afterwards.
///
/// INVALID_PARAMETER: the records describe no machine, a memory type that no request may name, or no pages.
/// OUT_OF_RESOURCES: there is no place, or the region is too small.
#[unsafe(no_mangle)]
pub extern "C" fn RafkudinPlaceInRegion(
    region: Region,
    records: &[u8],
    descriptor_size: usize,
    granule: u64,
    mtype: u32,
    pages: u64,
    limit: u64,
    address: &mut u64,
) -> u64
    ensures { PlacesPages descriptor_size records.now granule mtype pages limit address.old result
        address.new }
{
    let heap = RegionHeap::new(region);
    place(
        &heap,
        records,
        descriptor_size,
        granule,
        mtype,
        pages,
        limit,
        address,
    )
}
