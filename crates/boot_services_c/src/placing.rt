//! Placing pages and judging certificates with no core.
ghost use Rattle.c_interface.specs.Checks.{ChecksBlock};
ghost use Rattle.map_placement.specs.Places.{PlacesPages};

use c_interface::check_block;
use map_placement::place;
use std::alloc::Global;

/// Finds the best place for pages of a type on the memory that EFI_MEMORY_DESCRIPTORs describe, up to the byte at the
/// address `limit`. The variable `address` receives the address of the first page; a refusal leaves it.
///
/// INVALID_PARAMETER: the records describe no machine, a memory type that no request may name, or no pages.
/// OUT_OF_RESOURCES: there is no place, or memory ran out.
#[unsafe(no_mangle)]
pub extern "C" fn RafkudinPlace(
    alloc: Global,
    records: &[u8],
    descriptor_size: usize,
    granule: u64,
    mtype: u32,
    pages: u64,
    limit: u64,
    address: &mut u64,
) -> u64
    ensures { PlacesPages descriptor_size records.now granule mtype pages limit address.old result
        address.new }
{
    place(
        alloc,
        records,
        descriptor_size,
        granule,
        mtype,
        pages,
        limit,
        address,
    )
}

/// Judges a certificate block: SUCCESS if it is accepted.
///
/// ACCESS_DENIED: it is refused. INVALID_PARAMETER: it is no block; the variable `line` is given its first line
/// that is wrong or missing. OUT_OF_RESOURCES: memory ran out.
#[unsafe(no_mangle)]
pub extern "C" fn RafkudinCheck(alloc: Global, text: &[u8], line: &mut u64) -> u64
    ensures { ChecksBlock text.now line.old result line.new }
{
    check_block(alloc, text, line)
}
