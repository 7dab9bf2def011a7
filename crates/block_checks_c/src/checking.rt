//! Judging certificates.
ghost use Rattle.c_interface.specs.Checks.{ChecksBlock};

use c_interface::check_block;
use region_heap::{Region, RegionHeap};

/// Judges a certificate block: SUCCESS if it is accepted. The region is the caller's again afterwards.
///
/// ACCESS_DENIED: it is refused. INVALID_PARAMETER: it is no block; the variable `line` is given its first line
/// that is wrong or missing. OUT_OF_RESOURCES: the region is too small.
#[unsafe(no_mangle)]
pub extern "C" fn RafkudinCheckInRegion(region: Region, text: &[u8], line: &mut u64) -> u64
    ensures { ChecksBlock text.now line.old result line.new }
{
    let heap = RegionHeap::new(region);
    check_block(&heap, text, line)
}
