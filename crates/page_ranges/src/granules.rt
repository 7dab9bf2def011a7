//! Granules: the pages in which a machine places memory of some types.
ghost use Rattle.std.specs.Prelude.{◌≡◌, ◌↔◌, IsTrue};
ghost use Rattle.page_ranges.specs.Granules.{IsGranule, granule_for, if_64_bits, is_granular, rounded};

use crate::types::MemoryType;

/// Whether a machine may have a granule of this many pages.
pub fn is_granule(granule: u64) -> bool
    ensures { IsTrue result ↔ IsGranule granule }
{
    granule == 1 || granule == 16
}

/// The granule of a type on a machine with a granule, in pages: the machine's for reserved memory,
/// for code and data of runtime services and for ACPI non-volatile storage, else 1.
pub fn granule_for(mtype: MemoryType, granule: u64) -> u64
    ensures { result ≡ granule_for mtype granule }
{
    if is_granular(mtype.number()) {
        granule
    } else {
        1
    }
}

// Whether the type of a number fills granules.
fn is_granular(number: u32) -> bool
    ensures { result ≡ is_granular number }
{
    number == 0 || number == 5 || number == 6 || number == 10
}

/// The least multiple of a granule that is not below a number of pages, or None where it has more
/// than 64 bits. A granule of 0 leaves the pages as they are.
pub fn rounded(pages: u64, granule: u64) -> Option<u64>
    ensures { result ≡ if_64_bits (rounded pages granule) }
{
    if granule == 0 {
        return Some(pages);
    }
    let over = pages % granule;
    if over == 0 {
        Some(pages)
    } else {
        pages.checked_add(granule - over)
    }
}
