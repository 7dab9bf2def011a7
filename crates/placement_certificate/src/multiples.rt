//! Multiples of a granule.
ghost use Rattle.std.specs.Prelude.{◌≡◌, ◌≤◌};
ghost use Rattle.page_ranges.specs.MemoryTypes.{page_count};
ghost use Rattle.page_ranges.specs.Granules.{IsGranule, rounded};
ghost use Rattle.placement_certificate.specs.Search.{multiple_to};

/// A machine's granule is 1 page or this many.
const LARGE_GRANULE: u64 = 16;

// The highest multiple of a granule that is at most a number. Nothing is divided by a number that is known only when
// the program runs: that takes as long as some ten runs of a search.
#[inline(always)]
pub(crate) fn multiple_to(number: u64, granule: u64) -> u64
    requires { IsGranule granule }
    ensures { result ≡ multiple_to number granule }
{
    if granule == 1 {
        return number;
    }
    number - number % LARGE_GRANULE
}

// The lowest multiple of a granule that is at least a page number.
#[inline(always)]
pub(crate) fn multiple_from(page: u64, granule: u64) -> u64
    requires granule { IsGranule granule }
    requires page { page ≤ page_count }
    ensures { result ≡ rounded page granule }
{
    multiple_to(page + (granule - 1), granule)
}
