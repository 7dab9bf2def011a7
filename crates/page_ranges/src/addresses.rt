//! Physical addresses and page numbers.
ghost use Rattle.std.specs.Prelude.{◌≡◌};
ghost use Rattle.page_ranges.specs.MemoryTypes.{pages_below};

/// The bytes of a page (EFI_PAGE_SIZE).
pub const PAGE_SIZE: u64 = 4096;

/// How many pages there can be: a page number is below this.
pub const PAGE_COUNT: u64 = 0x10_0000_0000_0000;

/// How many whole pages lie at or below the byte at `address`: the page limit of a request whose
/// uppermost byte may be at that address.
pub fn pages_below(address: u64) -> u64
    ensures { result ≡ pages_below address }
{
    if address % PAGE_SIZE == PAGE_SIZE - 1 {
        address / PAGE_SIZE + 1
    } else {
        address / PAGE_SIZE
    }
}
