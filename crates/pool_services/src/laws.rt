//! The laws of the pool, each the contract of a function that does nothing.
ghost use Rattle.page_services.specs.PageRules.{IsAnyStart, IsBestChoice};
ghost use Rattle.pool_services.specs.Laws.{AllocatedBytesLaw, FilledBytesLaw, FreedBytesLaw, FreedKeepsEndsLaw, FreedKeepsPoolLaw, GivenPagesLaw, PlacedKeepsEndsLaw, PlacedKeepsPoolLaw, ReadBytesLaw, WrittenBytesLaw, WrittenKeepsPoolLaw};

use std::alloc::Allocator;

/// The pages of a machine at first are no pool's.
pub fn given_pages_law()
    ensures { GivenPagesLaw }
{}

/// AllocatePages leaves the pages of the pool, wherever it places others.
pub fn placed_keeps_pool_law<A: Allocator>()
    ensures any { PlacedKeepsPoolLaw IsAnyStart A }
    ensures best { PlacedKeepsPoolLaw IsBestChoice A }
{}

/// FreePages leaves the pages of the pool.
pub fn freed_keeps_pool_law()
    ensures { FreedKeepsPoolLaw }
{}

/// AllocatePages and FreePages leave what memory is reserved for the ends of extents.
pub fn reserved_ends_law<A: Allocator>()
    ensures placed_any { PlacedKeepsEndsLaw IsAnyStart A }
    ensures placed_best { PlacedKeepsEndsLaw IsBestChoice A }
    ensures freed { FreedKeepsEndsLaw }
{}

/// A write into a block leaves the pages of the pool.
pub fn written_keeps_pool_law()
    ensures { WrittenKeepsPoolLaw }
{}

/// A read returns the bytes at its addresses.
pub fn read_bytes_law()
    ensures { ReadBytesLaw }
{}

/// A write puts its bytes at its addresses, and changes no other byte of any block.
pub fn written_bytes_law()
    ensures { WrittenBytesLaw }
{}

/// A new block's bytes are 0 and lay in no block before; AllocatePool changes no other byte.
pub fn allocated_bytes_law()
    ensures { AllocatedBytesLaw IsBestChoice }
{}

/// A block that is filled has the bytes that it was filled with, which lay in no block before; no
/// other byte changes.
pub fn filled_bytes_law()
    ensures { FilledBytesLaw IsBestChoice }
{}

/// FreePool takes the bytes of the block at the address away, and changes no other byte.
pub fn freed_bytes_law()
    ensures { FreedBytesLaw }
{}
