//! The laws of what a run prints, each the contract of a function that does nothing.
ghost use Rattle.boot_trace.specs.Laws.{MapEntriesLaw, PrintedBlocksLaw, PrintedMapsLaw};

use std::alloc::Allocator;

/// A certificate's block that a run prints is read back as the memory map before the call, the call's
/// request and the certificate, and its check says that it is accepted.
pub fn printed_blocks_law<A: Allocator>()
    ensures { PrintedBlocksLaw A }
{}

/// The bytes that a GetMemoryMap of a run wrote are read as the memory map, whose entries are printed.
pub fn printed_maps_law<A: Allocator>()
    ensures { PrintedMapsLaw A }
{}

/// The entries that are printed of a successful GetMemoryMap are those of the memory map, where
/// records can encode them.
pub fn map_entries_law<A: Allocator>()
    ensures { MapEntriesLaw A }
{}
