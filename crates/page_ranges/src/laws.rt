//! The laws of memories, maps and runs, each the contract of a function that does nothing.
ghost use Rattle.page_ranges.specs.Laws.{MaximalBlocksLaw, MapMemoryLaw, MemoryMapLaw, MaximalRunsLaw, RetypedLaw, RetypedTypesLaw};

/// The memory map is the list of the maximal blocks of equal type and attributes.
pub fn maximal_blocks_law()
    ensures { MaximalBlocksLaw }
{}

/// A list that is a map is the map of the memory that it represents.
pub fn map_memory_law()
    ensures { MapMemoryLaw }
{}

/// The map of a proper memory of machine types is a list that is a map.
pub fn memory_map_law()
    ensures { MemoryMapLaw }
{}

/// A memory has just one list of maximal runs.
pub fn maximal_runs_law()
    ensures { MaximalRunsLaw }
{}

/// A memory stays proper when a range of it gets a type and an owner.
pub fn retyped_law()
    ensures { RetypedLaw }
{}

/// A memory keeps to types of machines when a range of it gets a type that a request may name, or
/// the conventional one.
pub fn retyped_types_law()
    ensures { RetypedTypesLaw }
{}
