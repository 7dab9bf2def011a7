//! Pages, memory types, owners and attributes: the terms that describe a memory.
#![tactic(auto)]

mod addresses;
mod cursors;
mod granules;
mod laws;
mod ranges;
mod statuses;
mod types;

pub use addresses::{PAGE_COUNT, PAGE_SIZE, pages_below};
pub use cursors::PageCursor;
pub use granules::{granule_for, is_granule, rounded};
pub use laws::{
    map_memory_law, maximal_blocks_law, maximal_runs_law, memory_map_law, retyped_law,
    retyped_types_law,
};
pub use ranges::{Descriptor, Owner, PageRange, Run};
pub use statuses::Status;
pub use types::{MemoryType, has_runtime, is_specific_purpose, type_for_alloc};
