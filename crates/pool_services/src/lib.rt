//! The pool: AllocatePool, FreePool, and the bytes of pool blocks, on the pages of a book.
#![tactic(auto)]

mod extent_group;
mod extent_groups;
mod extents;
mod laws;
mod listed;
mod pools;
mod regions;
mod room;
mod rooms;
mod searches;

pub use laws::{
    allocated_bytes_law, filled_bytes_law, freed_bytes_law, freed_keeps_pool_law, given_pages_law,
    placed_keeps_pool_law, read_bytes_law, reserved_ends_law, written_bytes_law,
    written_keeps_pool_law,
};
pub use listed::PoolBlock;
pub use pools::{Pools, extent_request};
pub use raw_pool::PoolMemory;
