//! A heap in a region of memory that its maker passes.
#![tactic(auto)]

mod cells;
mod heap;
mod memory;
mod slot;
#[cfg(test)]
mod tests;

pub use heap::RegionHeap;
pub use memory::Region;
