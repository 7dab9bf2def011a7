//! Pages of memory that a maker hands over. Runs of them are taken, each as bytes of which none is set,
//! and given back.

mod cells;
mod heap;
mod memory;
mod numbered;
mod slot;

pub use heap::PageHeap;
pub use memory::PageRun;
pub use numbered::PoolMemory;
