//! Raw pool memory: blocks in a region of whole pages, with the free list in its free cells.
#![tactic(auto)]

mod pages;
mod pool;
mod raw_bytes;
mod region;
mod store;

pub use pages::{PageHeap, PageRun, PoolMemory};
pub use pool::RawPool;
pub use raw_bytes::RawBytes;
pub use store::{CELL_SIZE, HEADER_SIZE, PAGE_CELLS};
