//! The live blocks, one after the other.
use page_ranges::MemoryType;

/// A live block: its address, its size in bytes, and the type of its pages.
#[derive(Clone, Copy, Debug, PartialEq, Eq)]
pub struct PoolBlock {
    pub address: u64,
    pub size: u64,
    pub mtype: MemoryType,
}
