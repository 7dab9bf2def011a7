//! What a search for room looks for in free entries.
use page_ranges::MemoryType;

/// A search for room for pages of a type: an entry is of use if it begins below the limit, has that
/// many pages, and a placement in it may gain that much. It gains 1 for an entry that it fills, and 1
/// for each neighbour of the type that it meets.
#[derive(Clone, Copy)]
pub struct Wanted {
    pub mtype: MemoryType,
    pub pages: u64,
    pub limit: u64,
    pub gain: u64,
}
