//! Ranges of pages, and what a range of a memory is.
use crate::types::MemoryType;

/// A number of pages in a row, from a first page number on.
#[derive(Clone, Copy, Debug, Default, PartialEq, Eq)]
pub struct PageRange {
    pub first: u64,
    pub pages: u64,
}

/// Who placed a page.
#[derive(Clone, Copy, Debug, Default, PartialEq, Eq)]
pub enum Owner {
    /// The machine's own, and every conventional page.
    #[default]
    Given,
    /// Placed by AllocatePages.
    Pages,
    /// Placed for an extent of the pool.
    Pool,
}

/// Pages in a row of one type, one set of attributes and one owner.
// The owner is beside the type, with which it has 8 bytes.
#[derive(Clone, Copy, Debug, Default, PartialEq, Eq)]
pub struct Run {
    pub range: PageRange,
    pub mtype: MemoryType,
    pub owner: Owner,
    pub attributes: u64,
}

/// An entry of the memory map (EFI_MEMORY_DESCRIPTOR), its place in pages.
#[derive(Clone, Copy, Debug, PartialEq, Eq)]
pub struct Descriptor {
    pub mtype: MemoryType,
    pub first: u64,
    pub pages: u64,
    pub attributes: u64,
}
