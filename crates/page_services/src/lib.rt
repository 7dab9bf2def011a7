//! The page services: AllocatePages, FreePages and the pages of the pool on a memory.
#![tactic(auto)]

mod laws;
mod page_book;

pub use laws::freed_pages_law;
pub use page_book::{
    ALLOCATE_MAX_ADDRESS, ChosenStart, PageBook, Placed, placement_request, pool_request,
};
