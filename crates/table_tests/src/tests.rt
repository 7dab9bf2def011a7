//! The parts of memory below the core.
mod checks;
mod leaf_sizes;
mod many_changes;
mod map_bytes;
mod page_lists;
mod reserved_changes;
mod shapes;
mod table_changes;
