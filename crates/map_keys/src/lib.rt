//! The memory map as bytes: GetMemoryMap, and the reader of what it wrote.
#![tactic(auto)]

mod map_records;
mod memory_maps;
mod records;

pub use memory_maps::{DESCRIPTOR_VERSION, MapReply, get_memory_map};
pub use records::{RECORD_SIZE, read_back_law, read_descriptors};
