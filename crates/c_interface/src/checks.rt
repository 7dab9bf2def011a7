//! The memory map without a call, and the check of a certificate block.
ghost use Rattle.std.specs.Prelude.{◌≡◌, ◌<◌, length, map};
ghost use Rattle.page_ranges.specs.MemoryMap.{memory_map};
ghost use Rattle.page_ranges.specs.MemoryTypes.{page_count};
ghost use Rattle.c_interface.specs.Buffers.{front_filled};
ghost use Rattle.c_interface.specs.Checks.{entry_in_c, ChecksBlock, ReturnsEntry};
ghost use Rattle.c_interface.specs.Items.{map_entry};

use crate::efi_core::EfiCore;
use certificate_blocks::{BlockFault, judge_block};
use page_ranges::{Descriptor, PAGE_SIZE, Status};
use std::alloc::Allocator;

/// An entry of the memory map: the fields of EFI_MEMORY_DESCRIPTOR but VirtualStart, which is
/// always 0.
#[repr(C)]
#[derive(Clone, Copy, Debug, PartialEq, Eq)]
pub struct MapEntry {
    pub mtype: u32,
    /// The address of its first byte.
    pub physical_start: u64,
    pub number_of_pages: u64,
    pub attribute: u64,
}

/// An entry as C has it.
fn entry_in_c(entry: &Descriptor) -> MapEntry
    requires { entry.now.first < page_count }
    ensures { result ≡ entry_in_c entry.now }
{
    MapEntry {
        mtype: entry.mtype.number(),
        physical_start: entry.first * PAGE_SIZE,
        number_of_pages: entry.pages,
        attribute: entry.attributes,
    }
}

impl<A: Allocator + Copy> EfiCore<A> {
    /// How many entries the memory map has.
    pub fn descriptors(&self) -> usize
        ensures { result ≡ length (memory_map self.now.core.state.parts.book.memory) }
    {
        self.core.descriptors()
    }

    /// The entry of the memory map at an index, by ascending page.
    ///
    /// NOT_FOUND: there is none.
    pub fn descriptor(&self, index: usize, entry: &mut MapEntry) -> u64
        ensures { ReturnsEntry (map_entry self.now index) entry.old result entry.new }
    {
        // This contract says that the memory is proper, and so that an entry's address is one of 64 bits.
        let _count = self.core.descriptors();
        match self.core.descriptor(index) {
            Some(found) => {
                *entry = entry_in_c(&found);
                Status::Success.number()
            }
            None => Status::NotFound.number(),
        }
    }

    /// How many entries the memory map has. The first of them are copied into `entries`, as many as it has room
    /// for.
    pub fn map(&self, entries: &mut [MapEntry]) -> usize
        ensures count { result ≡ length (memory_map self.now.core.state.parts.book.memory) }
        ensures entries { entries.new ≡ front_filled
            (map entry_in_c (memory_map self.now.core.state.parts.book.memory)) entries.old }
    {
        let count = self.core.descriptors();
        let mut used = 0;
        for found in self.core.map_entries() {
            if used == entries.len() {
                return count;
            }
            entries[used] = entry_in_c(&found);
            used += 1;
        }
        count
    }
}

/// Judges a certificate block: SUCCESS if its certificate is accepted, ACCESS_DENIED if it is refused.
///
/// INVALID_PARAMETER: the text is no block; the variable receives its first line that is wrong or missing.
/// OUT_OF_RESOURCES: memory ran out.
pub fn check_block<A: Allocator + Copy>(alloc: A, text: &[u8], line: &mut u64) -> u64
    ensures { ChecksBlock text.now line.old result line.new }
{
    let mut verdict = Vec::new(alloc);
    let status = match judge_block(alloc, text, &mut verdict) {
        Ok(true) => Status::Success,
        Ok(false) => Status::AccessDenied,
        Err(BlockFault::Line { number }) => {
            *line = number;
            Status::InvalidParameter
        }
        Err(_) => Status::OutOfResources,
    };
    status.number()
}
