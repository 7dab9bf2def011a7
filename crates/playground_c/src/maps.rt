//! The memory map, without a call.
ghost use Rattle.std.specs.Prelude.{◌≡◌, length, map};
ghost use Rattle.page_ranges.specs.MemoryMap.{memory_map};
ghost use Rattle.c_interface.specs.Buffers.{front_filled};
ghost use Rattle.c_interface.specs.Checks.{entry_in_c, ReturnsEntry};
ghost use Rattle.c_interface.specs.Items.{map_entry};
ghost use Rattle.c_interface.specs.Versions.{version};

use c_interface::{MapEntry, VERSION};
use region_cores::Rafkudin;

/// The version of the module: the major number in the bits from 16 on, the minor one in those from 8 on.
#[unsafe(no_mangle)]
pub extern "C" fn PlaygroundVersion() -> u32
    ensures { result ≡ version }
{
    VERSION
}

/// How many entries the memory map has. The first of them are copied into `entries`, as many as it has room for.
#[unsafe(no_mangle)]
pub extern "C" fn PlaygroundMap(core: &mut Rafkudin, entries: &mut [MapEntry]) -> usize
    ensures count { result ≡ length (memory_map core.old.core.core.state.parts.book.memory) }
    ensures entries { entries.new ≡ front_filled
        (map entry_in_c (memory_map core.old.core.core.state.parts.book.memory)) entries.old }
    ensures kept { core.new.core ≡ core.old.core }
{
    core.held().map(entries)
}

/// The entry of the memory map at an index, by ascending address.
///
/// NOT_FOUND: there is none.
#[unsafe(no_mangle)]
pub extern "C" fn PlaygroundDescriptor(
    core: &mut Rafkudin,
    index: usize,
    entry: &mut MapEntry,
) -> u64
    ensures returned { ReturnsEntry
        (map_entry core.old.core index) entry.old result
        entry.new }
    ensures kept { core.new.core ≡ core.old.core }
{
    core.held().descriptor(index, entry)
}
