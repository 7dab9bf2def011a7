//! The records of the memory map of runs in leaves.
ghost use Rattle.std.specs.Prelude.{◌≡◌, ◌+◌, ◌*◌, ◌≤◌, ◌<◌, ◌^◌, ◌++◌, length, take, drop};
ghost use Rattle.page_ranges.specs.MemoryTypes.{page_count};
ghost use Rattle.page_ranges.specs.MemoryMap.{should_be_one};
ghost use Rattle.page_ranges.specs.Runs.{AreRuns};
ghost use Rattle.descriptor_table.specs.Leaves.{runs_in, AreLeaves};
ghost use Rattle.descriptor_table.specs.LeafWalks.{map_of_runs};
ghost use Rattle.descriptor_table.specs.Tables.{entry_of, EndBy};
ghost use Rattle.map_keys.specs.Making.{last_entry, whole_entries, with_records, IsAmongPages};
ghost use Rattle.map_keys.specs.Records.{record_size, records};

use crate::records::{RECORD_SIZE, write_record};
use descriptor_table::{Leaf, block_of};
use page_ranges::{Descriptor, Run};
use std::alloc::Allocator;

/// The run begins where the entry ends, and has its type and attributes. The types are compared first, since
/// they differ where most entries end.
#[inline(always)]
fn goes_on(entry: &Descriptor, run: &Run) -> bool
    requires { entry.now.first + entry.now.pages < 2 ^ 64 }
    ensures { result ≡ should_be_one entry.now (entry_of run.now) }
{
    entry.mtype == run.mtype
        && entry.attributes == run.attributes
        && entry.first + entry.pages == run.range.first
}

/// Writes the records of the entries that are whole once some runs have come behind an entry, into the
/// bytes of a buffer from a place on. Returns the place behind them, and the entry that is not whole
/// yet.
#[inline(always)]
fn write_whole(
    buffer: &mut [u8],
    place: usize,
    begun: Descriptor,
    runs: &[Run],
) -> (usize, Descriptor)
    requires runs { AreRuns runs.now }
    requires ends { EndBy page_count runs.now }
    requires among { IsAmongPages begun }
    requires room { place + record_size * length (whole_entries begun runs.now)
        ≤ length buffer.old }
    ensures used { result.0 ≡ place + record_size * length (whole_entries begun runs.now) }
    ensures entry { result.1 ≡ last_entry begun runs.now }
    ensures among { IsAmongPages result.1 }
    ensures buffer { buffer.new ≡ take place buffer.old ++ records (whole_entries begun runs.now)
        ++ drop result.0 buffer.old }
{
    let mut used = place;
    let mut entry = begun;
    for run in runs {
        if goes_on(&entry, run) {
            entry.pages += run.range.pages;
            continue;
        }
        write_record(&mut buffer[used..], &entry);
        used += RECORD_SIZE;
        entry = block_of(run);
    }
    (used, entry)
}

/// Writes the records of the memory map of runs in leaves into the front of a buffer.
pub(crate) fn write_map<A: Allocator + Copy>(buffer: &mut [u8], leaves: &[Leaf<A>])
    requires leaves { AreLeaves leaves.now }
    requires runs { AreRuns (runs_in leaves.now) }
    requires ends { EndBy page_count (runs_in leaves.now) }
    requires room { record_size * length (map_of_runs (runs_in leaves.now)) ≤ length buffer.old }
    ensures { buffer.new ≡ with_records (map_of_runs (runs_in leaves.now)) buffer.old }
{
    let Some(leaf) = leaves.first() else {
        return;
    };
    let first = leaf.runs()[0];
    let mut used = 0;
    // An entry of no pages, in which the first run goes on.
    let mut entry = Descriptor {
        pages: 0,
        ..block_of(&first)
    };
    for leaf in leaves {
        let (next, rest) = write_whole(buffer, used, entry, leaf.runs());
        used = next;
        entry = rest;
    }
    write_record(&mut buffer[used..], &entry);
}
