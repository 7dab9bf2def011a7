//! Machines as C has them, in records.
ghost use Rattle.std.specs.Prelude.{◌≡◌, ◌≤◌, length, Some, None, if◌then◌else◌};
ghost use Rattle.c_machines.specs.MachineRecords.{MakesMachine, ReadsRuns, least_size, is_aligned, run_in};

use crate::faults::MachineFault;
use boot_machines::{MAX_DESCRIPTORS, Machine};
use byteorder::{ByteOrder, LittleEndian};
use page_ranges::{MemoryType, Owner, PAGE_SIZE, PageRange, Run};
use std::alloc::Allocator;

/// The fewest bytes of a record: those of EFI_MEMORY_DESCRIPTOR.
pub const LEAST_SIZE: usize = 40;

/// The machine of some records, in any order, with a granule of a number of pages. A record is an
/// EFI_MEMORY_DESCRIPTOR, and what follows it up to the descriptor size.
///
/// Invalid where the descriptor size is below 40, the bytes are no whole number of records or more than
/// 65,536 of them, a PhysicalStart lies within a page, or the runs that they describe are no machine's.
pub fn machine_of<A: Allocator>(
    alloc: A,
    records: &[u8],
    descriptor_size: usize,
    granule: u64,
) -> Result<Machine<A>, MachineFault>
    ensures { MakesMachine descriptor_size records.now granule result }
{
    let mut runs = runs_of(alloc, records, descriptor_size)?;
    runs.sort_unstable_by_key(|run| run.range.first);
    Machine::new(runs, granule).ok_or(MachineFault::Invalid)
}

/// The runs that records describe, in their order.
fn runs_of<A: Allocator>(alloc: A, records: &[u8], size: usize) -> Result<Vec<Run, A>, MachineFault>
    ensures { ReadsRuns size records.now result }
{
    if size < LEAST_SIZE || records.len() % size != 0 || records.len() / size > MAX_DESCRIPTORS {
        return Err(MachineFault::Invalid);
    }
    let mut runs = Vec::with_capacity(alloc, records.len() / size)?;
    for record in records.chunks_exact(size) {
        match run_in(record) {
            Some(run) => runs.push(run)?,
            None => return Err(MachineFault::Invalid),
        }
    }
    Ok(runs)
}

/// The run that a record describes, None where its start lies within a page.
fn run_in(bytes: &[u8]) -> Option<Run>
    requires { least_size ≤ length bytes.now }
    ensures { result ≡ (if is_aligned bytes.now then Some (run_in bytes.now) else None) }
{
    let start = LittleEndian::read_u64(&bytes[8..]);
    if start % PAGE_SIZE != 0 {
        return None;
    }
    let range = PageRange {
        first: start / PAGE_SIZE,
        pages: LittleEndian::read_u64(&bytes[24..]),
    };
    Some(Run {
        range,
        mtype: MemoryType::new(LittleEndian::read_u32(bytes)),
        attributes: LittleEndian::read_u64(&bytes[32..]),
        owner: Owner::Given,
    })
}
