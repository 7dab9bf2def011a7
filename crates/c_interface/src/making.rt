//! Making a core.
ghost use Rattle.std.specs.Prelude.{◌≡◌, IfOk, None, Some};
ghost use Rattle.boot_core.specs.Machines.{new_core};
ghost use Rattle.page_ranges.specs.Statuses.{status_number};
ghost use Rattle.c_interface.specs.Making.{MakesCore, fault_status};

use crate::efi_core::EfiCore;
use boot_core::{Machine, PoolMemory, Services};
use c_machines::{DriverTable, MachineFault, are_tables, machine_of, table_drivers};
use driver_connect::TableDriver;
use page_ranges::Status;
use std::alloc::{AllocError, Allocator};

impl<A: Allocator + Copy> EfiCore<A> {
    /// The core of a machine before any call, with the most calls that a core can be left. Its memory is described by
    /// records (EFI_MEMORY_DESCRIPTOR) of `descriptor_size` bytes each, its granule is 1 or 16 pages, and the value of
    /// a driver binding interface is the index of its driver among the tables.
    ///
    /// The error is a number of EFI_STATUS. INVALID_PARAMETER: the records describe no machine, or the tables describe
    /// no drivers, which is found before memory is taken. OUT_OF_RESOURCES: memory ran out.
    pub fn make(
        alloc: A,
        records: &[u8],
        descriptor_size: usize,
        granule: u64,
        tables: &[DriverTable],
    ) -> Result<EfiCore<A>, u64>
        ensures makes { MakesCore descriptor_size records.now granule tables.now result }
        ensures memory { IfOk result (λ c. c.core.given.memory ≡ None) }
    {
        EfiCore::make_with(alloc, records, descriptor_size, granule, tables, None)
    }

    /// The same, whose pool lies in memory that the machine's pages are: the bytes of a block are those at its
    /// address.
    pub fn make_over(
        alloc: A,
        records: &[u8],
        descriptor_size: usize,
        granule: u64,
        tables: &[DriverTable],
        memory: PoolMemory,
    ) -> Result<EfiCore<A>, u64>
        ensures makes { MakesCore descriptor_size records.now granule tables.now result }
        ensures memory { IfOk result (λ c. c.core.given.memory ≡ Some memory) }
    {
        let memory = Some(memory);
        EfiCore::make_with(alloc, records, descriptor_size, granule, tables, memory)
    }

    // The core of a machine, whose pool lies in the memory, if there is one.
    fn make_with(
        alloc: A,
        records: &[u8],
        descriptor_size: usize,
        granule: u64,
        tables: &[DriverTable],
        memory: Option<PoolMemory>,
    ) -> Result<EfiCore<A>, u64>
        ensures makes { MakesCore descriptor_size records.now granule tables.now result }
        ensures memory { IfOk result (λ c. c.core.given.memory ≡ memory) }
    {
        if !are_tables(tables) {
            return Err(Status::InvalidParameter.number());
        }
        let machine = match machine_of(alloc, records, descriptor_size, granule) {
            Ok(machine) => machine,
            Err(fault) => return Err(fault_status(fault)),
        };
        let drivers = match table_drivers(alloc, tables) {
            Ok(drivers) => drivers,
            Err(fault) => return Err(fault_status(fault)),
        };
        match core_of(alloc, machine, drivers, memory) {
            Ok(mut core) => {
                core.leave_most_calls();
                core.certify(false);
                Ok(EfiCore::new(alloc, core))
            }
            Err(_) => Err(Status::OutOfResources.number()),
        }
    }
}

/// The core of a machine, whose pool lies in the memory, if there is one.
fn core_of<A: Allocator + Copy>(
    alloc: A,
    machine: Machine<A>,
    drivers: Vec<TableDriver, A>,
    memory: Option<PoolMemory>,
) -> Result<Services<TableDriver, A>, AllocError>
    ensures { IfOk result (λ c. c ≡ new_core machine drivers.items memory) }
{
    match memory {
        Some(memory) => Services::over(alloc, machine, drivers, memory),
        None => Services::new(alloc, machine, drivers),
    }
}

/// The status of a fault.
fn fault_status(fault: MachineFault) -> u64
    ensures { result ≡ fault_status fault }
{
    match fault {
        MachineFault::Invalid => Status::InvalidParameter.number(),
        MachineFault::OutOfMemory => Status::OutOfResources.number(),
    }
}
