//! Drivers as C has them, in tables.
ghost use Rattle.std.specs.Prelude.{◌≡◌, map, IfErr, OnOk};
ghost use Rattle.std.specs.Option.{option_map};
ghost use Rattle.std.specs.List.{list_all};
ghost use Rattle.c_machines.specs.DriverTables.{PushesDriver, PutsOneBehind, ReadsDrivers, are_tables, fits_child, child_in, children_in, fits, driver_in, guids_up_to, read_if, returned};

use crate::faults::MachineFault;
use crate::guids::{Guid, Interface};
use arrayvec::ArrayVec;
use boot_machines::MAX_DRIVERS;
use driver_connect::{MAX_CHILDREN, MAX_GUIDS, MAX_PAIRS, StartPlan, TableDriver};
use std::alloc::Allocator;
use uuid::Uuid;

/// A child of a driver: the first interfaces of an array, as many as its count says.
#[repr(C)]
#[derive(Clone, Copy, Debug, PartialEq, Eq)]
pub struct Child {
    pub interfaces: [Interface; MAX_PAIRS],
    pub count: u64,
}

/// A driver with fixed answers: the first elements of each array, as many as its count says.
#[repr(C)]
#[derive(Clone, Copy, Debug, PartialEq, Eq)]
pub struct DriverTable {
    pub version: u32,
    /// Whether the driver lets itself be stopped.
    pub stops: bool,
    pub needs: [Guid; MAX_GUIDS],
    pub needs_count: u64,
    pub opens: [Guid; MAX_GUIDS],
    pub opens_count: u64,
    pub children: [Child; MAX_CHILDREN],
    pub children_count: u64,
}

/// Whether tables are those of drivers: there are at most 64, and no count is above the length of its
/// array. This takes no memory.
pub fn are_tables(drivers: &[DriverTable]) -> bool
    ensures { result ≡ are_tables drivers.now }
{
    drivers.len() <= MAX_DRIVERS && all_fit(drivers)
}

/// Whether no count in some tables is above the length of its array.
fn all_fit(drivers: &[DriverTable]) -> bool
    ensures { result ≡ list_all fits drivers.now }
{
    drivers.iter().all(|table| fits(table))
}

/// Whether no count of a table is above the length of its array, and none of its children's is.
fn fits(table: &DriverTable) -> bool
    ensures { result ≡ fits table.now }
{
    table.needs_count <= MAX_GUIDS as u64
        && table.opens_count <= MAX_GUIDS as u64
        && table.children_count <= MAX_CHILDREN as u64
        && do_fit(&table.children[..table.children_count as usize])
}

/// Whether no count of some children is above the length of its array.
fn do_fit(children: &[Child]) -> bool
    ensures { result ≡ list_all fits_child children.now }
{
    children.iter().all(|child| child.count <= MAX_PAIRS as u64)
}

/// The drivers of some tables, in their order.
///
/// Invalid where they are not those of drivers ([`are_tables`]), which is found before memory is taken.
pub fn table_drivers<A: Allocator>(
    alloc: A,
    drivers: &[DriverTable],
) -> Result<Vec<TableDriver, A>, MachineFault>
    ensures { ReadsDrivers drivers.now result }
{
    if !are_tables(drivers) {
        return Err(MachineFault::Invalid);
    }
    let mut tables = Vec::with_capacity(alloc, drivers.len())?;
    for driver in drivers {
        push_driver(&mut tables, driver)?;
    }
    Ok(tables)
}

// A driver takes over 1,000 bytes, and each function that hands one on has a copy in its frame. So none is handed on:
// it is filled where it lies, behind the others.

/// Puts the driver of a table behind others.
///
/// Invalid where a count is above the length of its array.
fn push_driver<A: Allocator>(
    drivers: &mut Vec<TableDriver, A>,
    table: &DriverTable,
) -> Result<(), MachineFault>
    ensures { PushesDriver drivers.old.items table.now result drivers.new.items }
{
    let at = drivers.len();
    push_empty(drivers)?;
    if fill(&mut drivers[at], table) {
        Ok(())
    } else {
        Err(MachineFault::Invalid)
    }
}

/// Puts a driver behind others, any one.
#[inline(never)]
fn push_empty<A: Allocator>(drivers: &mut Vec<TableDriver, A>) -> Result<(), MachineFault>
    ensures ok { OnOk result (PutsOneBehind drivers.old.items drivers.new.items) }
    ensures err { IfErr result (λ fault. fault ≡ MachineFault.OutOfMemory) }
{
    drivers.push(TableDriver {
        version: 0,
        needs: ArrayVec::new(),
        plan: StartPlan::none(),
        stops: false,
    })?;
    Ok(())
}

/// Makes a driver that of a table. False where a count is above the length of its array.
#[inline(never)]
fn fill(driver: &mut TableDriver, table: &DriverTable) -> bool
    ensures { read_if result (returned driver.new) ≡ read_if (fits table.now)
        (driver_in table.now) }
{
    let Some(needs) = guids_in(&table.needs, table.needs_count) else {
        return false;
    };
    let Some(opens) = guids_in(&table.opens, table.opens_count) else {
        return false;
    };
    let Some(children) = children_in(&table.children, table.children_count) else {
        return false;
    };
    driver.version = table.version;
    driver.needs = needs;
    driver.plan = StartPlan { opens, children };
    driver.stops = table.stops;
    true
}

/// The first GUIDs, as many as the count says; None where there are fewer.
fn guids_in(guids: &[Guid; MAX_GUIDS], count: u64) -> Option<ArrayVec<Uuid, MAX_GUIDS>>
    ensures { option_map (λ list. list.items) result ≡ guids_up_to count guids.now }
{
    if count > MAX_GUIDS as u64 {
        return None;
    }
    let mut list = ArrayVec::new();
    for guid in &guids[..count as usize] {
        list.push(guid.uuid());
    }
    Some(list)
}

/// The interfaces of a child, None where its count is above the length of the array.
fn child_in(child: &Child) -> Option<ArrayVec<(Uuid, u64), MAX_PAIRS>>
    ensures { option_map (λ list. list.items) result
        ≡ read_if (fits_child child.now) (child_in child.now) }
{
    if child.count > MAX_PAIRS as u64 {
        return None;
    }
    let mut list = ArrayVec::new();
    for interface in &child.interfaces[..child.count as usize] {
        list.push((interface.guid.uuid(), interface.value));
    }
    Some(list)
}

/// The first children, as many as the count says; None where there are fewer, or one of them is none.
fn children_in(
    children: &[Child; MAX_CHILDREN],
    count: u64,
) -> Option<ArrayVec<ArrayVec<(Uuid, u64), MAX_PAIRS>, MAX_CHILDREN>>
    ensures { option_map (λ list. map (λ child. child.items) list.items) result
        ≡ children_in count children.now }
{
    if count > MAX_CHILDREN as u64 {
        return None;
    }
    let mut list = ArrayVec::new();
    for child in &children[..count as usize] {
        list.push(child_in(child)?);
    }
    Some(list)
}
