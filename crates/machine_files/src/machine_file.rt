//! A machine file and its lists.
ghost use Rattle.std.specs.Prelude.{◌≡◌, map, IfSome, Some, None, if◌then◌else◌};
ghost use Rattle.std.specs.List.{AllByRecursion};
ghost use Rattle.page_ranges.specs.Granules.{IsGranule};
ghost use Rattle.boot_machines.specs.MachineRuns.{IsMachineRun};
ghost use Rattle.serde_json.specs.Read.{read};
ghost use Rattle.serde_json.specs.View.{view, items_view};
ghost use Rattle.text_lines.specs.FirstFault.{or_fault};
ghost use Rattle.machine_files.specs.DriverText.{listed, drivers_from, drivers_of, root_drivers};
ghost use Rattle.machine_files.specs.MachineText.{Gives, json_of, runs_from, root_runs, root_of, overlap, in_order, root_granule, machine_with, machine_of, listed_machine};

use crate::drivers::member_driver;
use crate::faults::MachineFault;
use crate::members::member_run;
use boot_machines::{MAX_DESCRIPTORS, MAX_DRIVERS, Machine};
use driver_connect::TableDriver;
use page_ranges::{Run, is_granule};
use serde_json::Value;
use std::alloc::Global;

/// The most bytes of a machine file.
pub const MAX_FILE_LENGTH: usize = 67_108_864;

/// What a machine file says.
#[derive(Drop)]
pub struct MachineFile {
    pub machine: Machine,
    pub drivers: Vec<TableDriver>,
}

/// What a file's bytes say, or the first fault.
#[tactic(auto, unfolding(crate::specs::MachineText::machine_of))]
pub fn read_machine(alloc: Global, bytes: &[u8]) -> Result<MachineFile, MachineFault>
    ensures { Gives listed_machine result (machine_of bytes.now) }
{
    let root = root_of(alloc, bytes)?;
    let runs = root_runs(alloc, &root)?;
    let drivers = root_drivers(alloc, &root)?;
    let machine = machine_with(runs, root_granule(&root))?;
    Ok(MachineFile { machine, drivers })
}

/// The machine with these runs and this granule. Two runs that have a page in common are a fault before a
/// granule that is none.
fn machine_with(runs: Vec<Run>, granule: Option<u64>) -> Result<Machine, MachineFault>
    requires runs { AllByRecursion IsMachineRun runs.items }
    requires granule { IfSome granule IsGranule }
    ensures { result ≡ machine_with runs.items granule }
{
    let machine = whole_machine(runs, granule.unwrap_or(1)).ok_or(MachineFault::Overlap)?;
    match granule {
        Some(_) => Ok(machine),
        None => Err(MachineFault::Granule),
    }
}

/// The machine with these runs and this granule, None where two runs have a page in common.
fn whole_machine(mut runs: Vec<Run>, granule: u64) -> Option<Machine>
    requires runs { AllByRecursion IsMachineRun runs.items }
    requires granule { IsGranule granule }
    ensures { result
        ≡ (if overlap runs.items then None
        else Some (record { runs = in_order runs.items; granule = granule })) }
{
    runs.sort_unstable_by_key(|run| run.range.first);
    Machine::new(runs, granule)
}

/// The granule that the root names, 1 where it names none; None for one that is neither 1 nor 16.
fn root_granule(root: &Value) -> Option<u64>
    ensures is { result ≡ root_granule (view root.now) }
    ensures granule { IfSome result IsGranule }
{
    let Some(value) = root.get("granule") else {
        return Some(1);
    };
    let granule = value.as_u64()?;
    is_granule(granule).then_some(granule)
}

/// What JSON a file's bytes are.
#[tactic(auto, unfolding(crate::specs::MachineText::root_of))]
fn root_of(alloc: Global, bytes: &[u8]) -> Result<Value, MachineFault>
    ensures { Gives view result (root_of bytes.now) }
{
    if bytes.len() > MAX_FILE_LENGTH {
        return Err(MachineFault::TooLong);
    }
    json_of(alloc, bytes)
}

/// What JSON the bytes are.
fn json_of(alloc: Global, bytes: &[u8]) -> Result<Value, MachineFault>
    ensures { Gives view result (or_fault MachineFault.NotJson (json_of bytes.now)) }
{
    let Ok(text) = str::from_utf8(bytes) else {
        return Err(MachineFault::NotJson);
    };
    value_of(alloc, text)
}

/// What JSON the text is.
fn value_of(alloc: Global, text: &str) -> Result<Value, MachineFault>
    ensures { Gives view result (or_fault MachineFault.NotJson (read text.now)) }
{
    match Value::from_str(alloc, text) {
        Ok(value) => Ok(value),
        Err(error) if error.is_memory() => Err(MachineFault::OutOfMemory),
        Err(_) => Err(MachineFault::NotJson),
    }
}

/// The runs of the root's memory list, in their order.
#[tactic(auto, using(crate::proofs::EachMember::count_of_items))]
fn root_runs(alloc: Global, root: &Value) -> Result<Vec<Run>, MachineFault>
    ensures { Gives (λ runs. runs.items) result (root_runs (view root.now)) }
{
    let Some(list) = root.get("memory").and_then(Value::as_array) else {
        return Err(MachineFault::NoMemoryList);
    };
    if list.len() > MAX_DESCRIPTORS {
        return Err(MachineFault::TooManyDescriptors);
    }
    runs_of(alloc, list.as_slice())
}

/// The runs of the members, in their order.
fn runs_of(alloc: Global, members: &[Value]) -> Result<Vec<Run>, MachineFault>
    ensures { Gives (λ runs. runs.items) result (runs_from 0 (items_view members.now)) }
{
    let mut runs = Vec::new(alloc);
    for (number, member) in members.iter().enumerate() {
        match member_run(member) {
            Ok(run) => runs.push(run)?,
            Err(field) => return Err(MachineFault::Descriptor { number, field }),
        }
    }
    Ok(runs)
}

/// The drivers of the root's driver list, in their order. Without a list there are none.
fn root_drivers(alloc: Global, root: &Value) -> Result<Vec<TableDriver>, MachineFault>
    ensures { Gives (λ drivers. map listed drivers.items) result (root_drivers (view root.now)) }
{
    match root.get("drivers") {
        Some(list) => drivers_of(alloc, list),
        None => Ok(Vec::new(alloc)),
    }
}

/// The drivers of a driver list, in their order.
#[tactic(auto, using(crate::proofs::EachMember::count_of_items))]
fn drivers_of(alloc: Global, list: &Value) -> Result<Vec<TableDriver>, MachineFault>
    ensures { Gives (λ drivers. map listed drivers.items) result (drivers_of (view list.now)) }
{
    let Some(members) = list.as_array() else {
        return Err(MachineFault::NoDriverList);
    };
    if members.len() > MAX_DRIVERS {
        return Err(MachineFault::TooManyDrivers);
    }
    drivers_in(alloc, members.as_slice())
}

/// The drivers of the members, in their order.
fn drivers_in(alloc: Global, members: &[Value]) -> Result<Vec<TableDriver>, MachineFault>
    ensures { Gives (λ drivers. map listed drivers.items) result
        (drivers_from 0 (items_view members.now)) }
{
    let mut drivers = Vec::new(alloc);
    for (number, member) in members.iter().enumerate() {
        match member_driver(member) {
            Ok(driver) => drivers.push(driver)?,
            Err(field) => return Err(MachineFault::Driver { number, field }),
        }
    }
    Ok(drivers)
}
