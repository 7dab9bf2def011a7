//! Machines that may be started.
ghost use Rattle.std.specs.Prelude.{◌≡◌, ◌↔◌, IsTrue, IsSome, IfSome};
ghost use Rattle.page_ranges.specs.Granules.{IsGranule};
ghost use Rattle.page_ranges.specs.Runs.{IsValidMachine};
ghost use Rattle.boot_machines.specs.MachineRuns.{IsMachineRun};
ghost use Rattle.boot_machines.specs.Machines.{IsMachine};

use page_ranges::{MemoryType, Owner, PAGE_COUNT, Run, has_runtime, is_granule};
use std::alloc::{Allocator, Global};
use std::marker::Model;

/// The most descriptors that a machine is made of.
pub const MAX_DESCRIPTORS: usize = 65_536;

/// The most drivers of a machine.
pub const MAX_DRIVERS: usize = 64;

/// The memory that a machine has at first, valid runs, and its granule.
#[derive(Drop)]
pub struct Machine<A: Allocator = Global> {
    runs: Vec<Run, A>,
    granule: u64,
}

impl<A: Allocator> Model for Machine<A> {
    ghost use Rattle.boot_machines.specs.Machines.{IsMachine, MachineValue};

    ghost Value = { MachineValue };

    ghost view = { λ m. record { runs = m.runs.items; granule = m.granule } };

    ghost invariant = { λ m. IsMachine (record { runs = m.runs.items; granule = m.granule }) };
}

impl<A: Allocator> Machine<A> {
    /// The machine of runs, with a granule of this many pages. None where the runs are not in ascending
    /// order, disjoint, nonempty, of the machine's own, below page 2^52 and of types that a machine
    /// may have, where conventional memory carries RUNTIME, or where the granule is neither 1 nor 16.
    pub fn new(runs: Vec<Run, A>, granule: u64) -> Option<Machine<A>>
        ensures valid { IsSome result
            ↔ IsMachine (record { runs = runs.items; granule = granule }) }
        ensures machine { IfSome result
            (λ machine. machine ≡ record { runs = runs.items; granule = granule }) }
    {
        if is_granule(granule) && are_machine_runs(runs.as_slice()) {
            Some(Machine { runs, granule })
        } else {
            None
        }
    }

    /// The runs, by ascending page.
    pub fn runs(&self) -> &[Run]
        ensures runs { result.now ≡ self.now.runs }
        ensures valid { IsValidMachine self.now.runs }
    {
        self.runs.as_slice()
    }

    /// The granule in pages: 1 or 16.
    pub fn granule(&self) -> u64
        ensures granule { result ≡ self.now.granule }
        ensures valid { IsGranule result }
    {
        self.granule
    }
}

/// Whether the runs are those of a machine.
fn are_machine_runs(runs: &[Run]) -> bool
    ensures { IsTrue result ↔ IsValidMachine runs.now }
{
    let mut end = 0;
    for run in runs {
        if run.range.first < end || !is_machine_run(run) {
            return false;
        }
        end = run.range.first + run.range.pages;
    }
    true
}

/// Whether a machine may have the run.
fn is_machine_run(run: &Run) -> bool
    ensures { IsTrue result ↔ IsMachineRun run.now }
{
    let free = run.mtype == MemoryType::conventional();
    run.range.pages != 0
        && run.range.first < PAGE_COUNT
        && run.range.pages <= PAGE_COUNT - run.range.first
        && run.owner == Owner::Given
        && run.mtype.is_of_machines()
        && !(free && has_runtime(run.attributes))
}
