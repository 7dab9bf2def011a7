//! Calls on the core of a machine.
mod best_fit;
mod boxed_drivers;
mod call_lists;
mod last_numbers;

use boot_core::Machine;
use page_ranges::{MemoryType, Owner, PageRange, Run};
use std::process::Abort;

/// The free pages of a machine from one on, and their number.
pub type Free = (u64, u64);

/// A machine that has these free pages, and a granule of one page.
pub fn machine_of(rt: &(impl AllocGlobal + Abort), free: &[Free]) -> Machine {
    let mut runs = Vec::new(rt.alloc());
    for (first, pages) in free {
        let range = PageRange {
            first: *first,
            pages: *pages,
        };
        runs.push(Run {
            range,
            mtype: MemoryType::new(7),
            attributes: 0xf,
            owner: Owner::Given,
        })
        .expect(rt, "memory");
    }
    Machine::new(runs, 1).expect(rt, "a machine")
}
