//! A trace, run on a machine.
#![tactic(auto)]

mod laws;
mod listings;
mod runner;

pub use certificate_blocks::{BlockFault, block_read_back_law, check_block};
pub use laws::{map_entries_law, printed_blocks_law, printed_maps_law};
pub use machine_files::{DriverField, MachineFault, MachineFile, MemberField, read_machine};
pub use runner::{run, run_line};
pub use trace_lines::{RunFault, TraceCall, TraceFault, read_call};
