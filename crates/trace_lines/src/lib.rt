//! Trace lines as calls.
#![tactic(auto)]

mod faults;
mod laws;
mod lines;
mod parameters;
mod protocols;
mod run_faults;

pub use faults::TraceFault;
pub use laws::{call_numbers_law, named_types_law};
pub use lines::{MAX_BUFFER_SIZE, MAX_READ_SIZE, TraceCall, read_call};
pub use run_faults::RunFault;
