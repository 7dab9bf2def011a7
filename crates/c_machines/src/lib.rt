//! What a caller in C passes to make a core, and what it means.
#![tactic(auto)]

mod drivers;
mod faults;
mod guids;
mod machines;

pub use drivers::{Child, DriverTable, are_tables, table_drivers};
pub use faults::MachineFault;
pub use guids::{Guid, Interface};
pub use machines::{LEAST_SIZE, machine_of};
