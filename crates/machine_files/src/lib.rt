//! Machine files.
#![tactic(auto)]

mod drivers;
mod faults;
mod laws;
mod machine_file;
mod members;

pub use faults::{DriverField, MachineFault, MemberField};
pub use laws::machine_law;
pub use machine_file::{MAX_FILE_LENGTH, MachineFile, read_machine};
