//! Machines that may be started: their memory at first, their granule, and their limits.
#![tactic(auto)]

mod machines;

pub use machines::{MAX_DESCRIPTORS, MAX_DRIVERS, Machine};
