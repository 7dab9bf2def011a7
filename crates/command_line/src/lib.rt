//! The command line.
#![tactic(auto)]

mod commands;

pub use commands::{Command, CommandFault, VERSION, command_of};
