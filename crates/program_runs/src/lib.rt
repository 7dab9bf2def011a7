//! Runs of the program over any readers and writers, and the exit statuses that they end with.
#![tactic(auto)]

mod files;
mod program;
mod serve;

pub use files::{OpenFiles, SystemFiles};
pub use program::{serve_arguments, serve_texts};
pub use serve::{
    FAULT, Fault, REFUSED, SUCCESS, USAGE, serve_check, serve_fault, serve_run, serve_usage,
};
