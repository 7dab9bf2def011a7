//! Calls as lines of a trace, printed.
#![tactic(auto)]

mod calls;
mod laws;
mod lines;
mod traces;
mod words;

pub use calls::print_call;
pub use laws::{printed_call_law, printed_lines_law};
pub use lines::line_for;
pub use traces::CallTrace;
