//! The best place for pages on a memory map of its caller's, with no core.
#![tactic(auto)]

mod placing;

pub use placing::place;
