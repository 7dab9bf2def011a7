//! The boot services as a library for C whose cores lie in regions of memory that their callers pass. It has the
//! functions of `boot_services_c`, but that what takes memory takes a region; it calls no heap.
#![tactic(auto)]

mod contents;
mod handle;
mod making;
mod memory;
mod paths;
mod protocols;
mod returned;
mod tracing;
mod turns;
