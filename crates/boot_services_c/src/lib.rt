//! The boot services as a library for C: each function of include/rafkudin.h is an export here. It calls the
//! function of `c_interface` for it, and is proved to do what that is proved to do.
#![tactic(auto)]

mod blocks;
mod contents;
mod handle;
mod making;
mod memory;
mod paths;
mod place;
mod placing;
mod protocols;
mod returned;
mod tracing;
mod turns;
