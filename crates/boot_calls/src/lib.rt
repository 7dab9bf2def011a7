//! The calls of the boot services, and what the services on handles return: plain data.
#![tactic(auto)]

mod calls;
mod replies;
mod sizes;

pub use calls::{Call, CallBytes, CallHandles, CallPairs};
pub use replies::{Installed, LocateReply};
pub use sizes::{ENTRY_SIZE, HANDLE_SIZE};
