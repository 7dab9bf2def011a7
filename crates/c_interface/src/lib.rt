//! The boot services as a caller in C has them: statuses as numbers of EFI_STATUS, results in variables of
//! the caller's, GUIDs as the standard's sixteen bytes.
#![tactic(auto)]

mod buffer_replies;
mod buffers;
mod call_fields;
mod call_lines;
mod checks;
mod efi_core;
mod entries;
mod last_call;
mod laws;
mod lines;
mod lists;
mod making;
mod memory;
mod opening;
mod paths;
mod protocols;
mod questions;
mod removals;
mod replies;
mod reply_lines;
mod stops;
mod turns;
mod versions;

pub use boot_core::{Agent, DriverTurns, OpenItem, Pair};
pub use buffer_replies::{MapFields, ReadFields};
pub use call_fields::CallFields;
pub use checks::{MapEntry, check_block};
pub use efi_core::{ABORTED, EfiCore, LastBlock};
pub use entries::{BlockEntry, OpenEntry, RunEntry};
pub use laws::{printed_map_law, printed_read_law, printed_reply_law};
pub use turns::{connect_next, connect_record};
pub use versions::VERSION;
