//! The protocol services on their lists: handles with their interfaces, open items, registrations.
#![tactic(auto)]

mod driving;
mod list_bytes;
mod opening;
mod protocols;
mod removing;
mod removing_many;
mod saved;
mod searches;
mod stops;

pub use list_bytes::{handle_bytes, item_bytes};
pub use protocols::{Protocols, has_room_after};
