//! The boot services on a machine.
#![tactic(auto)]

mod core_state;
mod kept_maps;
mod laws;
mod map_buffers;
mod paths;
mod pool_buffers;
mod pool_lists;
mod questions;
mod removals;
mod services;
mod turns;

pub use boot_calls::{Call, CallBytes, CallHandles, CallPairs};
pub use boot_machines::Machine;
pub use boot_replies::{PoolList, Reply, certified, may_be_certified};
pub use core_state::Core;
pub use driver_connect::{Agent, DriverTurns};
pub use guid_handles::{Interface, Pair};
pub use kept_maps::map_before;
pub use laws::{
    acceptance_law, any_run_law, any_step_law, certificate_law, count_law, free_memory_law,
    key_count_law, key_law, last_bytes_law, locate_step_law, map_growth_law, map_step_law,
    pool_bytes_law, proper_lists_law, read_bytes_law, read_step_law, record_entries_law, room_law,
    sound_law, uninstall_run_law,
};
pub use open_agents::{OpenItem, OpenRecord};
pub use pool_services::{PoolBlock, PoolMemory};
pub use services::{PREPARED_PLACEMENTS, Services};
