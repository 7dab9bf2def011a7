//! Device paths in the bytes of the pool, and the handles that they lead to.
#![tactic(auto)]

mod laws;
mod marks;
mod matches;
mod nodes;
mod prefixes;
mod spans;

pub use laws::{front_bytes_law, instance_ends_law, path_bytes_law};
pub use matches::{device_path_guid, has_path_installed, locate, locate_bytes};
pub use spans::{PathSpan, read_path};
