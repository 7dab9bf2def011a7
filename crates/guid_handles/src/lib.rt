//! The handle table: handles, the protocol interfaces on them, and how they are found.
#![tactic(auto)]

mod groups;
mod guid_group;
mod guids;
mod handle_row;
mod handles;
mod number_lists;
mod places;
mod records;
mod room;
mod rows;
mod searches;
mod short_list;

pub use guids::is_same_guid;
pub use handles::{Handles, MAX_HANDLES, MAX_INSTALLED, has_guid_twice};
pub use number_lists::NumberLists;
pub use places::{add_place, has_place, remove_place};
pub use records::{Interface, LiveHandle, Pair};
