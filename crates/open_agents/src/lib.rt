//! Which agents have which protocol interfaces open, and the rules by which OpenProtocol decides.
#![tactic(auto)]

mod attributes;
mod item_tests;
mod items;
mod listed;
mod managers;
mod near;
mod opens;
mod questions;
mod store;

pub use attributes::{
    BY_CHILD_CONTROLLER, BY_DRIVER, BY_HANDLE_PROTOCOL, EXCLUSIVE, GET_PROTOCOL, TEST_PROTOCOL,
    is_for_driver,
};
pub use items::{Decision, OpenItem, OpenRecord, OpenRequest, Usage};
pub use near::{Items, Near, item_at};
pub use opens::Opens;
