//! The replies of the boot services, and the certificates that they carry.
#![tactic(auto)]

mod certificates;
mod replies;

pub use certificates::{BOOT_SERVICES_DATA, certified, may_be_certified};
pub use replies::{PoolList, Reply};
