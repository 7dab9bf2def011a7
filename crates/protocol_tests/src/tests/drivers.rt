//! Drivers on handles, by values worked out by hand.
mod boxes;
mod probes;
mod steps;
mod views;

use driver_connect::{StartPlan, driver_binding};
use uuid::Uuid;

/// The byte that tables have for the GUID of the driver binding protocol.
pub const BINDING: u8 = 0xdb;

/// The GUID that tables have as a byte: its bytes are all this one, but for the driver binding
/// protocol.
pub fn guid(byte: u8) -> Uuid {
    if byte == BINDING {
        return driver_binding();
    }
    Uuid::from_bytes([byte; 16])
}

/// A plan that opens a GUID and makes no children.
pub fn opening(open: u8) -> StartPlan {
    let mut plan = StartPlan::none();
    if !plan.opens.is_full() {
        plan.opens.push(guid(open));
    }
    plan
}
