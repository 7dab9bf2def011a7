//! Driver handles, and what the drivers in them answer.
ghost use Rattle.std.specs.Prelude.{◌≡◌, ◌<◌, IsTrue, length, map};
ghost use Rattle.driver_connect.specs.Drivers as spec;

use crate::driver::Driver;
use crate::view::{StartPlan, View};
use guid_handles::Handles;
use std::alloc::Allocator;
use uuid::Uuid;

/// A driver handle.
#[repr(C)]
#[derive(Clone, Copy, Debug, PartialEq, Eq)]
pub struct Agent {
    pub handle: u64,
    /// The driver's place in the list of drivers, or what else a caller knows it by.
    pub driver: u64,
    pub version: u32,
}

/// The GUID of the driver binding protocol.
pub fn driver_binding() -> Uuid
    ensures { result ≡ spec.driver_binding }
{
    Uuid::from_bytes([
        0x18, 0xa0, 0x31, 0xab, 0xb4, 0x43, 0x4d, 0x1a, 0xa5, 0xc0, 0x0c, 0x09, 0x26, 0x1e, 0x9f,
        0x71,
    ])
}

/// The place of a driver handle's driver, if the handle is one.
pub(crate) fn driver_of<D: Driver, A: Allocator + Copy>(
    drivers: &[D],
    handles: &Handles<A>,
    handle: u64,
) -> Option<u64>
    ensures { result ≡ spec.driver_of (map D.meaning drivers.now) handles.now handle }
{
    let place = handles.interface(handle, driver_binding())?;
    if place < drivers.len() as u64 {
        Some(place)
    } else {
        None
    }
}

/// Whether the driver at a place lets itself be stopped.
pub(crate) fn may_stop_at<D: Driver>(drivers: &[D], place: u64, view: &View) -> bool
    ensures { result ≡ spec.may_stop_at (map D.meaning drivers.now) place view.now }
{
    if place < drivers.len() as u64 {
        drivers[place as usize].may_stop(view)
    } else {
        false
    }
}

/// The version of the driver at a place.
pub(crate) fn version_at<D: Driver>(drivers: &[D], place: u64) -> u32
    ensures { result ≡ spec.version_at (map D.meaning drivers.now) place }
{
    if place < drivers.len() as u64 {
        drivers[place as usize].version()
    } else {
        0
    }
}

/// Whether there is a driver at a place, and it can be started on a controller.
pub(crate) fn supports_at<D: Driver>(drivers: &[D], place: u64, view: &View) -> bool
    ensures supports { result ≡ spec.supports_at (map D.meaning drivers.now) place view.now }
    ensures place { IsTrue result → place < length drivers.now }
{
    if place < drivers.len() as u64 {
        drivers[place as usize].supported(view)
    } else {
        false
    }
}

/// What starting the driver at a place does.
pub(crate) fn plan_at<D: Driver>(drivers: &[D], place: u64, view: &View) -> StartPlan
    requires { place < length drivers.now }
    ensures { result ≡ spec.plan_at (map D.meaning drivers.now) place view.now }
{
    drivers[place as usize].plan(view)
}

/// A driver handle, if the handle is one.
pub(crate) fn agent_of<D: Driver, A: Allocator + Copy>(
    drivers: &[D],
    handles: &Handles<A>,
    handle: u64,
) -> Option<Agent>
    ensures { result ≡ spec.agent_of (map D.meaning drivers.now) handles.now handle }
{
    let driver = driver_of(drivers, handles, handle)?;
    Some(Agent {
        handle,
        driver,
        version: version_at(drivers, driver),
    })
}
