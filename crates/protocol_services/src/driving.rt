//! Connecting and disconnecting drivers.
ghost use Rattle.std.specs.Prelude.{◌≡◌, map};
ghost use Rattle.protocol_services.specs.Driving.{ConnectsController, DisconnectsController, refusal_without_numbers};
ghost use Rattle.protocol_services.specs.Lists.{IsRaised};

use crate::protocols::Protocols;
use driver_connect::{Driver, MAX_NAMED, connect, disconnect};
use guid_handles::Handles;
use page_ranges::Status;
use std::alloc::Allocator;

impl<A: Allocator + Copy> Protocols<A> {
    /// ConnectController: starts drivers on a handle, those first that are named, and where `recursive` is
    /// set on the handles that this makes, eight levels deep. It returns the events that are signaled.
    ///
    /// INVALID_PARAMETER: the handle is not live, or more than 16 drivers are named. NOT_FOUND: no start on
    /// the handle was carried out. OUT_OF_RESOURCES: memory or numbers ran out.
    pub fn connect<D: Driver>(
        &mut self,
        drivers: &[D],
        handle: u64,
        named: &[u64],
        recursive: bool,
    ) -> Result<Vec<u64, A>, Status>
        ensures connects { ConnectsController
            (map D.meaning drivers.now) self.old handle named.now recursive result self.new }
        ensures raised { IsRaised self.old self.new }
    {
        if !self.has_room() {
            return Err(refusal_without_numbers(&self.handles, handle, named));
        }
        connect(
            self.alloc,
            &mut self.handles,
            &mut self.opens,
            &self.registrations,
            drivers,
            handle,
            named,
            recursive,
        )
    }

    /// DisconnectController: stops the drivers that manage a handle, or one of them if `driver` is not 0.
    ///
    /// INVALID_PARAMETER: the handle is not live, or the driver is neither 0 nor a live handle with the
    /// driver binding protocol. DEVICE_ERROR: not all of them can be stopped. OUT_OF_RESOURCES: memory ran
    /// out.
    pub fn disconnect<D: Driver>(
        &mut self,
        drivers: &[D],
        handle: u64,
        driver: u64,
    ) -> Result<(), Status>
        ensures disconnects { DisconnectsController
            (map D.meaning drivers.now) self.old handle driver result self.new }
        ensures raised { IsRaised self.old self.new }
    {
        disconnect(
            self.alloc,
            &mut self.handles,
            &mut self.opens,
            drivers,
            handle,
            driver,
        )
    }
}

/// Why a connect is refused where numbers ran out.
fn refusal_without_numbers<A: Allocator + Copy>(
    handles: &Handles<A>,
    handle: u64,
    named: &[u64],
) -> Status
    ensures { result ≡ refusal_without_numbers handles.now handle named.now }
{
    if handles.is_live(handle) && named.len() <= MAX_NAMED {
        Status::OutOfResources
    } else {
        Status::InvalidParameter
    }
}
