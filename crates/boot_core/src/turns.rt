//! What comes next where a caller starts and stops drivers itself. None is a call.
ghost use Rattle.std.specs.Prelude.{◌≡◌, length, IfOk};
ghost use Rattle.driver_connect.specs.DriverTurns.{BeginsTurns};
ghost use Rattle.boot_core.specs.Machines.{lists_of};
ghost use Rattle.boot_core.specs.Stops.{stops_on_interface, stops_on_controller, children};

use crate::services::Services;
use driver_connect::{Agent, Driver, DriverTurns};
use guid_handles::Pair;
use page_ranges::Status;
use std::alloc::{AllocError, Allocator};
use uuid::Uuid;

impl<D: Driver, A: Allocator + Copy> Services<D, A> {
    /// Begins the turns on a controller of the drivers on a list that are on live driver handles: those of
    /// the handles named, and then all others by version. The list is put in that order.
    ///
    /// INVALID_PARAMETER: the controller is not live, or more than 16 handles are named. OUT_OF_RESOURCES:
    /// memory ran out. Either leaves the list as it is.
    pub fn begin_turns(
        &self,
        alloc: A,
        controller: u64,
        named: &[u64],
        drivers: &mut [Agent],
    ) -> Result<DriverTurns, Status>
        ensures turns { BeginsTurns self.now.state.parts.lists.handles controller named.now
            drivers.old result drivers.new }
        ensures count { length drivers.new ≡ length drivers.old }
    {
        driver_connect::begin_turns(alloc, self.protocols.handles(), controller, named, drivers)
    }

    /// The managers to be stopped, in order, before an interface that drivers have open can be opened exclusively,
    /// uninstalled or reinstalled.
    pub fn stops_on_interface(&self, handle: u64, guid: Uuid) -> Result<Vec<Pair, A>, AllocError>
        ensures { IfOk result
            (λ v. v.items ≡ stops_on_interface self.now.state.parts.lists handle guid) }
    {
        self.protocols.stops_on_interface(handle, guid)
    }

    /// The managers to be stopped, in order, before a handle can be disconnected from the drivers that manage
    /// it, or from one of them if `driver` is not 0.
    pub fn stops_on_controller(&self, handle: u64, driver: u64) -> Result<Vec<Pair, A>, AllocError>
        ensures { IfOk result
            (λ v. v.items ≡ stops_on_controller (lists_of self.now) handle driver) }
    {
        self.protocols.stops_on_controller(handle, driver)
    }

    /// The children of an agent on a controller: the handles that it made there, ascending, and then those
    /// for which it has the controller open as for a child.
    pub fn children(&self, controller: u64, agent: u64) -> Result<Vec<u64, A>, AllocError>
        ensures { IfOk result
            (λ v. v.items ≡ children self.now.state.parts.lists controller agent) }
    {
        self.protocols.children(controller, agent)
    }
}
