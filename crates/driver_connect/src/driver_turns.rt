//! The turns of drivers on a controller, for a caller that starts them itself.
ghost use Rattle.std.specs.Prelude.{◌≡◌, ◌<◌, ◌≤◌, length};
ghost use Rattle.driver_connect.specs.DriverTurns as spec;

use crate::agents::Agent;
use crate::connecting::is_refused;
use crate::driver_order::drivers_to_try;
use guid_handles::Handles;
use page_ranges::Status;
use std::alloc::Allocator;

/// How far the turns of the drivers on a list have come. Drivers that are left in a pass move to the
/// front of the list, and the next pass goes over these.
#[repr(C)]
#[derive(Clone, Copy, Debug, PartialEq, Eq)]
pub struct DriverTurns {
    /// How many drivers the pass has left so far.
    left: usize,
    /// The place of the driver whose turn it is.
    next: usize,
    /// The place where the drivers of the pass end.
    end: usize,
    /// Whether the pass has started a driver.
    has_started: bool,
}

impl DriverTurns {
    /// The turns of the first drivers of a list, before the first turn.
    fn over(count: usize) -> DriverTurns
        ensures { result ≡ spec.turns_over count }
    {
        DriverTurns {
            left: 0,
            next: 0,
            end: count,
            has_started: false,
        }
    }

    /// Whether it is a driver's turn.
    fn has_turn(&self, drivers: &[Agent]) -> bool
        ensures { result ≡ spec.has_turn self.now drivers.now }
    {
        self.left <= self.next && self.next < self.end && self.end <= drivers.len()
    }

    /// The driver whose turn it is; none once no driver is left to be tried.
    pub fn next(&self, drivers: &[Agent]) -> Option<Agent>
        ensures { result ≡ spec.next_driver (spec.pass_of self.now drivers.now) }
    {
        if self.has_turn(drivers) {
            Some(drivers[self.next])
        } else {
            None
        }
    }

    /// The turns after that of a driver that was started or is left.
    fn after(&self, was_started: bool) -> DriverTurns
        requires left { self.now.left ≤ self.now.next }
        requires next { self.now.next < self.now.end }
        ensures { result ≡ spec.turns_after was_started self.now }
    {
        let left = if was_started {
            self.left
        } else {
            self.left + 1
        };
        let has_started = was_started || self.has_started;
        if self.next + 1 == self.end && has_started {
            return DriverTurns::over(left);
        }
        DriverTurns {
            left,
            next: self.next + 1,
            end: self.end,
            has_started,
        }
    }

    /// Records what came of a driver's turn: whether its start was called, whatever that returned. This
    /// takes no memory, and does nothing where it is no driver's turn.
    pub fn record_outcome(&mut self, drivers: &mut [Agent], was_started: bool)
        ensures pass { spec.EndsTurn was_started self.old drivers.old self.new drivers.new }
        ensures count { length drivers.new ≡ length drivers.old }
    {
        if !self.has_turn(drivers) {
            return;
        }
        if !was_started {
            drivers[self.left] = drivers[self.next];
        }
        *self = self.after(was_started);
    }
}

/// Begins the turns on a controller of the drivers on a list that are on live driver handles: those of
/// the handles named, and then all others by version. The list is put in that order.
///
/// INVALID_PARAMETER: the controller is not live, or more than 16 handles are named. OUT_OF_RESOURCES:
/// memory ran out. Either leaves the list as it is.
pub fn begin_turns<A: Allocator + Copy>(
    alloc: A,
    handles: &Handles<A>,
    controller: u64,
    named: &[u64],
    drivers: &mut [Agent],
) -> Result<DriverTurns, Status>
    ensures turns { spec.BeginsTurns handles.now controller named.now drivers.old result
        drivers.new }
    ensures count { length drivers.new ≡ length drivers.old }
{
    if is_refused(handles, controller, named) {
        return Err(Status::InvalidParameter);
    }
    let Ok(ordered) = drivers_to_try(alloc, handles, drivers, named) else {
        return Err(Status::OutOfResources);
    };
    drivers[..ordered.len()].copy_from_slice(ordered.as_slice());
    Ok(DriverTurns::over(ordered.len()))
}
