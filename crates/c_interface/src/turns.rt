//! What comes next where a caller in C starts and stops drivers itself. None is a call.
ghost use Rattle.driver_connect.specs.DriverTurns.{EndsTurn, next_driver, pass_of};
ghost use Rattle.std.specs.Prelude.{◌≡◌};
ghost use Rattle.c_interface.specs.Turns.{ReturnsDriver, ReturnsTurns};

use crate::efi_core::EfiCore;
use boot_core::{Agent, DriverTurns};
use page_ranges::Status;
use std::alloc::Allocator;

impl<A: Allocator + Copy> EfiCore<A> {
    /// Begins the turns of drivers on a controller, for which a list of drivers is put in order.
    ///
    /// INVALID_PARAMETER: the controller is not live, or more than 16 handles are named. OUT_OF_RESOURCES:
    /// memory ran out. Either leaves the caller's variables as they are.
    pub fn connect_begin(
        &self,
        controller: u64,
        named: &[u64],
        drivers: &mut [Agent],
        turns: &mut DriverTurns,
    ) -> u64
        ensures { ReturnsTurns self.now controller named.now (drivers.old, turns.old) result
            (drivers.new, turns.new) }
    {
        match self
            .core
            .begin_turns(self.alloc, controller, named, drivers)
        {
            Ok(begun) => {
                *turns = begun;
                Status::Success.number()
            }
            Err(status) => status.number(),
        }
    }
}

/// The driver whose turn it is.
///
/// NOT_FOUND: no driver is left to be tried.
pub fn connect_next(turns: &DriverTurns, drivers: &[Agent], driver: &mut Agent) -> u64
    ensures { ReturnsDriver
        (next_driver (pass_of turns.now drivers.now)) driver.old result driver.new }
{
    match turns.next(drivers) {
        Some(found) => {
            *driver = found;
            Status::Success.number()
        }
        None => Status::NotFound.number(),
    }
}

/// Records what came of the turn of a driver: whether its start was called.
pub fn connect_record(turns: &mut DriverTurns, drivers: &mut [Agent], was_started: bool)
    ensures { EndsTurn was_started turns.old drivers.old turns.new drivers.new }
{
    turns.record_outcome(drivers, was_started);
}
