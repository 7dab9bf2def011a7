//! What to stop, for a caller in C that stops drivers itself. None is a call.
ghost use Rattle.c_interface.specs.Stops.{ListsChildren, ListsManagers, ListsStops};

use crate::efi_core::EfiCore;
use crate::questions::fill;
use boot_core::Pair;
use c_machines::Guid;
use page_ranges::Status;
use std::alloc::Allocator;

impl<A: Allocator + Copy> EfiCore<A> {
    /// The drivers to be stopped, in order, before an interface can be opened exclusively, uninstalled or reinstalled,
    /// in the front of a buffer. The variable `count` receives how many they are.
    ///
    /// BUFFER_TOO_SMALL: the buffer has no room for all of them, and is left. OUT_OF_RESOURCES: memory ran
    /// out, and the variable is left too.
    pub fn stops_on_interface(
        &self,
        handle: u64,
        guid: &Guid,
        buffer: &mut [Pair],
        count: &mut u64,
    ) -> u64
        ensures { ListsStops
            self.now handle guid.now count.old buffer.old result count.new buffer.new }
    {
        match self.core.stops_on_interface(handle, guid.uuid()) {
            Ok(stops) => fill(stops.as_slice(), buffer, count),
            Err(_) => Status::OutOfResources.number(),
        }
    }

    /// The drivers to be stopped, in order, before a handle can be disconnected from all that manage it, or
    /// from one of them if `driver` is not 0; in the same way.
    pub fn stops_on_controller(
        &self,
        handle: u64,
        driver: u64,
        buffer: &mut [Pair],
        count: &mut u64,
    ) -> u64
        ensures { ListsManagers
            self.now handle driver count.old buffer.old result count.new buffer.new }
    {
        match self.core.stops_on_controller(handle, driver) {
            Ok(stops) => fill(stops.as_slice(), buffer, count),
            Err(_) => Status::OutOfResources.number(),
        }
    }

    /// The children of a driver on a controller: the handles that it made, ascending, and then those for
    /// which it has the controller open as for a child; in the same way.
    pub fn children(&self, controller: u64, agent: u64, buffer: &mut [u64], count: &mut u64) -> u64
        ensures { ListsChildren
            self.now controller agent count.old buffer.old result count.new buffer.new }
    {
        match self.core.children(controller, agent) {
            Ok(children) => fill(children.as_slice(), buffer, count),
            Err(_) => Status::OutOfResources.number(),
        }
    }
}
