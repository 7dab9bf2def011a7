//! UninstallMultipleProtocolInterfaces.
ghost use Rattle.std.specs.Prelude.{◌≡◌, ◌<◌};
ghost use Rattle.boot_core.specs.Removals.{UninstallsAll};

use crate::services::Services;
use driver_connect::Driver;
use page_ranges::Status;
use std::alloc::Allocator;
use uuid::Uuid;

impl<D: Driver, A: Allocator + Copy> Services<D, A> {
    /// UninstallMultipleProtocolInterfaces: uninstalls interfaces of a handle, pairs of GUID and value, one after the
    /// other: all of them, or none.
    ///
    /// INVALID_PARAMETER: there are more than 16, or UninstallProtocolInterface would refuse one of them at its turn.
    /// OUT_OF_RESOURCES: memory ran out.
    pub fn uninstall_multiple(&mut self, handle: u64, pairs: &[(Uuid, u64)]) -> Result<(), Status>
        requires { 0 < self.old.state.calls_left }
        ensures step { UninstallsAll D.meaning self.old handle pairs.now result self.new }
        ensures given { self.new.given ≡ self.old.given }
    {
        match self.begin() {
            Ok(()) => self
                .protocols
                .uninstall_many(self.drivers.as_slice(), handle, pairs),
            Err(status) => Err(status),
        }
    }
}
