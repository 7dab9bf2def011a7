//! LocateDevicePath.
ghost use Rattle.std.specs.Prelude.{◌≡◌, ◌<◌};
ghost use Rattle.boot_core.specs.PathSteps.{LocateStep};
ghost use Rattle.boot_core.specs.Steps.{Calls};

use crate::services::Services;
use boot_calls::Call;
use boot_replies::Reply;
use device_path_locate::{locate, locate_bytes};
use driver_connect::Driver;
use page_ranges::Status;
use std::alloc::Allocator;
use uuid::Uuid;

impl<D: Driver, A: Allocator + Copy> Services<D, A> {
    /// LocateDevicePath: of the handles that carry a GUID, the one whose device path is the longest prefix of the path
    /// at an address in the pool.
    pub fn locate_device_path(&mut self, guid: Uuid, address: u64) -> Result<(u64, u64), Status>
        requires { 0 < self.old.state.calls_left }
        ensures step { Calls {A = A} D.meaning self.old
            (Call.LocateDevicePath guid address) (Reply.LocateDevicePath result) self.new }
        ensures given { self.new.given ≡ self.old.given }
    {
        match self.begin() {
            Ok(()) => locate(self.protocols.handles(), &self.pools, guid, address),
            Err(status) => Err(status),
        }
    }

    /// LocateDevicePath with a path in the caller's memory: the handle that is found, and how many bytes of the path's
    /// nodes its own path matches.
    pub fn locate_path(&mut self, guid: Uuid, bytes: &[u8]) -> Result<(u64, usize), Status>
        requires { 0 < self.old.state.calls_left }
        ensures step { LocateStep self.old.state guid bytes.now result self.new.state }
        ensures given { self.new.given ≡ self.old.given }
    {
        match self.begin() {
            Ok(()) => locate_bytes(self.protocols.handles(), &self.pools, guid, bytes),
            Err(status) => Err(status),
        }
    }
}
