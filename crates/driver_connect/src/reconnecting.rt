//! Putting another value in place of an interface's, and connecting its handle.
ghost use Rattle.std.specs.Prelude.{◌≡◌, ◌+◌, ◌<◌, ◌≤◌, ◌^◌, true, IfOk, OnErr};
ghost use Rattle.guid_handles.specs.HandleTables.{carries};
ghost use Rattle.driver_connect.specs.Reconnecting.{ReconnectsBy};

use crate::driver::Driver;
use crate::starting::Starter;
use guid_handles::Handles;
use open_agents::Opens;
use std::alloc::{AllocError, Allocator};
use uuid::Uuid;

/// Another value for the interface of a GUID on a handle.
#[derive(Clone, Copy)]
pub struct Replacement {
    pub handle: u64,
    pub guid: Uuid,
    pub value: u64,
}

impl<'a, D: Driver, A: Allocator + Copy> Starter<'a, D, A> {
    /// Gives an interface another value and a new stamp, and connects its handle with all below it,
    /// with no driver named. It returns the events given, then those of the connect. On an `Err`
    /// nothing changes.
    pub fn replace_and_connect(
        &self,
        handles: &mut Handles<A>,
        opens: &mut Opens<A>,
        replacement: &Replacement,
        given: Vec<u64, A>,
    ) -> Result<Vec<u64, A>, AllocError>
        requires there { carries handles.old replacement.now.guid replacement.now.handle ≡ true }
        requires numbers { handles.old.last_number < 2 ^ 61 }
        requires stamps { handles.old.last_stamp + 1 < 2 ^ 61 }
        ensures ok { IfOk result (λ e. ReconnectsBy D.meaning self.now replacement.now
            handles.old opens.old given.items e.items handles.new opens.new) }
        ensures err { OnErr result ((handles.new ≡ handles.old) × (opens.new ≡ opens.old)) }
        ensures numbers { handles.new.last_number ≤ handles.old.last_number + 4096 }
        ensures stamps { handles.new.last_stamp ≤ handles.old.last_stamp + 16385 }
    {
        let Some(own) = handles.installed(replacement.handle, replacement.guid) else {
            unreachable!();
        };
        let last_stamp = handles.last_stamp();
        handles.replace(replacement.handle, replacement.guid, replacement.value);
        match self.connect_below(handles, opens, replacement.handle, given) {
            Ok(events) => Ok(events),
            Err(error) => {
                handles.restore(replacement.handle, replacement.guid, own, last_stamp);
                Err(error)
            }
        }
    }
}
