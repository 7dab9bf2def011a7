//! The lists as they are looked at, and the protocols on a handle, as drivers are shown them.
ghost use Rattle.std.specs.Prelude.{◌≡◌, IfOk};
ghost use Rattle.driver_connect.specs.Drivers as spec;

use crate::view::ProtocolView;
use guid_handles::{Handles, Interface};
use open_agents::Opens;
use std::alloc::{AllocError, Allocator};

/// An interface as a protocol that drivers are shown.
fn protocol_view<A: Allocator + Copy>(i: &Interface, opens: &Opens<A>) -> ProtocolView
    ensures { result ≡ spec.protocol_view opens.now i.now }
{
    ProtocolView {
        guid: i.guid,
        value: i.value,
        held: opens.has_holder(i.handle, i.guid),
    }
}

/// The handles and the open items, and where what is found on them is allocated.
#[derive(Drop)]
pub struct Lists<'a, A: Allocator> {
    pub alloc: A,
    pub handles: &'a Handles<A>,
    pub opens: &'a Opens<A>,
}

impl<'a, A: Allocator + Copy> Lists<'a, A> {
    /// The protocols on a handle, in order of installation.
    pub(crate) fn protocols_on(&self, handle: u64) -> Result<Vec<ProtocolView, A>, AllocError>
        ensures { IfOk result (λ v. v.items
            ≡ spec.protocols_on self.now.handles.now self.now.opens.now handle) }
    {
        let mut found = Vec::new(self.alloc);
        for at in 0..self.handles.interface_count(handle) {
            if let Some(interface) = self.handles.nth_interface(handle, at) {
                found.push(protocol_view(&interface, self.opens))?;
            }
        }
        Ok(found)
    }
}
