//! What to stop, for a caller that stops drivers itself, before a service is called that needs it.
ghost use Rattle.std.specs.Prelude.{◌≡◌, IfOk};
ghost use Rattle.open_agents.specs.Blocks.{items_near};
ghost use Rattle.open_agents.specs.OpenItems.{is_driving};
ghost use Rattle.driver_connect.specs.StopOrder.{children_of as children, stop_order};
ghost use Rattle.driver_connect.specs.Stopping.{managers_meant, planned_stop};
ghost use Rattle.protocol_services.specs.Removing.{drivers_on};

use crate::protocols::Protocols;
use guid_handles::{Pair, is_same_guid};
use open_agents::{Near, OpenRecord, is_for_driver};
use std::alloc::{AllocError, Allocator};
use uuid::Uuid;

/// Whether an item is for a driver, on an interface.
fn is_driving(o: &OpenRecord, handle: u64, guid: Uuid) -> bool
    ensures { result ≡ is_driving handle guid o.now }
{
    o.handle == handle && is_same_guid(&o.guid, &guid) && is_for_driver(o.attributes)
}

/// The managers that have an interface open, by the items near it.
pub(crate) fn drivers_near<A: Allocator>(
    alloc: A,
    near: Near<'_>,
    handle: u64,
    guid: Uuid,
) -> Result<Vec<Pair, A>, AllocError>
    ensures { IfOk result (λ v. v.items ≡ drivers_on (items_near near.entry) handle guid) }
{
    let mut pairs = Vec::new(alloc);
    for o in near.items() {
        if is_driving(o, handle, guid) {
            pairs.push(o.manager())?;
        }
    }
    Ok(pairs)
}

impl<A: Allocator + Copy> Protocols<A> {
    /// The managers to be stopped, in order, before an interface that drivers have open can be opened exclusively,
    /// uninstalled or reinstalled.
    pub fn stops_on_interface(&self, handle: u64, guid: Uuid) -> Result<Vec<Pair, A>, AllocError>
        ensures { IfOk result
            (λ v. v.items ≡ stop_order
            (planned_stop self.now.handles self.now.opens
            (drivers_on self.now.opens handle guid))) }
    {
        let pairs = drivers_near(self.alloc, self.opens.near(handle), handle, guid)?;
        self.lists().pairs_to_stop(pairs)
    }

    /// The managers to be stopped, in order, before a handle can be disconnected from the drivers that manage
    /// it, or from one of them if `driver` is not 0.
    pub fn stops_on_controller(&self, handle: u64, driver: u64) -> Result<Vec<Pair, A>, AllocError>
        ensures { IfOk result
            (λ v. v.items ≡ stop_order
            (planned_stop self.now.handles self.now.opens
            (managers_meant self.now.opens handle driver))) }
    {
        self.lists().managers_to_stop(handle, driver)
    }

    /// The children of a pair of a controller and an agent.
    pub fn children(&self, controller: u64, agent: u64) -> Result<Vec<u64, A>, AllocError>
        ensures { IfOk result
            (λ v. v.items ≡ children self.now.handles self.now.opens
            (record { controller = controller; agent = agent })) }
    {
        self.lists().children_of(Pair { controller, agent })
    }
}
