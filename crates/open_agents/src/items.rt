//! Open items, and what may be decided about a call of OpenProtocol.
ghost use Rattle.std.specs.Prelude.{◌≡◌};
ghost use Rattle.open_agents.specs.OpenItems as spec;
ghost use Rattle.open_agents.specs.OpenRequests.{asks_for};

use crate::attributes::is_for_driver;
use guid_handles::{Pair, is_same_guid};
use page_ranges::Status;
use uuid::Uuid;

/// An item of the open list: an interface, which agent has it open, how, and how often.
#[derive(Clone, Copy)]
pub struct OpenRecord {
    pub handle: u64,
    pub guid: Uuid,
    pub agent: u64,
    pub controller: u64,
    pub attributes: u32,
    pub count: u32,
}

impl OpenRecord {
    /// The controller and the agent of the item.
    pub fn manager(&self) -> Pair
        ensures { result ≡ spec.manager_of self.now }
    {
        Pair {
            controller: self.controller,
            agent: self.agent,
        }
    }
}

/// What a call of OpenProtocol asks for: the interface of a GUID on a handle, an agent, a controller and
/// attributes.
#[derive(Clone, Copy)]
pub struct OpenRequest {
    pub handle: u64,
    pub guid: Uuid,
    pub agent: u64,
    pub controller: u64,
    pub attributes: u32,
}

/// An item of an interface, as OpenProtocolInformation lists it: an EFI_OPEN_PROTOCOL_INFORMATION_ENTRY.
#[repr(C)]
#[derive(Clone, Copy, Debug, PartialEq, Eq)]
pub struct OpenItem {
    pub agent: u64,
    pub controller: u64,
    pub attributes: u32,
    pub count: u32,
}

/// How an interface is open, as far as its removal goes.
#[derive(Clone, Copy, Debug, PartialEq, Eq)]
pub struct Usage {
    /// There is an open item on it.
    pub is_open: bool,
    /// A driver has it open.
    pub is_driven: bool,
    /// An item keeps it: one for a child, or exclusive and of no driver.
    pub is_kept: bool,
}

/// What is to be done about a call of OpenProtocol.
#[derive(Clone, Copy, Debug, PartialEq, Eq)]
pub enum Decision {
    /// The call is refused.
    Refuse(Status),
    /// There is an equal item, whose count rises.
    Count,
    /// A new item is made.
    Add,
    /// A new item is made once the manager that has the interface open was stopped.
    StopFirst(Pair),
}

/// Whether an item is on the interface of a GUID on a handle.
pub(crate) fn is_open_on(o: &OpenRecord, handle: u64, guid: Uuid) -> bool
    ensures { result ≡ spec.is_open_on handle guid o.now }
{
    o.handle == handle && is_same_guid(&o.guid, &guid)
}

/// Whether an item is of a controller and an agent.
pub(crate) fn is_of_pair(o: &OpenRecord, controller: u64, agent: u64) -> bool
    ensures { result ≡ spec.is_of_pair controller agent o.now }
{
    o.agent == agent && o.controller == controller
}

/// Whether an item is equal to what a call asks for.
pub(crate) fn is_equal_item(o: &OpenRecord, request: &OpenRequest) -> bool
    ensures { result ≡ asks_for request.now o.now }
{
    is_of_pair(o, request.controller, request.agent)
        && o.attributes == request.attributes
        && is_open_on(o, request.handle, request.guid)
}

/// A count that rises by 1, but stays at its end.
pub(crate) fn once_more(count: u32) -> u32
    ensures { result ≡ spec.once_more count }
{
    count.saturating_add(1)
}

/// An item as OpenProtocolInformation lists it.
pub(crate) fn item_of(o: &OpenRecord) -> OpenItem
    ensures { result ≡ spec.item_of o.now }
{
    OpenItem {
        agent: o.agent,
        controller: o.controller,
        attributes: o.attributes,
        count: o.count,
    }
}

/// Whether an item makes its agent manage a handle.
pub(crate) fn manages(o: &OpenRecord, handle: u64) -> bool
    ensures { result ≡ spec.manages handle o.now }
{
    is_for_driver(o.attributes) && o.controller == handle
}
