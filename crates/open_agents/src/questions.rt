//! What is asked of open items.
ghost use Rattle.std.specs.Prelude.{◌≡◌, ◌+◌, ◌≤◌, ◌==◌, ◌&&◌, ◌||◌, [], true, false, drop, length, is_some, IfSome, IfNone};
ghost use Rattle.std.specs.List.{list_any};
ghost use Rattle.open_agents.specs.OpenItems as spec;
ghost use Rattle.open_agents.specs.OpenRequests.{asks_for, is_among};
ghost use Rattle.open_agents.specs.Blocks.{Finds, HoldsAt, MissesNone, item_at as there, items_in, items_near};
ghost use Rattle.open_agents.specs.OpenRule as rule;

use crate::attributes::{BY_CHILD_CONTROLLER, BY_DRIVER, EXCLUSIVE, is_exclusive, is_for_driver};
use crate::items::{OpenRecord, OpenRequest, Usage, is_equal_item, is_open_on};
use crate::near::{Near, item_at};
use uuid::Uuid;

/// Whether there is an item equal to what a call asks for.
pub(crate) fn has_equal(near: Near<'_>, request: &OpenRequest) -> bool
    ensures { result ≡ is_among (items_near near.entry) request.now }
{
    near.items().any(|o| is_equal_item(o, request))
}

/// Whether the agent of a call has the interface open with the same attributes.
pub(crate) fn has_of_agent(near: Near<'_>, request: &OpenRequest) -> bool
    ensures { result
        ≡ rule.has_of_agent
        (items_near near.entry) request.now.handle request.now.guid request.now.agent
        request.now.attributes }
{
    near.items().any(|o| is_of_agent(o, request))
}

/// Whether an item is of the agent of a call, with the same attributes, on the interface.
fn is_of_agent(o: &OpenRecord, request: &OpenRequest) -> bool
    ensures { result
        ≡ spec.is_open_with request.now.handle request.now.guid request.now.agent
        request.now.attributes o.now }
{
    o.agent == request.agent
        && o.attributes == request.attributes
        && is_open_on(o, request.handle, request.guid)
}

/// Whether an interface is open for a driver or exclusively.
pub(crate) fn is_held(near: Near<'_>, handle: u64, guid: Uuid) -> bool
    ensures { result ≡ rule.has_holder (items_near near.entry) handle guid }
{
    near.items().any(|o| holds(o, handle, guid))
}

/// Whether an item is for a driver or exclusive, on an interface.
fn holds(o: &OpenRecord, handle: u64, guid: Uuid) -> bool
    ensures { result ≡ spec.is_holding handle guid o.now }
{
    (is_for_driver(o.attributes) || is_exclusive(o.attributes)) && is_open_on(o, handle, guid)
}

/// Whether an interface is open exclusively.
pub(crate) fn has_exclusive(near: Near<'_>, handle: u64, guid: Uuid) -> bool
    ensures { result ≡ rule.has_exclusive (items_near near.entry) handle guid }
{
    near.items().any(|o| excludes(o, handle, guid))
}

/// Whether an item is exclusive, on an interface.
fn excludes(o: &OpenRecord, handle: u64, guid: Uuid) -> bool
    ensures { result ≡ (spec.is_open_on handle guid o.now && spec.is_exclusive o.now.attributes) }
{
    is_exclusive(o.attributes) && is_open_on(o, handle, guid)
}

/// How an interface is open by the items near it.
pub(crate) fn usage_near(near: Near<'_>, handle: u64, guid: Uuid) -> Usage
    ensures open { result.is_open
        ≡ list_any (spec.is_open_on handle guid) (items_near near.entry) }
    ensures driven { result.is_driven
        ≡ list_any (spec.is_driving handle guid) (items_near near.entry) }
    ensures kept { result.is_kept
        ≡ list_any (spec.is_keeping handle guid) (items_near near.entry) }
{
    let mut usage = Usage {
        is_open: false,
        is_driven: false,
        is_kept: false,
    };
    for o in near.items() {
        usage = with_use(usage, o, handle, guid);
    }
    usage
}

/// How an interface is open by some items and another one.
fn with_use(usage: Usage, o: &OpenRecord, handle: u64, guid: Uuid) -> Usage
    ensures open { result.is_open ≡ (usage.is_open || spec.is_open_on handle guid o.now) }
    ensures driven { result.is_driven ≡ (usage.is_driven || spec.is_driving handle guid o.now) }
    ensures kept { result.is_kept ≡ (usage.is_kept || spec.is_keeping handle guid o.now) }
{
    if !is_open_on(o, handle, guid) {
        return usage;
    }
    Usage {
        is_open: true,
        is_driven: usage.is_driven || is_for_driver(o.attributes),
        is_kept: usage.is_kept || keeps(o.attributes),
    }
}

/// Whether an open with some attributes keeps its interface: one for a child, or an exclusive one of
/// no driver.
fn keeps(attributes: u32) -> bool
    ensures { result ≡ spec.keeps attributes }
{
    attributes == BY_CHILD_CONTROLLER || attributes == EXCLUSIVE
}

/// Whether an item is for a driver and not exclusive, on the interface of a GUID on a handle.
fn is_driver_item(o: &OpenRecord, handle: u64, guid: Uuid) -> bool
    ensures { result ≡ rule.is_driver_item handle guid o.now }
{
    o.attributes == BY_DRIVER && is_open_on(o, handle, guid)
}

/// The first item for a driver on an interface that is not exclusive.
pub(crate) fn first_driver_item(near: Near<'_>, handle: u64, guid: Uuid) -> Option<OpenRecord>
    ensures { result ≡ rule.driver_item (items_near near.entry) handle guid }
{
    near.items()
        .find(|o| is_driver_item(o, handle, guid))
        .copied()
}

/// The place of an item that is equal to what a call asks for.
pub(crate) fn find_equal(near: Near<'_>, request: &OpenRequest) -> Option<usize>
    ensures there { Finds (asks_for request.now) near.entry result }
    ensures none { MissesNone (asks_for request.now) near.entry result }
{
    for place in near.places {
        if let Some(o) = item_at(near.slots, *place) {
            if is_equal_item(o, request) {
                return Some(*place);
            }
        }
    }
    None
}

/// The place of the last item, where none is at a place from `end` on.
pub(crate) fn find_last(slots: &[Option<OpenRecord>], end: usize) -> Option<usize>
    requires bound { end ≤ length slots.now }
    requires after { items_in (drop end slots.now) ≡ [] }
    ensures there { IfSome result (λ k. is_some (there slots.now k) ≡ true) }
    ensures last { IfSome result (λ k. items_in (drop (k + 1) slots.now) ≡ []) }
    ensures none { IfNone result (items_in slots.now ≡ []) }
{
    for place in (0..end).rev() {
        if slots[place].is_some() {
            return Some(place);
        }
    }
    None
}
