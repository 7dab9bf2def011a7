//! How far a connect has come.
ghost use Rattle.std.specs.Prelude.{◌≡◌, ◌+◌, ◌<◌, ◌≤◌, ◌++◌, true, false, map, length, OnOk};
ghost use Rattle.std.specs.List.{list_all, AllByRecursion};
ghost use Rattle.guid_handles.specs.HandleChanges.{max_handles};
ghost use Rattle.open_agents.specs.OpenRule.{has_holder};
ghost use Rattle.driver_connect.specs.Drivers.{is_free};
ghost use Rattle.driver_connect.specs.Starting as spec;
ghost use Rattle.driver_connect.specs.GoingOn.{HasMade, HasOpened};
ghost use Rattle.driver_connect.specs.Room.{HasRoom, Grows};

use crate::table::is_free;
use crate::view::{MAX_PAIRS, ProtocolView, StartPlan};
use arrayvec::ArrayVec;
use guid_handles::{Handles, MAX_HANDLES, Pair, has_guid_twice};
use open_agents::{BY_DRIVER, Opens};
use protocol_notify::Notify;
use std::alloc::{AllocError, Allocator};
use uuid::Uuid;

/// Whether a GUID is among some.
fn has_guid(guids: &[Uuid], guid: Uuid) -> bool
    ensures { result ≡ spec.has_guid guids.now guid }
{
    guids.iter().any(|g| guid == *g)
}

/// Whether a GUID occurs twice in a list.
fn has_twice(guids: &[Uuid]) -> bool
    ensures { result ≡ spec.has_twice guids.now }
{
    for (k, guid) in guids.iter().enumerate() {
        if has_guid(&guids[k + 1..], *guid) {
            return true;
        }
    }
    false
}

/// Whether a child has interfaces, of different GUIDs.
fn is_child(pairs: &[(Uuid, u64)]) -> bool
    ensures { result ≡ spec.is_child pairs.now }
{
    !pairs.is_empty() && !has_guid_twice(pairs)
}

/// Whether each of some children has interfaces, of different GUIDs.
fn are_children(children: &[ArrayVec<(Uuid, u64), MAX_PAIRS>]) -> bool
    ensures { result ≡ list_all spec.is_child (map (λ c. c.items) children.now) }
{
    for child in children {
        if !is_child(child.as_slice()) {
            return false;
        }
    }
    true
}

/// Whether each of some GUIDs is among some protocols and is not held.
fn are_free(protocols: &[ProtocolView], guids: &[Uuid]) -> bool
    ensures { result ≡ list_all (is_free protocols.now) guids.now }
{
    guids.iter().all(|guid| is_free(protocols, *guid))
}

/// Whether a plan can be carried out on a handle with some protocols.
pub(crate) fn can_start<A: Allocator + Copy>(
    handles: &Handles<A>,
    protocols: &[ProtocolView],
    plan: &StartPlan,
) -> bool
    ensures { result ≡ spec.can_start handles.now protocols.now plan.now }
{
    !plan.opens.is_empty()
        && !has_twice(plan.opens.as_slice())
        && are_free(protocols, plan.opens.as_slice())
        && are_children(plan.children.as_slice())
        && handles.all().len() + plan.children.len() <= MAX_HANDLES
}

/// Opens GUIDs of a controller for a driver, in order.
pub(crate) fn open_for_driver<A: Allocator + Copy>(
    opens: &mut Opens<A>,
    controller: u64,
    agent: u64,
    guids: &[Uuid],
) -> Result<(), AllocError>
    requires free { AllByRecursion (λ g. has_holder opens.old controller g ≡ false) guids.now }
    requires once { spec.has_twice guids.now ≡ false }
    ensures items { OnOk result
        (opens.new ≡ spec.with_driver_items controller agent guids.now opens.old) }
    ensures opened { HasOpened opens.old opens.new }
{
    for guid in guids {
        opens.add(controller, *guid, agent, controller, BY_DRIVER)?;
    }
    Ok(())
}

/// Makes a child of a maker.
fn make_child<A: Allocator + Copy>(
    handles: &mut Handles<A>,
    maker: Pair,
    child: &ArrayVec<(Uuid, u64), MAX_PAIRS>,
) -> Result<(), AllocError>
    requires room { HasRoom handles.old }
    requires child { spec.is_child child.now.items ≡ true }
    requires places { length handles.old.handles < max_handles }
    ensures handles { OnOk result
        (handles.new ≡ spec.with_child maker child.now.items handles.old) }
    ensures grows { OnOk result (Grows handles.old handles.new) }
    ensures count { OnOk result (length handles.new.handles ≡ length handles.old.handles + 1) }
    ensures made { HasMade handles.old handles.new }
{
    handles.make_child(maker.controller, maker.agent, child.as_slice())?;
    Ok(())
}

/// Makes children of a maker, in order.
pub(crate) fn make_children<A: Allocator + Copy>(
    handles: &mut Handles<A>,
    maker: Pair,
    children: &[ArrayVec<(Uuid, u64), MAX_PAIRS>],
) -> Result<(), AllocError>
    requires room { HasRoom handles.old }
    requires children { list_all spec.is_child (map (λ c. c.items) children.now) ≡ true }
    requires places { length handles.old.handles + length children.now ≤ max_handles }
    ensures handles { OnOk result
        (handles.new ≡ spec.with_children maker (map (λ c. c.items) children.now) handles.old) }
    ensures grows { OnOk result (Grows handles.old handles.new) }
    ensures made { HasMade handles.old handles.new }
{
    for child in children {
        make_child(handles, maker, child)?;
    }
    Ok(())
}

/// Adds the events that are signaled for a child's interfaces, in order.
fn signal_child<A: Allocator + Copy>(
    events: &mut Vec<u64, A>,
    notify: &Notify<A>,
    child: &[(Uuid, u64)],
) -> Result<(), AllocError>
    ensures { OnOk result
        (events.new.items ≡ events.old.items ++ spec.events_of notify.now child.now) }
{
    for pair in child {
        let more = notify.signaled(pair.0)?;
        events.extend_from_slice(more.as_slice())?;
    }
    Ok(())
}

/// Adds the events that are signaled for the interfaces of children, in order.
pub(crate) fn signal_children<A: Allocator + Copy>(
    events: &mut Vec<u64, A>,
    notify: &Notify<A>,
    children: &[ArrayVec<(Uuid, u64), MAX_PAIRS>],
) -> Result<(), AllocError>
    ensures { OnOk result
        (events.new.items ≡ events.old.items ++ spec.events_of_all notify.now
        (map (λ c. c.items) children.now)) }
{
    for child in children {
        signal_child(events, notify, child.as_slice())?;
    }
    Ok(())
}
