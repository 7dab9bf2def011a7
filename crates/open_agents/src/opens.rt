//! The open items of all interfaces.
ghost use Rattle.std.specs.Prelude.{◌≡◌, ◌<◌, ◌^◌, ◌==◌, true, false, [], length, slice_get, take, IfOk, IsOk, OnOk, OnErr};
ghost use Rattle.std.specs.List.{AllByRecursion, filter, list_any};
ghost use Rattle.guid_handles.specs.HandleTables.{carries, is_live};
ghost use Rattle.guid_handles.specs.HandleChanges.{is_dead as dead};
ghost use Rattle.open_agents.specs.OpenItems as spec;
ghost use Rattle.open_agents.specs.OpenItems.{is_closed_by, names, items_on, managers_of, managers_of_any, with_item, without_items};
ghost use Rattle.open_agents.specs.OpenRule as rule;
ghost use Rattle.open_agents.specs.OpenRule.{has_equal};
ghost use Rattle.open_agents.specs.OpenRequests.{decision_on, is_among, with_request};
ghost use Rattle.open_agents.specs.Blocks.{is_near, items_in, items_near};
ghost use Rattle.open_agents.specs.Listed.{items_of};

use crate::attributes::{
    BY_CHILD_CONTROLLER, BY_DRIVER, EXCLUSIVE, is_exclusive, is_for_driver, is_known, needs_agent,
    needs_controller,
};
use crate::item_tests::{Beside, Closed, Names, OfPair, OpenOn};
use crate::items::{
    Decision, OpenItem, OpenRecord, OpenRequest, Usage, is_open_on, item_of, manages,
};
use crate::managers;
use crate::near::Near;
use crate::questions::{
    find_equal, first_driver_item, has_equal, has_exclusive, has_of_agent, is_held, usage_near,
};
use crate::store::ItemStore;
use guid_handles::{Handles, Pair};
use page_ranges::Status;
use std::alloc::{AllocError, Allocator, Global};
use std::marker::Model;
use uuid::Uuid;

/// The open items.
#[derive(Drop)]
pub struct Opens<A: Allocator = Global> {
    items: ItemStore<A>,
}

impl<A: Allocator> Model for Opens<A> {
    ghost use Rattle.std.specs.Prelude.{List};
    ghost use Rattle.open_agents.specs.declared.items.OpenRecord.{OpenRecord};
    ghost use Rattle.open_agents.specs.Blocks.{items_in};

    ghost Value = { List OpenRecord };

    ghost view = { λ o. items_in o.items };
}

impl<A: Allocator + Copy> Opens<A> {
    /// No items. This takes no memory.
    pub fn new(alloc: A) -> Opens<A>
        ensures { result ≡ [] }
    {
        Opens {
            items: ItemStore::new(alloc),
        }
    }

    /// The same items, in memory of their own.
    pub fn try_copy(&self) -> Result<Opens<A>, AllocError>
        ensures { IfOk result (λ copy. copy ≡ self.now) }
    {
        let items = self.items.try_copy()?;
        Ok(Opens { items })
    }

    /// All items, in the order in which they were made, with a `None` for some that were closed.
    pub fn slots(&self) -> &[Option<OpenRecord>]
        ensures { items_in result.now ≡ self.now }
    {
        self.items.slots()
    }

    /// How many items there are.
    pub fn len(&self) -> usize
        ensures count { result ≡ length self.now }
        ensures bound { result < 2 ^ 63 }
    {
        self.items.len()
    }

    /// The items near a handle: those on it and, if it is not 0, those whose controller it is.
    pub fn near(&self, handle: u64) -> Near<'_>
        ensures { items_near result ≡ filter (is_near handle) self.now }
    {
        self.items.near(handle)
    }

    /// Whether an interface is open for a driver or exclusively.
    pub fn has_holder(&self, handle: u64, guid: Uuid) -> bool
        ensures { result ≡ rule.has_holder self.now handle guid }
    {
        is_held(self.near(handle), handle, guid)
    }

    /// How an interface is open.
    pub fn usage(&self, handle: u64, guid: Uuid) -> Usage
        ensures open { result.is_open ≡ list_any (spec.is_open_on handle guid) self.now }
        ensures driven { result.is_driven ≡ spec.is_driven self.now handle guid }
        ensures kept { result.is_kept ≡ spec.is_kept self.now handle guid }
    {
        usage_near(self.near(handle), handle, guid)
    }

    /// What is to be done about a call of OpenProtocol. This takes no memory.
    pub fn decide(
        &self,
        handles: &Handles<A>,
        handle: u64,
        guid: Uuid,
        agent: u64,
        controller: u64,
        attributes: u32,
    ) -> Decision
        ensures { result
            ≡ rule.open_rule handles.now self.now handle guid agent controller attributes }
    {
        let request = OpenRequest {
            handle,
            guid,
            agent,
            controller,
            attributes,
        };
        self.decide_installed(handles, handles.interface(handle, guid).is_some(), &request)
    }

    /// What `decide` returns, where it is known whether the handle carries the GUID.
    pub fn decide_installed(
        &self,
        handles: &Handles<A>,
        installed: bool,
        request: &OpenRequest,
    ) -> Decision
        requires { installed ≡ carries handles.now request.now.guid request.now.handle }
        ensures { result ≡ decision_on handles.now self.now request.now }
    {
        // No item is of agent 0.
        let _slots = self.items.slots();
        if request.agent != 0 {
            return decide_among(handles, installed, self.near(request.handle), request);
        }
        let none = Near {
            slots: &[],
            places: &[],
        };
        decide_among(handles, installed, none, request)
    }

    /// Closes all items of an agent and a controller on an interface, and returns whether there
    /// were any.
    pub fn close(&mut self, handle: u64, guid: Uuid, agent: u64, controller: u64) -> bool
        ensures found { result ≡ list_any (is_closed_by handle guid agent controller) self.old }
        ensures items { self.new
            ≡ without_items (is_closed_by handle guid agent controller) self.old }
    {
        let closed = Closed {
            handle,
            guid,
            agent,
            controller,
        };
        self.items.drop_passing(handle, &closed)
    }

    /// Removes all items of a controller and an agent.
    pub fn drop_pair(&mut self, controller: u64, agent: u64)
        ensures { self.new ≡ without_items (spec.is_of_pair controller agent) self.old }
    {
        let pair = OfPair { controller, agent };
        if controller == 0 {
            self.items.drop_anywhere(&pair);
        } else {
            self.items.drop_passing(controller, &pair);
        }
    }

    /// Removes all items that name a handle, as their handle, agent or controller.
    pub fn drop_handle(&mut self, handle: u64)
        ensures { self.new ≡ without_items (names handle) self.old }
    {
        if handle == 0 || self.items.may_be_agent(handle) {
            self.drop_agent(handle);
        } else {
            self.drop_naming_near(handle);
        }
    }

    /// Removes all items that name a handle, looked for among all.
    fn drop_agent(&mut self, handle: u64)
        ensures { self.new ≡ without_items (names handle) self.old }
    {
        self.items.drop_anywhere(&Names { handle });
        self.items.forget_agent(handle);
    }

    /// Removes all items that name a handle, which is the agent of none, looked for near it.
    fn drop_naming_near(&mut self, handle: u64)
        requires handle { (handle == 0) ≡ false }
        requires agent { AllByRecursion (λ o. (o.agent == handle) ≡ false) self.old }
        ensures { self.new ≡ without_items (names handle) self.old }
    {
        self.items.drop_passing(handle, &Beside { handle });
    }

    /// Removes all items of an interface.
    pub fn drop_interface(&mut self, handle: u64, guid: Uuid)
        ensures { self.new ≡ without_items (spec.is_open_on handle guid) self.old }
    {
        self.items.drop_passing(handle, &OpenOn { handle, guid });
    }

    /// Removes the items that were made last, and leaves a number of those made first. This takes no memory.
    pub fn truncate(&mut self, count: usize)
        ensures { self.new ≡ take count self.old }
    {
        self.items.truncate(count);
    }

    /// Counts an equal item once more, whose count stays at its end of 2^32 - 1, or makes a new one where there
    /// is none and the agent is not 0. Only a new item takes memory. On an `Err` the items are as they were.
    pub fn add(
        &mut self,
        handle: u64,
        guid: Uuid,
        agent: u64,
        controller: u64,
        attributes: u32,
    ) -> Result<(), AllocError>
        ensures ok { OnOk result
            (self.new ≡ with_item handle guid agent controller attributes self.old) }
        ensures err { OnErr result (self.new ≡ self.old) }
        ensures counts { has_equal self.old handle guid agent controller attributes ≡ true
            → IsOk result }
        ensures no_agent { agent ≡ 0 → IsOk result }
    {
        self.add_request(&OpenRequest {
            handle,
            guid,
            agent,
            controller,
            attributes,
        })
    }

    /// What `add` does, of a call as one value.
    pub fn add_request(&mut self, request: &OpenRequest) -> Result<(), AllocError>
        ensures ok { OnOk result (self.new ≡ with_request request.now self.old) }
        ensures err { OnErr result (self.new ≡ self.old) }
        ensures counts { is_among self.old request.now ≡ true → IsOk result }
        ensures no_agent { request.now.agent ≡ 0 → IsOk result }
    {
        // No item is of agent 0.
        let _slots = self.items.slots();
        if request.agent == 0 {
            return Ok(());
        }
        if let Some(place) = find_equal(self.items.near(request.handle), request) {
            self.items.count_at(place, request);
            return Ok(());
        }
        self.add_new(request)
    }

    /// Makes a new item where there is no equal one, if the agent is not 0. On an `Err` the items are as
    /// they were.
    pub fn add_new(&mut self, request: &OpenRequest) -> Result<(), AllocError>
        requires { is_among self.old request.now ≡ false }
        ensures ok { OnOk result (self.new ≡ with_request request.now self.old) }
        ensures err { OnErr result (self.new ≡ self.old) }
        ensures no_agent { request.now.agent ≡ 0 → IsOk result }
    {
        if request.agent != 0 {
            return self.items.push(&OpenRecord {
                handle: request.handle,
                guid: request.guid,
                agent: request.agent,
                controller: request.controller,
                attributes: request.attributes,
                count: 1,
            });
        }
        Ok(())
    }

    /// The items of an interface, in the order in which they were made. If there are none, this
    /// takes no memory.
    pub fn items(&self, handle: u64, guid: Uuid) -> Result<Vec<OpenItem, A>, AllocError>
        ensures items { IfOk result (λ v. v.items ≡ items_on self.now handle guid) }
        ensures none { items_on self.now handle guid ≡ [] → IsOk result }
    {
        items_among(self.items.allocator(), self.near(handle), handle, guid)
    }

    /// The item at an index among those of an agent, in the order in which they were made.
    pub fn nth_of(&self, agent: u64, index: usize) -> Option<OpenRecord>
        ensures { result ≡ slice_get (items_of self.now agent) index }
    {
        self.items.nth_of(agent, index)
    }

    /// The managers of a handle: one for each item for a driver with the handle as its controller,
    /// on whatever handle it is. If there are none, this takes no memory.
    pub fn managers(&self, handle: u64) -> Result<Vec<Pair, A>, AllocError>
        ensures pairs { IfOk result (λ v. v.items ≡ managers_of self.now handle) }
        ensures none { managers_of self.now handle ≡ [] → IsOk result }
    {
        if handle == 0 {
            return managers_among(self.items.allocator(), self.items.slots(), handle);
        }
        managers_near(self.items.allocator(), self.near(handle), handle)
    }

    /// The managers of some handles, none of which is 0, in the order of their items.
    pub fn managers_of_any(&self, handles: &[u64]) -> Result<Vec<Pair, A>, AllocError>
        requires { AllByRecursion (λ n. (n == 0) ≡ false) handles.now }
        ensures { IfOk result (λ v. v.items ≡ managers_of_any self.now handles.now) }
    {
        managers::of_any(&self.items, handles)
    }
}

/// What is to be done about a call of OpenProtocol, by the items on its handle.
fn decide_among<A: Allocator + Copy>(
    handles: &Handles<A>,
    installed: bool,
    on: Near<'_>,
    request: &OpenRequest,
) -> Decision
    requires { installed ≡ carries handles.now request.now.guid request.now.handle }
    ensures { result ≡ decision_on handles.now (items_near on.entry) request.now }
{
    let OpenRequest {
        handle,
        guid,
        agent: _,
        controller: _,
        attributes,
    } = *request;
    if !is_known(attributes)
        || !is_live_if(handles, installed, handle, guid)
        || names_badly(handles, request)
    {
        return Decision::Refuse(Status::InvalidParameter);
    }
    if !installed {
        return Decision::Refuse(Status::Unsupported);
    }
    if has_equal(on, request) {
        return if is_for_driver(attributes) {
            Decision::Refuse(Status::AlreadyStarted)
        } else if attributes == EXCLUSIVE {
            Decision::Refuse(Status::AccessDenied)
        } else {
            Decision::Count
        };
    }
    if is_for_driver(attributes) && has_of_agent(on, request) {
        return Decision::Refuse(Status::AlreadyStarted);
    }
    if attributes == BY_DRIVER && is_held(on, handle, guid) {
        return Decision::Refuse(Status::AccessDenied);
    }
    if !is_exclusive(attributes) {
        return Decision::Add;
    }
    if has_exclusive(on, handle, guid) {
        return Decision::Refuse(Status::AccessDenied);
    }
    match first_driver_item(on, handle, guid) {
        Some(item) => Decision::StopFirst(item.manager()),
        None => Decision::Add,
    }
}

/// Whether a handle is live, which is not looked up where it carries a GUID.
fn is_live_if<A: Allocator + Copy>(
    handles: &Handles<A>,
    installed: bool,
    handle: u64,
    guid: Uuid,
) -> bool
    requires { installed ≡ carries handles.now guid handle }
    ensures { result ≡ is_live handles.now handle }
{
    // The contract of this look-up says that interfaces are on live handles.
    let _numbers = handles.all();
    installed || handles.is_live(handle)
}

/// Whether a call of a live handle lacks an agent or a controller, or names a dead one, or the handle
/// itself as the controller of a child.
fn names_badly<A: Allocator + Copy>(handles: &Handles<A>, request: &OpenRequest) -> bool
    requires { is_live handles.now request.now.handle ≡ true }
    ensures { result ≡ rule.names_badly
        handles.now request.now.handle request.now.agent request.now.controller
        request.now.attributes }
{
    let OpenRequest {
        handle,
        guid: _,
        agent,
        controller,
        attributes,
    } = *request;
    (agent == 0 && needs_agent(attributes))
        || (controller == 0 && needs_controller(attributes))
        || is_dead(handles, agent)
        || (controller != handle && is_dead(handles, controller))
        || (attributes == BY_CHILD_CONTROLLER && controller == handle)
}

/// Whether a handle is neither 0 nor live.
fn is_dead<A: Allocator + Copy>(handles: &Handles<A>, handle: u64) -> bool
    ensures { result ≡ dead handles.now handle }
{
    handle != 0 && !handles.is_live(handle)
}

/// The items of an interface among those near it.
fn items_among<A: Allocator>(
    alloc: A,
    near: Near<'_>,
    handle: u64,
    guid: Uuid,
) -> Result<Vec<OpenItem, A>, AllocError>
    ensures items { IfOk result (λ v. v.items ≡ items_on (items_near near.entry) handle guid) }
    ensures none { items_on (items_near near.entry) handle guid ≡ [] → IsOk result }
{
    let mut found = Vec::new(alloc);
    for o in near.items() {
        if is_open_on(o, handle, guid) {
            found.push(item_of(o))?;
        }
    }
    Ok(found)
}

/// The managers of a handle by items near it.
fn managers_near<A: Allocator>(
    alloc: A,
    near: Near<'_>,
    handle: u64,
) -> Result<Vec<Pair, A>, AllocError>
    ensures pairs { IfOk result (λ v. v.items ≡ managers_of (items_near near.entry) handle) }
    ensures none { managers_of (items_near near.entry) handle ≡ [] → IsOk result }
{
    let mut found = Vec::new(alloc);
    for o in near.items() {
        if manages(o, handle) {
            found.push(o.manager())?;
        }
    }
    Ok(found)
}

/// The managers of a handle by all items.
fn managers_among<A: Allocator>(
    alloc: A,
    slots: &[Option<OpenRecord>],
    handle: u64,
) -> Result<Vec<Pair, A>, AllocError>
    ensures pairs { IfOk result (λ v. v.items ≡ managers_of (items_in slots.now) handle) }
    ensures none { managers_of (items_in slots.now) handle ≡ [] → IsOk result }
{
    let mut found = Vec::new(alloc);
    for slot in slots {
        if let Some(item) = slot {
            if manages(item, handle) {
                found.push(item.manager())?;
            }
        }
    }
    Ok(found)
}
