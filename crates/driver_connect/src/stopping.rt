//! Stopping drivers, with the handles that they made.
ghost use Rattle.std.specs.Prelude.{◌≡◌, ◌==◌, ◌||◌, not, [], List, false, IfOk, OnErr, map};
ghost use Rattle.std.specs.List.{list_all, list_any, filter};
ghost use Rattle.guid_handles.specs.declared.records.Pair.{Pair};
ghost use Rattle.open_agents.specs.Blocks.{items_near};
ghost use Rattle.open_agents.specs.OpenItems.{without_items};
ghost use Rattle.driver_connect.specs.Stopping as spec;

use crate::agents::{driver_binding, driver_of, may_stop_at};
use crate::driver::Driver;
use crate::made::made_by;
use crate::pairs::{has_pair, is_made_by, set_of, set_of_each};
use crate::protocols::Lists;
use crate::view::View;
use guid_handles::{Handles, Pair};
use open_agents::{
    BY_CHILD_CONTROLLER, BY_HANDLE_PROTOCOL, GET_PROTOCOL, Near, OpenRecord, Opens, TEST_PROTOCOL,
};
use page_ranges::Status;
use std::alloc::{AllocError, Allocator, Global};
use std::marker::Model;

/// Whether an item on a handle that goes is no obstacle to a stop.
fn is_no_obstacle<A: Allocator + Copy>(handles: &Handles<A>, set: &[Pair], o: &OpenRecord) -> bool
    ensures { result ≡ spec.is_no_obstacle handles.now set.now o.now }
{
    matches!(
        o.attributes,
        BY_HANDLE_PROTOCOL | GET_PROTOCOL | TEST_PROTOCOL
    ) || has_pair(set, o.manager())
        || (o.attributes == BY_CHILD_CONTROLLER && is_made_by(handles, set, o.controller))
}

/// Whether the items on a handle are no obstacles, among those near it.
fn is_unobstructed_on<A: Allocator + Copy>(
    handles: &Handles<A>,
    near: Near<'_>,
    set: &[Pair],
    handle: u64,
) -> bool
    ensures { result
        ≡ list_all
        (λ o. not (o.handle == handle) || spec.is_no_obstacle handles.now set.now o)
        (items_near near.entry) }
{
    near.items()
        .all(|o| o.handle != handle || is_no_obstacle(handles, set, o))
}

/// Whether an agent is that of one of some pairs.
fn has_agent(pairs: &[Pair], agent: u64) -> bool
    ensures { result ≡ spec.has_agent pairs.now agent }
{
    pairs.iter().any(|p| p.agent == agent)
}

/// Whether the agent and the controller of a call of OpenProtocol stay.
fn spares_opener<A: Allocator + Copy>(
    handles: &Handles<A>,
    set: &[Pair],
    opener: Option<Pair>,
) -> bool
    ensures { result ≡ spec.spares_opener handles.now set.now opener }
{
    match opener {
        Some(opener) => {
            !has_agent(set, opener.agent)
                && !is_made_by(handles, set, opener.agent)
                && !is_made_by(handles, set, opener.controller)
        }
        None => true,
    }
}

impl<'a, A: Allocator + Copy> Lists<'a, A> {
    /// Whether the driver of a pair lets itself be stopped.
    fn may_stop<D: Driver>(&self, drivers: &[D], pair: Pair) -> Result<bool, AllocError>
        ensures { IfOk result (λ b. b ≡ spec.may_stop (map D.meaning drivers.now)
            self.now.handles.now self.now.opens.now pair) }
    {
        let Pair { controller, agent } = pair;
        let Some(place) = driver_of(drivers, self.handles, agent) else {
            return Ok(false);
        };
        let protocols = self.protocols_on(controller)?;
        let view = View {
            agent,
            controller,
            protocols: protocols.as_slice(),
        };
        Ok(may_stop_at(drivers, place, &view))
    }

    /// Whether the drivers of all pairs let themselves be stopped.
    fn may_all_stop<D: Driver>(&self, drivers: &[D], pairs: &[Pair]) -> Result<bool, AllocError>
        ensures { IfOk result (λ b. b ≡ list_all (spec.may_stop (map D.meaning drivers.now)
            self.now.handles.now self.now.opens.now) pairs.now) }
    {
        for pair in pairs {
            if !self.may_stop(drivers, *pair)? {
                return Ok(false);
            }
        }
        Ok(true)
    }

    /// Whether the items on the handles that go, which the pairs of the set made, are no obstacles.
    fn is_unobstructed(&self, set: &[Pair], made: &[u64]) -> bool
        requires { made.now ≡ spec.made_by self.now.handles.now set.now }
        ensures { result ≡ spec.is_unobstructed self.now.handles.now self.now.opens.now set.now }
    {
        for n in made {
            if !is_unobstructed_on(self.handles, self.opens.near(*n), set, *n) {
                return false;
            }
        }
        true
    }

    /// What the stop of some pairs removes. Without pairs this takes no memory.
    pub fn stop_plan(&self, pairs: &[Pair]) -> Result<StopPlan<A>, AllocError>
        ensures { IfOk result (λ plan. plan
            ≡ spec.planned_stop self.now.handles.now self.now.opens.now pairs.now) }
    {
        self.stop_plan_of_set(set_of_each(self.alloc, pairs)?)
    }

    /// The same, where a single pair stays in its memory.
    pub fn stop_plan_of_vec(&self, pairs: Vec<Pair, A>) -> Result<StopPlan<A>, AllocError>
        ensures { IfOk result (λ plan. plan
            ≡ spec.planned_stop self.now.handles.now self.now.opens.now pairs.items) }
    {
        self.stop_plan_of_set(set_of(self.alloc, pairs)?)
    }

    /// What the stop of the pairs of a set removes. Where they made no handle, it stops no other pairs.
    fn stop_plan_of_set(&self, set: Vec<Pair, A>) -> Result<StopPlan<A>, AllocError>
        ensures { IfOk result (λ plan. (ps : List Pair) → set.items ≡ spec.with_pairs [] ps
            → plan ≡ spec.planned_stop self.now.handles.now self.now.opens.now ps) }
    {
        let made = made_by(self.alloc, self.handles, set.as_slice())?;
        if made.is_empty() {
            return Ok(StopPlan {
                pairs: set,
                handles: made,
            });
        }
        let pairs = self.stop_set(set)?;
        let handles = made_by(self.alloc, self.handles, pairs.as_slice())?;
        Ok(StopPlan { pairs, handles })
    }

    /// Whether the pairs of a plan can be stopped, for a call on a handle, and of OpenProtocol also with
    /// its agent and controller: these and the handle must stay.
    pub fn can_be_stopped<D: Driver>(
        &self,
        plan: &StopPlan<A>,
        drivers: &[D],
        handle: u64,
        opener: Option<Pair>,
    ) -> Result<bool, AllocError>
        ensures { IfOk result (λ b. b ≡ spec.can_be_stopped (map D.meaning drivers.now)
            self.now.handles.now self.now.opens.now plan.now.pairs handle opener) }
    {
        let set = plan.pairs();
        if !self.may_all_stop(drivers, set)? {
            return Ok(false);
        }
        let made = made_by(self.alloc, self.handles, set)?;
        Ok(
            self.is_unobstructed(set, made.as_slice())
                && !is_made_by(self.handles, set, handle)
                && spares_opener(self.handles, set, opener),
        )
    }
}

/// Removes handles with their interfaces. Of ascending handles the last goes first, so that few are
/// left after one that goes.
fn remove_handles<A: Allocator + Copy>(handles: &mut Handles<A>, leaving: &[u64])
    ensures { handles.new ≡ spec.without_handles leaving.now handles.old }
{
    for at in (0..leaving.len()).rev() {
        handles.remove_handle(leaving[at]);
    }
}

/// Removes the items that name one of some handles.
fn take_naming<A: Allocator + Copy>(opens: &mut Opens<A>, leaving: &[u64])
    ensures { opens.new ≡ without_items (spec.names_any leaving.now) opens.old }
{
    for at in (0..leaving.len()).rev() {
        opens.drop_handle(leaving[at]);
    }
}

/// Removes the items of pairs.
fn take_pairs<A: Allocator + Copy>(opens: &mut Opens<A>, pairs: &[Pair])
    ensures { opens.new ≡ spec.without_pairs pairs.now opens.old }
{
    for pair in pairs {
        opens.drop_pair(pair.controller, pair.agent);
    }
}

/// Whether an item's handle, agent or controller is one of some handles.
fn names_any(handles: &[u64], handle: u64, agent: u64, controller: u64) -> bool
    ensures { result
        ≡ list_any (λ n. (handle == n) || ((agent == n) || (controller == n))) handles.now }
{
    handles
        .iter()
        .any(|n| handle == *n || agent == *n || controller == *n)
}

/// What a stop removes, found on the lists as they are: the items of the pairs that it stops, and the
/// handles that these pairs made, ascending.
#[derive(Drop)]
pub struct StopPlan<A: Allocator = Global> {
    pairs: Vec<Pair, A>,
    handles: Vec<u64, A>,
}

impl<A: Allocator> Model for StopPlan<A> {
    ghost use Rattle.driver_connect.specs.Stopping.{PlannedStop};

    ghost Value = { PlannedStop };

    ghost view = { λ p. record { pairs = p.pairs.items; handles = p.handles.items } };
}

impl<A: Allocator + Copy> StopPlan<A> {
    /// The pairs that the stop stops.
    pub(crate) fn pairs(&self) -> &[Pair]
        ensures { result.now ≡ self.now.pairs }
    {
        self.pairs.as_slice()
    }

    /// The handles that the stop removes.
    pub fn handles(&self) -> &[u64]
        ensures { result.now ≡ self.now.handles }
    {
        self.handles.as_slice()
    }

    /// Whether the stop removes the items of an agent and a controller on a handle.
    pub fn takes_item(&self, handle: u64, agent: u64, controller: u64) -> bool
        ensures { result ≡ spec.takes_item self.now handle agent controller }
    {
        names_any(self.handles.as_slice(), handle, agent, controller)
            || has_pair(self.pairs.as_slice(), Pair { controller, agent })
    }

    /// Removes the handles with their interfaces, the items that name them, and those of the pairs. This takes no
    /// memory.
    pub fn carry_out(&self, handles: &mut Handles<A>, opens: &mut Opens<A>)
        ensures handles { handles.new ≡ spec.without_handles self.now.handles handles.old }
        ensures opens { opens.new ≡ spec.without_opens self.now.handles self.now.pairs opens.old }
    {
        remove_handles(handles, self.handles.as_slice());
        take_naming(opens, self.handles.as_slice());
        take_pairs(opens, self.pairs.as_slice());
    }
}

/// Stops pairs of a controller and a driver's agent, and with them the drivers on the handles that
/// these made, where all can be stopped: those handles go, with each item of the pairs. It returns
/// whether they were stopped. `handle` is the handle of the call, and `opener` the agent and the
/// controller of a call of OpenProtocol: they must stay. If not all can be stopped, and on an
/// `Err`, nothing changes.
pub fn stop<D: Driver, A: Allocator + Copy>(
    alloc: A,
    handles: &mut Handles<A>,
    opens: &mut Opens<A>,
    drivers: &[D],
    pairs: &[Pair],
    handle: u64,
    opener: Option<Pair>,
) -> Result<bool, AllocError>
    ensures ok { IfOk result
        (λ stopped. spec.Stops
        (map D.meaning drivers.now) handles.old opens.old pairs.now handle opener stopped
        handles.new opens.new) }
    ensures err_handles { OnErr result (handles.new ≡ handles.old) }
    ensures err_opens { OnErr result (opens.new ≡ opens.old) }
{
    let lists = Lists {
        alloc,
        handles,
        opens,
    };
    let plan = lists.stop_plan(pairs)?;
    if !lists.can_be_stopped(&plan, drivers, handle, opener)? {
        return Ok(false);
    }
    plan.carry_out(handles, opens);
    Ok(true)
}

/// The pairs that manage a handle, those of one driver alone if it is not 0.
pub(crate) fn managers_meant<A: Allocator + Copy>(
    opens: &Opens<A>,
    handle: u64,
    driver: u64,
) -> Result<Vec<Pair, A>, AllocError>
    ensures { IfOk result (λ v. v.items ≡ spec.managers_meant opens.now handle driver) }
{
    let mut pairs = opens.managers(handle)?;
    keep_of_driver(&mut pairs, driver);
    Ok(pairs)
}

/// Keeps the pairs of a driver, or all if it is 0.
fn keep_of_driver<A: Allocator>(pairs: &mut Vec<Pair, A>, driver: u64)
    ensures { pairs.new.items ≡ filter (spec.is_meant driver) pairs.old.items }
{
    pairs.retain(
        |p: &Pair| -> bool
            ensures { result ≡ spec.is_meant driver p.now }
        { driver == 0 || p.agent == driver },
    );
}

/// Whether a call of DisconnectController names a handle that is not live, or a driver other than 0
/// that does not carry the driver binding protocol.
fn is_refused<A: Allocator + Copy>(handles: &Handles<A>, handle: u64, driver: u64) -> bool
    ensures { result ≡ spec.disconnect_refused handles.now handle driver }
{
    !handles.is_live(handle)
        || (driver != 0
            && (!handles.is_live(driver) || handles.interface(driver, driver_binding()).is_none()))
}

/// Stops the drivers that manage a handle, or one of them if `driver` is not 0. On an `Err` nothing
/// changes.
pub fn disconnect<D: Driver, A: Allocator + Copy>(
    alloc: A,
    handles: &mut Handles<A>,
    opens: &mut Opens<A>,
    drivers: &[D],
    handle: u64,
    driver: u64,
) -> Result<(), Status>
    ensures { spec.Disconnects
        (map D.meaning drivers.now) handles.old opens.old handle driver result handles.new
        opens.new }
{
    if is_refused(handles, handle, driver) {
        return Err(Status::InvalidParameter);
    }
    let Ok(pairs) = managers_meant(opens, handle, driver) else {
        return Err(Status::OutOfResources);
    };
    match stop(
        alloc,
        handles,
        opens,
        drivers,
        pairs.as_slice(),
        handle,
        None,
    ) {
        Ok(true) => Ok(()),
        Ok(false) => Err(Status::DeviceError),
        Err(_) => Err(Status::OutOfResources),
    }
}
