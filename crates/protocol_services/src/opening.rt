//! Opening and closing interfaces.
ghost use Rattle.std.specs.Prelude.{◌≡◌, ◌==◌, true, false, cond, is_some, None, Some, map};
ghost use Rattle.guid_handles.specs.HandleTables.{carries, value_at};
ghost use Rattle.protocol_services.specs.Lists.{IsRaised};
ghost use Rattle.open_agents.specs.OpenRequests.{decision_on, is_among};
ghost use Rattle.protocol_services.specs.Opening.{Closes, HandlesProtocol, ReturnsItems, names_none, test_protocol};
ghost use Rattle.protocol_services.specs.OpeningSteps.{OpensAfterStop, OpensAgain, OpensAnew, OpensRequest};

use crate::protocols::Protocols;
use driver_connect::Driver;
use guid_handles::Pair;
use open_agents::{BY_HANDLE_PROTOCOL, Decision, OpenItem, OpenRequest, TEST_PROTOCOL};
use page_ranges::Status;
use std::alloc::Allocator;
use uuid::Uuid;

impl<A: Allocator + Copy> Protocols<A> {
    /// OpenProtocol: the value of the interface of a GUID on a handle, none for TEST_PROTOCOL; an agent
    /// other than 0 gets an item, or its equal item is counted once more. An exclusive open stops the driver
    /// that has the interface open.
    ///
    /// Refused as the open table says, with ACCESS_DENIED where that driver can't be stopped.
    /// OUT_OF_RESOURCES: memory ran out for the stop, or for a new item.
    pub fn open<D: Driver>(
        &mut self,
        drivers: &[D],
        request: &OpenRequest,
    ) -> Result<Option<u64>, Status>
        ensures opens { OpensRequest
            (map D.meaning drivers.now) self.old request.now result self.new }
        ensures raised { IsRaised self.old self.new }
    {
        let value = self.handles.interface(request.handle, request.guid);
        match self.decide(value, request) {
            Decision::Refuse(status) => Err(status),
            Decision::StopFirst(manager) => self.open_after_stop(drivers, manager, request),
            Decision::Count => self.count_open(value, request),
            Decision::Add => self.add_open(value, request),
        }
    }

    /// What is to be done about a call of OpenProtocol, by the value of the interface.
    fn decide(&self, value: Option<u64>, request: &OpenRequest) -> Decision
        requires { is_some value ≡ carries self.now.handles request.now.guid request.now.handle }
        ensures { result ≡ decision_on self.now.handles self.now.opens request.now }
    {
        self.opens
            .decide_installed(&self.handles, value.is_some(), request)
    }

    /// Opens an interface for which there is an equal item.
    fn count_open(
        &mut self,
        value: Option<u64>,
        request: &OpenRequest,
    ) -> Result<Option<u64>, Status>
        requires { value ≡ value_at self.old.handles request.now.handle request.now.guid }
        ensures adds { OpensAnew self.old request.now result self.new }
        ensures counts { OpensAgain self.old request.now result self.new }
        ensures raised { IsRaised self.old self.new }
    {
        match self.opens.add_request(request) {
            Ok(()) => Ok(returned_value(value, request.attributes)),
            Err(_) => Err(Status::OutOfResources),
        }
    }

    /// Opens an interface that no driver must give up first, where there is no equal item. OUT_OF_RESOURCES:
    /// memory ran out for a new item.
    fn add_open(&mut self, value: Option<u64>, request: &OpenRequest) -> Result<Option<u64>, Status>
        requires value { value ≡ value_at self.old.handles request.now.handle request.now.guid }
        requires new { is_among self.old.opens request.now ≡ false }
        ensures adds { OpensAnew self.old request.now result self.new }
        ensures raised { IsRaised self.old self.new }
    {
        match self.opens.add_new(request) {
            Ok(()) => Ok(returned_value(value, request.attributes)),
            Err(_) => Err(Status::OutOfResources),
        }
    }

    /// Opens an interface after a manager is stopped.
    ///
    /// ACCESS_DENIED: it can't be stopped. OUT_OF_RESOURCES: memory ran out.
    fn open_after_stop<D: Driver>(
        &mut self,
        drivers: &[D],
        manager: Pair,
        request: &OpenRequest,
    ) -> Result<Option<u64>, Status>
        ensures opens { OpensAfterStop (map D.meaning drivers.now)
            manager self.old request.now result self.new }
        ensures raised { IsRaised self.old self.new }
    {
        let Ok(plan) = self.lists().stop_plan(&[manager]) else {
            return Err(Status::OutOfResources);
        };
        let opener = Pair {
            agent: request.agent,
            controller: request.controller,
        };
        match self
            .lists()
            .can_be_stopped(&plan, drivers, request.handle, Some(opener))
        {
            Ok(true) => {}
            Ok(false) => return Err(Status::AccessDenied),
            Err(_) => return Err(Status::OutOfResources),
        }
        let value = returned_value(
            self.handles.interface(request.handle, request.guid),
            request.attributes,
        );
        // The new item is none that the stop takes out. It comes first, as it may take memory.
        match self.opens.add_request(request) {
            Ok(()) => {
                plan.carry_out(&mut self.handles, &mut self.opens);
                Ok(value)
            }
            Err(_) => Err(Status::OutOfResources),
        }
    }

    /// HandleProtocol: the value of the interface of a GUID on a handle. This takes no memory.
    ///
    /// INVALID_PARAMETER: the handle is not live. UNSUPPORTED: it does not carry the GUID.
    pub fn handle_protocol(&mut self, handle: u64, guid: Uuid) -> Result<u64, Status>
        ensures opens { HandlesProtocol self.old handle guid result self.new }
        ensures raised { IsRaised self.old self.new }
    {
        // The contract of this look-up says that interfaces are on live handles.
        let _numbers = self.handles.all();
        match self.handles.interface(handle, guid) {
            // An open by no agent has no item.
            Some(value) => match self.opens.add(handle, guid, 0, 0, BY_HANDLE_PROTOCOL) {
                Ok(()) => Ok(value),
                Err(_) => unreachable!(),
            },
            None if self.handles.is_live(handle) => Err(Status::Unsupported),
            None => Err(Status::InvalidParameter),
        }
    }

    /// CloseProtocol: removes all open items of an agent and a controller on an interface. This takes no memory.
    ///
    /// INVALID_PARAMETER: the handle or the agent is not live, or the controller is neither 0 nor live.
    /// NOT_FOUND: the GUID is not on the handle, or there is no such item.
    pub fn close(
        &mut self,
        handle: u64,
        guid: Uuid,
        agent: u64,
        controller: u64,
    ) -> Result<(), Status>
        ensures closes { Closes self.old handle guid agent controller result self.new }
        ensures raised { IsRaised self.old self.new }
    {
        if self.names_none(handle, agent, controller) {
            return Err(Status::InvalidParameter);
        }
        if self.handles.interface(handle, guid).is_none() {
            return Err(Status::NotFound);
        }
        if self.opens.close(handle, guid, agent, controller) {
            Ok(())
        } else {
            Err(Status::NotFound)
        }
    }

    /// Whether a handle or an agent is not live, or a controller neither 0 nor live.
    fn names_none(&self, handle: u64, agent: u64, controller: u64) -> bool
        ensures { result ≡ names_none self.now handle agent controller }
    {
        !self.handles.is_live(handle)
            || !self.handles.is_live(agent)
            || (controller != 0 && !self.handles.is_live(controller))
    }

    /// The open items of the interface of a GUID on a handle, in the order in which they were made.
    /// Where there are none, this takes no memory.
    ///
    /// NOT_FOUND: the handle is not live, or does not carry the GUID. OUT_OF_RESOURCES: memory ran out.
    pub fn items(&self, handle: u64, guid: Uuid) -> Result<Vec<OpenItem, A>, Status>
        ensures { ReturnsItems self.now handle guid result }
    {
        if self.handles.interface(handle, guid).is_none() {
            return Err(Status::NotFound);
        }
        match self.opens.items(handle, guid) {
            Ok(items) => Ok(items),
            Err(_) => Err(Status::OutOfResources),
        }
    }
}

/// What OpenProtocol returns of the value of an interface.
fn returned_value(value: Option<u64>, attributes: u32) -> Option<u64>
    ensures { result ≡ cond (attributes == test_protocol) None value }
{
    if attributes == TEST_PROTOCOL {
        None
    } else {
        value
    }
}
