//! Uninstalling and reinstalling interfaces.
ghost use Rattle.std.specs.Prelude.{◌≡◌, true, map, IfOk, IsOk, OnOk, OnErr};
ghost use Rattle.std.specs.List.{list_any};
ghost use Rattle.guid_handles.specs.HandleTables.{carries, value_at};
ghost use Rattle.open_agents.specs.Blocks.{items_near};
ghost use Rattle.open_agents.specs.OpenItems.{is_open_on, keeps, without_items};
ghost use Rattle.protocol_notify.specs.Registrations.{events_for};
ghost use Rattle.protocol_services.specs.Lists.{HasRoom, IsRaised};
ghost use Rattle.protocol_services.specs.Removing as spec;
ghost use Rattle.protocol_services.specs.RemovalSteps.{CarriesInterface, PlansToFree, ReplacesBy, keeps_after, stop_to_free, uninstalled_idle};
ghost use Rattle.protocol_services.specs.RemovingMany.{is_free_to_go};

use crate::protocols::Protocols;
use crate::stops::drivers_near;
use driver_connect::{Driver, Replacement, Starter, StopPlan};
use guid_handles::{Handles, is_same_guid};
use open_agents::{BY_CHILD_CONTROLLER, EXCLUSIVE, Near, OpenRecord, Opens, Usage};
use page_ranges::Status;
use std::alloc::{AllocError, Allocator};
use uuid::Uuid;

/// Why uninstalling or reinstalling an interface with a value is refused before any driver is
/// asked.
pub(crate) fn removal_refusal<A: Allocator + Copy>(
    handles: &Handles<A>,
    handle: u64,
    guid: Uuid,
    value: u64,
) -> Option<Status>
    ensures { result ≡ spec.removal_refusal handles.now handle guid value }
{
    // The contract of this look-up says that interfaces are on live handles.
    let _numbers = handles.all();
    if has_value(handles, handle, guid, value) {
        return None;
    }
    if handles.is_live(handle) {
        Some(Status::NotFound)
    } else {
        Some(Status::InvalidParameter)
    }
}

/// Whether a handle carries a GUID with a value.
fn has_value<A: Allocator + Copy>(handles: &Handles<A>, handle: u64, guid: Uuid, value: u64) -> bool
    ensures { result ≡ spec.is_value value (value_at handles.now handle guid) }
{
    match handles.interface(handle, guid) {
        Some(v) => v == value,
        None => false,
    }
}

/// Whether an open with some attributes keeps its interface: one for a child, or an exclusive one of no
/// driver.
fn keeps(attributes: u32) -> bool
    ensures { result ≡ keeps attributes }
{
    attributes == BY_CHILD_CONTROLLER || attributes == EXCLUSIVE
}

/// Whether an item keeps an interface once a stop is carried out, which leaves the item.
fn keeps_after<A: Allocator + Copy>(
    plan: &StopPlan<A>,
    o: &OpenRecord,
    handle: u64,
    guid: Uuid,
) -> bool
    ensures { result ≡ keeps_after plan.now handle guid o.now }
{
    o.handle == handle
        && is_same_guid(&o.guid, &guid)
        && keeps(o.attributes)
        && !plan.takes_item(handle, o.agent, o.controller)
}

/// Whether an item near an interface keeps it once a stop is carried out.
fn is_kept_after<A: Allocator + Copy>(
    plan: &StopPlan<A>,
    near: Near<'_>,
    handle: u64,
    guid: Uuid,
) -> bool
    ensures { result ≡ list_any (keeps_after plan.now handle guid) (items_near near.entry) }
{
    near.items().any(|o| keeps_after(plan, o, handle, guid))
}

/// Removes the items of an interface, which are not looked for where there are none.
fn drop_items<A: Allocator + Copy>(items: &mut Opens<A>, is_open: bool, handle: u64, guid: Uuid)
    requires { is_open ≡ list_any (is_open_on handle guid) items.old }
    ensures { items.new ≡ without_items (is_open_on handle guid) items.old }
{
    if !is_open {
        return;
    }
    items.drop_interface(handle, guid);
}

impl<A: Allocator + Copy> Protocols<A> {
    /// What is removed to free an interface, found on the lists as they are.
    ///
    /// ACCESS_DENIED: it can't be freed. OUT_OF_RESOURCES: memory ran out.
    fn plan_to_free<D: Driver>(
        &self,
        drivers: &[D],
        handle: u64,
        guid: Uuid,
    ) -> Result<StopPlan<A>, Status>
        ensures { PlansToFree (map D.meaning drivers.now) self.now handle guid result }
    {
        let Ok(plan) = self.plan_of_drivers(handle, guid) else {
            return Err(Status::OutOfResources);
        };
        let Ok(can) = self.lists().can_be_stopped(&plan, drivers, handle, None) else {
            return Err(Status::OutOfResources);
        };
        if !can {
            return Err(Status::AccessDenied);
        }
        if is_kept_after(&plan, self.opens.near(handle), handle, guid) {
            return Err(Status::AccessDenied);
        }
        Ok(plan)
    }

    /// What a stop of the drivers that have an interface open removes.
    fn plan_of_drivers(&self, handle: u64, guid: Uuid) -> Result<StopPlan<A>, AllocError>
        ensures { IfOk result (λ plan. plan ≡ stop_to_free self.now handle guid) }
    {
        let pairs = drivers_near(self.alloc, self.opens.near(handle), handle, guid)?;
        self.lists().stop_plan_of_vec(pairs)
    }

    /// Carries out the stop that frees an interface, and removes the items that are left on it. This does
    /// not allocate.
    fn free(&mut self, plan: &StopPlan<A>, handle: u64, guid: Uuid)
        requires { plan.now ≡ stop_to_free self.old handle guid }
        ensures { self.new ≡ spec.freed handle guid self.old }
    {
        plan.carry_out(&mut self.handles, &mut self.opens);
        self.opens.drop_interface(handle, guid);
    }

    /// Uninstalls an interface, and with the last one its handle, with the items that name it.
    fn take_out(&mut self, handle: u64, guid: Uuid)
        requires { carries self.old.handles guid handle ≡ true }
        ensures { self.new ≡ spec.uninstalled handle guid self.old }
    {
        if self.handles.remove(handle, guid) {
            self.opens.drop_handle(handle);
        }
    }

    /// UninstallProtocolInterface: uninstalls the interface of a GUID with a value; a handle goes with its last
    /// interface. The drivers that have it open are stopped, the other items on it go.
    ///
    /// INVALID_PARAMETER: the handle is not live. NOT_FOUND: it does not carry the GUID with the value.
    /// ACCESS_DENIED: a driver can't be stopped, or it is open for a child or exclusively. OUT_OF_RESOURCES:
    /// memory ran out. Where no driver has it open, this takes no memory.
    pub fn uninstall<D: Driver>(
        &mut self,
        drivers: &[D],
        handle: u64,
        guid: Uuid,
        value: u64,
    ) -> Result<(), Status>
        ensures uninstalls { spec.Uninstalls
            (map D.meaning drivers.now) self.old handle guid value result self.new }
        ensures free { is_free_to_go self.old handle (guid, value) ≡ true → IsOk result }
        ensures raised { IsRaised self.old self.new }
    {
        if let Some(status) = removal_refusal(&self.handles, handle, guid, value) {
            return Err(status);
        }
        let Usage {
            is_open,
            is_driven,
            is_kept,
        } = self.opens.usage(handle, guid);
        if is_driven {
            let plan = self.plan_to_free(drivers, handle, guid)?;
            self.free(&plan, handle, guid);
            self.take_out(handle, guid);
            return Ok(());
        }
        if is_kept {
            return Err(Status::AccessDenied);
        }
        self.take_idle_out(is_open, handle, guid);
        Ok(())
    }

    /// Uninstalls an interface that no driver has open, with the items on it, and with the last one its handle.
    /// This takes no memory.
    pub(crate) fn take_idle_out(&mut self, is_open: bool, handle: u64, guid: Uuid)
        requires open { is_open ≡ list_any (is_open_on handle guid) self.old.opens }
        requires there { carries self.old.handles guid handle ≡ true }
        ensures { self.new ≡ uninstalled_idle handle guid self.old }
    {
        drop_items(&mut self.opens, is_open, handle, guid);
        self.take_out(handle, guid);
    }

    /// ReinstallProtocolInterface: gives the interface of a GUID another value, as if it were installed
    /// anew in the same place, and connects the handle and all below it. The drivers that have it open are
    /// stopped first, the other items on it go. It returns the events that are signaled: those of the GUID,
    /// then those of the connect.
    ///
    /// Refused as [`Protocols::uninstall`], with the old value. OUT_OF_RESOURCES: memory or numbers ran out.
    pub fn reinstall<D: Driver>(
        &mut self,
        drivers: &[D],
        handle: u64,
        guid: Uuid,
        old_value: u64,
        new_value: u64,
    ) -> Result<Vec<u64, A>, Status>
        ensures reinstalls { spec.Reinstalls
            (map D.meaning drivers.now) self.old handle guid old_value new_value result self.new }
        ensures raised { IsRaised self.old self.new }
    {
        if let Some(status) = removal_refusal(&self.handles, handle, guid, old_value) {
            return Err(status);
        }
        let plan = self.plan_to_free(drivers, handle, guid)?;
        if !self.has_room() {
            return Err(Status::OutOfResources);
        }
        let replacement = Replacement {
            handle,
            guid,
            value: new_value,
        };
        match self.replace_freed(&plan, drivers, &replacement) {
            Ok(events) => Ok(events),
            Err(_) => Err(Status::OutOfResources),
        }
    }

    /// Frees an interface, gives it another value and connects its handle with all below it. It returns
    /// the events of the GUID, then those of the connect. On an `Err` nothing changes.
    fn replace_freed<D: Driver>(
        &mut self,
        plan: &StopPlan<A>,
        drivers: &[D],
        replacement: &Replacement,
    ) -> Result<Vec<u64, A>, AllocError>
        requires plan { plan.now
            ≡ stop_to_free self.old replacement.now.handle replacement.now.guid }
        requires there { CarriesInterface replacement.now
            (spec.freed replacement.now.handle replacement.now.guid self.old) }
        requires room { HasRoom self.old }
        ensures ok { ReplacesBy D.meaning drivers.now replacement.now
            (spec.freed replacement.now.handle replacement.now.guid self.old) result self.new }
        ensures err { OnErr result (self.new ≡ self.old) }
        ensures raised { IsRaised self.old self.new }
    {
        let given = self.registrations.signaled(replacement.guid)?;
        let saved = self.saved_before(plan, replacement.handle, replacement.guid)?;
        self.free(plan, replacement.handle, replacement.guid);
        match self.replace_and_connect(drivers, replacement, given) {
            Ok(events) => Ok(events),
            Err(error) => {
                self.put_back(saved);
                Err(error)
            }
        }
    }

    /// Gives an interface another value and connects its handle with all below it. It returns the events
    /// given, then those of the connect. On an `Err` nothing changes.
    fn replace_and_connect<D: Driver>(
        &mut self,
        drivers: &[D],
        replacement: &Replacement,
        given: Vec<u64, A>,
    ) -> Result<Vec<u64, A>, AllocError>
        requires there { CarriesInterface replacement.now self.old }
        requires room { HasRoom self.old }
        requires given { given.items ≡ events_for self.old.registrations replacement.now.guid }
        ensures ok { ReplacesBy D.meaning drivers.now replacement.now self.old result self.new }
        ensures raised { OnOk result (IsRaised self.old self.new) }
        ensures err { OnErr result (self.new ≡ self.old) }
    {
        let starter = Starter {
            alloc: self.alloc,
            drivers,
            notify: &self.registrations,
        };
        starter.replace_and_connect(&mut self.handles, &mut self.opens, replacement, given)
    }
}
