//! Uninstalling several interfaces, all of them or none.
ghost use Rattle.std.specs.Prelude.{◌≡◌, ◌≤◌, ◌∷◌, [], true, length, map, IsOk};
ghost use Rattle.std.specs.List.{list_all};
ghost use Rattle.protocol_services.specs.Lists.{IsRaised};
ghost use Rattle.protocol_services.specs.RemovingMany as spec;

use crate::protocols::Protocols;
use crate::removing::removal_refusal;
use driver_connect::Driver;
use guid_handles::{MAX_INSTALLED, has_guid_twice};
use page_ranges::Status;
use std::alloc::Allocator;
use uuid::Uuid;

impl<A: Allocator + Copy> Protocols<A> {
    /// UninstallMultipleProtocolInterfaces: uninstalls interfaces of a handle, pairs of GUID and value, one after the
    /// other as [`Protocols::uninstall`] does: all of them, or none.
    ///
    /// INVALID_PARAMETER: there are more than 16, or one of them can't be uninstalled at its turn. OUT_OF_RESOURCES:
    /// memory ran out. Where a GUID is named twice, or no driver has one of them open and none is refused,
    /// this takes no memory.
    pub fn uninstall_many<D: Driver>(
        &mut self,
        drivers: &[D],
        handle: u64,
        pairs: &[(Uuid, u64)],
    ) -> Result<(), Status>
        ensures uninstalls { spec.UninstallsMany
            (map D.meaning drivers.now) self.old handle pairs.now result self.new }
        ensures free { length pairs.now ≤ spec.max_uninstalled
            → spec.are_free_to_go self.old handle pairs.now ≡ true → IsOk result }
        ensures raised { IsRaised self.old self.new }
    {
        if pairs.len() > MAX_INSTALLED {
            return Err(Status::InvalidParameter);
        }
        // Of two with one GUID the second is not there any more at its turn.
        if has_guid_twice(pairs) {
            return Err(Status::InvalidParameter);
        }
        if let [pair] = pairs {
            return self.uninstall_one(drivers, handle, pair);
        }
        if self.is_each_free_to_go(handle, pairs) {
            self.take_each_out(handle, pairs);
            return Ok(());
        }
        self.uninstall_or_put_back(drivers, handle, pairs)
    }

    /// Uninstalls a single interface, or leaves all as it is.
    fn uninstall_one<D: Driver>(
        &mut self,
        drivers: &[D],
        handle: u64,
        pair: &(Uuid, u64),
    ) -> Result<(), Status>
        ensures uninstalls { spec.UninstallsMany
            (map D.meaning drivers.now) self.old handle (pair.now ∷ []) result self.new }
        ensures free { spec.is_free_to_go self.old handle pair.now ≡ true → IsOk result }
        ensures raised { IsRaised self.old self.new }
    {
        match self.uninstall(drivers, handle, pair.0, pair.1) {
            Ok(()) => Ok(()),
            Err(status) => Err(refusal_of_all(status)),
        }
    }

    /// Whether each of some interfaces can be uninstalled without a stop: it is there with its value, open by no
    /// driver and kept by no item.
    fn is_each_free_to_go(&self, handle: u64, pairs: &[(Uuid, u64)]) -> bool
        ensures { result ≡ list_all (spec.is_free_to_go self.now handle) pairs.now }
    {
        pairs.iter().all(|pair| self.is_free_to_go(handle, pair))
    }

    /// Whether an interface can be uninstalled without a stop.
    fn is_free_to_go(&self, handle: u64, pair: &(Uuid, u64)) -> bool
        ensures { result ≡ spec.is_free_to_go self.now handle pair.now }
    {
        if removal_refusal(&self.handles, handle, pair.0, pair.1).is_some() {
            return false;
        }
        let usage = self.opens.usage(handle, pair.0);
        !usage.is_driven && !usage.is_kept
    }

    /// Uninstalls interfaces that are free to go, of different GUIDs. This takes no memory.
    fn take_each_out(&mut self, handle: u64, pairs: &[(Uuid, u64)])
        requires { spec.are_free_to_go self.old handle pairs.now ≡ true }
        ensures { spec.AllGo self.old handle pairs.now self.new }
    {
        for pair in pairs {
            let is_open = self.opens.usage(handle, pair.0).is_open;
            self.take_idle_out(is_open, handle, pair.0);
        }
    }

    /// Uninstalls interfaces one after the other. Where one is refused, a copy of the lists is put back.
    fn uninstall_or_put_back<D: Driver>(
        &mut self,
        drivers: &[D],
        handle: u64,
        pairs: &[(Uuid, u64)],
    ) -> Result<(), Status>
        requires { length pairs.now ≤ spec.max_uninstalled }
        ensures uninstalls { spec.UninstallsMany
            (map D.meaning drivers.now) self.old handle pairs.now result self.new }
        ensures raised { IsRaised self.old self.new }
    {
        let Ok(saved) = self.saved() else {
            return Err(Status::OutOfResources);
        };
        if let Err(status) = self.uninstall_each(drivers, handle, pairs) {
            self.put_back(saved);
            return Err(status);
        }
        Ok(())
    }

    /// Uninstalls interfaces one after the other, up to the first that is refused.
    fn uninstall_each<D: Driver>(
        &mut self,
        drivers: &[D],
        handle: u64,
        pairs: &[(Uuid, u64)],
    ) -> Result<(), Status>
        ensures each { spec.UninstallsEach
            (map D.meaning drivers.now) self.old handle pairs.now result self.new }
        ensures registrations { self.new.registrations ≡ self.old.registrations }
    {
        for pair in pairs {
            if let Err(status) = self.uninstall(drivers, handle, pair.0, pair.1) {
                return Err(refusal_of_all(status));
            }
        }
        Ok(())
    }
}

/// What is returned for all of some interfaces where one is refused.
fn refusal_of_all(status: Status) -> Status
    ensures { result ≡ spec.refusal_of_all status }
{
    match status {
        Status::OutOfResources => Status::OutOfResources,
        _ => Status::InvalidParameter,
    }
}
