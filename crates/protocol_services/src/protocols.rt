//! The lists of the protocol services, and what installs interfaces.
ghost use Rattle.std.specs.Prelude.{◌≡◌, ◌↔◌, ◌<◌, ◌^◌, length, IfOk, IsTrue, OnOk};
ghost use Rattle.protocol_services.specs.Installing.{InstallsInterface, InstallsInterfaces, Registers, or_out_of_memory, signaled, unless_path};
ghost use Rattle.protocol_services.specs.Lists.{HasRoom, HasRoomAfter, IsRaised, no_lists};

use boot_calls::Installed;
use guid_handles::Handles;
use open_agents::Opens;
use page_ranges::Status;
use protocol_notify::Notify;
use std::alloc::{AllocError, Allocator, Global};
use std::marker::Model;
use uuid::Uuid;

/// The first number, and the first stamp, after which a call gives none.
const NUMBERS_END: u64 = 0x2000_0000_0000_0000;

/// The handles with their interfaces, the open items and the registrations.
#[derive(Drop)]
pub struct Protocols<A: Allocator = Global> {
    pub(crate) alloc: A,
    pub(crate) handles: Handles<A>,
    pub(crate) opens: Opens<A>,
    pub(crate) registrations: Notify<A>,
}

impl<A: Allocator> Model for Protocols<A> {
    ghost use Rattle.protocol_services.specs.Lists.{Lists};

    ghost Value = { Lists };

    ghost view = { λ p.
        record { handles = p.handles; opens = p.opens; registrations = p.registrations } };
}

impl<A: Allocator + Copy> Protocols<A> {
    /// No handles, items or registrations. This takes no memory.
    pub fn new(alloc: A) -> Protocols<A>
        ensures { result ≡ no_lists }
    {
        Protocols {
            alloc,
            handles: Handles::new(alloc),
            opens: Opens::new(alloc),
            registrations: Notify::new(alloc),
        }
    }

    /// The handles and the interfaces on them.
    pub fn handles(&self) -> &Handles<A>
        ensures { result.now ≡ self.now.handles }
    {
        &self.handles
    }

    /// The open items.
    pub fn opens(&self) -> &Opens<A>
        ensures { result.now ≡ self.now.opens }
    {
        &self.opens
    }

    /// The handles and the open items, as drivers are looked for on them.
    pub(crate) fn lists(&self) -> driver_connect::Lists<'_, A>
        ensures handles { result.handles.now ≡ self.now.handles }
        ensures opens { result.opens.now ≡ self.now.opens }
    {
        driver_connect::Lists {
            alloc: self.alloc,
            handles: &self.handles,
            opens: &self.opens,
        }
    }

    /// InstallProtocolInterface: installs an interface on a handle, on a new one for handle 0.
    ///
    /// INVALID_PARAMETER: the kind is not 0 (EFI_NATIVE_INTERFACE), the handle is neither 0 nor live,
    /// or it carries the GUID. OUT_OF_RESOURCES: 4,096 handles are live, or memory or numbers ran out.
    pub fn install(
        &mut self,
        handle: u64,
        guid: Uuid,
        kind: u32,
        value: u64,
    ) -> Result<Installed<A>, Status>
        ensures installs { InstallsInterface self.old handle guid kind value result self.new }
        ensures raised { IsRaised self.old self.new }
    {
        let Ok(events) = self.signaled(&[(guid, value)]) else {
            let refusal = self.handles.install_refusal(handle, guid, kind);
            return Err(or_out_of_memory(refusal));
        };
        let handle = self.handles.install(handle, guid, kind, value)?;
        Ok(Installed { handle, events })
    }

    /// InstallMultipleProtocolInterfaces: installs all of some interfaces, pairs of GUID and value, on a
    /// handle, on a new one for handle 0. `has_path` says whether one of them is a device path that is
    /// installed already.
    ///
    /// INVALID_PARAMETER: there are none, or more than 16; the handle is neither 0 nor live; a GUID is
    /// there twice, or the handle carries it. ALREADY_STARTED: such a device path. OUT_OF_RESOURCES:
    /// 4,096 handles are live, or memory or numbers ran out.
    pub fn install_many(
        &mut self,
        handle: u64,
        pairs: &[(Uuid, u64)],
        has_path: bool,
    ) -> Result<Installed<A>, Status>
        ensures installs { InstallsInterfaces self.old handle pairs.now has_path result self.new }
        ensures raised { IsRaised self.old self.new }
    {
        let refusal = unless_path(has_path, self.handles.install_many_refusal(handle, pairs));
        if let Some(status) = refusal {
            return Err(status);
        }
        let Ok(events) = self.signaled(pairs) else {
            return Err(Status::OutOfResources);
        };
        let handle = self.handles.install_many(handle, pairs)?;
        Ok(Installed { handle, events })
    }

    /// Whether there is room for the numbers and stamps that a call gives.
    pub(crate) fn has_room(&self) -> bool
        ensures { IsTrue result ↔ HasRoom self.now }
    {
        has_room_after(self.handles.last_number(), self.handles.last_stamp())
    }

    /// The events that are signaled when the pairs are installed. On an `Err` memory or numbers ran out.
    fn signaled(&self, pairs: &[(Uuid, u64)]) -> Result<Vec<u64, A>, AllocError>
        ensures events { IfOk result (λ v. v.items ≡ signaled self.now.registrations pairs.now) }
        ensures room { OnOk result (HasRoom self.now) }
    {
        if !self.has_room() {
            return Err(AllocError);
        }
        match pairs {
            [pair] => self.registrations.signaled(pair.0),
            _ => self.signaled_in_turn(pairs),
        }
    }

    /// The events of the pairs, one after the other.
    fn signaled_in_turn(&self, pairs: &[(Uuid, u64)]) -> Result<Vec<u64, A>, AllocError>
        ensures { IfOk result (λ events. events.items ≡ signaled self.now.registrations pairs.now) }
    {
        let mut events = Vec::new(self.alloc);
        for pair in pairs {
            let more = self.registrations.signaled(pair.0)?;
            events.extend_from_slice(more.as_slice())?;
        }
        Ok(events)
    }

    /// RegisterProtocolNotify: registers an event for the interfaces of a GUID that are installed from
    /// now on, and returns its key. OUT_OF_RESOURCES: memory ran out.
    pub fn register(&mut self, guid: Uuid, event: u64) -> Result<u64, Status>
        requires { length self.old.registrations < 2 ^ 62 }
        ensures registers { Registers self.old guid event result self.new }
        ensures raised { IsRaised self.old self.new }
    {
        self.registrations.register(&self.handles, guid, event)
    }
}

/// Whether handles may get numbers and interfaces stamps once these were the last that were given. A call gives
/// some thousands, so no core comes to where they may not.
pub fn has_room_after(last_number: u64, last_stamp: u64) -> bool
    ensures { IsTrue result ↔ HasRoomAfter last_number last_stamp }
{
    last_number < NUMBERS_END && last_stamp < NUMBERS_END - 1
}

/// A refusal, or OUT_OF_RESOURCES where there is none.
fn or_out_of_memory(refusal: Option<Status>) -> Status
    ensures { result ≡ or_out_of_memory refusal }
{
    match refusal {
        Some(status) => status,
        None => Status::OutOfResources,
    }
}

/// A refusal, where the path of one of the pairs is installed already or not.
fn unless_path(has_path: bool, refusal: Option<Status>) -> Option<Status>
    ensures { result ≡ unless_path has_path refusal }
{
    match refusal {
        _ if !has_path => refusal,
        Some(Status::InvalidParameter) => refusal,
        _ => Some(Status::AlreadyStarted),
    }
}
